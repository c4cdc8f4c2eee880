//! Truncates the output after an error.

ghost use Rattle.std.specs.Prelude.{◌≡◌, take, OnOk, OnErr};

use crate::fault::WireFault;
use std::alloc::Allocator;

/// Returns `written`. If it is an error, truncates `buf` to its first `start` bytes.
pub fn truncate_on_error<A: Allocator>(
    written: Result<(), WireFault>,
    start: usize,
    buf: &mut Vec<u8, A>,
) -> Result<(), WireFault>
    ensures answer { result ≡ written }
    ensures ok { OnOk result (buf.new.items ≡ buf.old.items) }
    ensures err { OnErr result (buf.new.items ≡ take start buf.old.items) }
{
    if written.is_err() {
        buf.truncate(start);
    }
    written
}
