//! Writes bytes to a writer.

ghost use Rattle.std.specs.Prelude.{◌≡◌, OnOk, IfErr};
ghost use Rattle.std.specs.Io.KnownBytes.{Appends};
ghost use Rattle.wire_buf.specs.declared.fault.WireFault.TheVariants.{Write as WriteFault};
ghost use Rattle.wire_buf.specs.Transfers.{WritesPrefix};

use crate::fault::WireFault;
use std::io::{ErrorKind, Write};

/// The limit of writes in one call: a device that is interrupted 2^63 - 1 times has failed.
pub const MAX_WRITES: u64 = 0x7fff_ffff_ffff_ffff;

/// Writes all of the bytes. An interrupted write is tried again.
///
/// Returns `Write` if the writer fails, if it takes no byte although there are some, or if it is interrupted
/// 2^63 - 1 times; a prefix of the bytes is then written.
pub fn write_all<W: Write>(writer: &mut W, bytes: &[u8]) -> Result<(), WireFault>
    ensures ok { OnOk result (Appends (W.contents writer.old) (W.contents writer.new) bytes.now) }
    ensures err { IfErr result (λ e. (e ≡ WriteFault) × WritesPrefix bytes.now
        (W.contents writer.old) (W.contents writer.new)) }
{
    let mut rest = bytes;
    'writes: for _write in 0..MAX_WRITES {
        if rest.is_empty() {
            return Ok(());
        }
        match writer.write(rest) {
            Ok(0) => return Err(WireFault::Write),
            Ok(n) => rest = &rest[n..],
            Err(error) => {
                if error.kind() != ErrorKind::Interrupted {
                    return Err(WireFault::Write);
                }
            }
        }
    }
    Err(WireFault::Write)
}
