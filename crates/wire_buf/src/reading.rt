//! Reads bytes from a reader.

ghost use Rattle.std.specs.Prelude.{◌≡◌, ◌≤◌, OnOk, IfErr, length};
ghost use Rattle.std.specs.Io.KnownBytes.{Consumes};
ghost use Rattle.wire_buf.specs.Transfers.{Fills, IsEndOrFailure, Gathers, FallsShort, GathersPrefix};

use crate::fault::WireFault;
use std::alloc::Allocator;
use std::io::{ErrorKind, Read};

/// The bytes that are asked of a reader at once by a buffer without spare capacity: 4 KiB.
const READ_SIZE: usize = 0x1000;

/// The limit of reads in one call: a device that is interrupted 2^63 - 1 times has failed.
pub const MAX_READS: u64 = 0x7fff_ffff_ffff_ffff;

/// Fills the buffer with the reader's next bytes. An interrupted read is tried again.
///
/// - `Eof`: the input ended before the buffer was full; all of its bytes are taken.
/// - `Read`: the reader failed, or was interrupted 2^63 - 1 times; some bytes may be taken.
pub fn read_exact<R: Read>(reader: &mut R, buf: &mut [u8]) -> Result<(), WireFault>
    ensures ok { OnOk result (Consumes (R.remaining reader.old) (R.remaining reader.new) buf.new) }
    ensures err { IfErr result
        (λ e. FallsShort e (length buf.old) (R.remaining reader.old) (R.remaining reader.new)) }
{
    fill(reader, buf, 0).1
}

/// Appends the reader's next `n` bytes to `out`. `out` grows with the bytes that arrive, never by `n` alone:
/// its spare capacity is filled first, then it grows by 4 KiB or, as a `Vec` grows, to twice its capacity.
///
/// The errors are those of [`read_exact`], and `Memory` if `out` can't grow. The bytes that were taken are
/// appended, even if fewer than `n` arrived.
pub fn read_more<R: Read, A: Allocator>(
    reader: &mut R,
    n: u64,
    out: &mut Vec<u8, A>,
) -> Result<(), WireFault>
    ensures ok { OnOk result (Gathers n (R.remaining reader.old) (R.remaining reader.new)
        out.old.items out.new.items) }
    ensures err { IfErr result
        (λ e. GathersPrefix e n (R.remaining reader.old) (R.remaining reader.new)
        out.old.items out.new.items) }
{
    let mut left = n;
    while left > 0 {
        let start = out.len();
        let spare = out.capacity() - start;
        let room = left.min(spare.max(READ_SIZE) as u64);
        let end = start.checked_add(room as usize).ok_or(WireFault::Memory)?;
        out.resize(end, 0)?;
        let (filled, outcome) = fill(reader, out.as_mut_slice(), start);
        if let Err(fault) = outcome {
            out.truncate(filled);
            return Err(fault);
        }
        left -= room;
    }
    Ok(())
}

/// Fills the buffer from offset `at` on with the reader's next bytes. Returns the offset up to which it is
/// filled.
fn fill<R: Read>(reader: &mut R, buf: &mut [u8], at: usize) -> (usize, Result<(), WireFault>)
    requires { at ≤ length buf.old }
    ensures bytes { Fills at result.0 (R.remaining reader.old) (R.remaining reader.new) buf.old buf.new }
    ensures ok { OnOk result.1 (result.0 ≡ length buf.new) }
    ensures err { IfErr result.1 (λ e. IsEndOrFailure e result.0 (length buf.new) (R.remaining reader.new)) }
{
    let mut filled = at;
    'reads: for _read in 0..MAX_READS {
        if filled == buf.len() {
            return (filled, Ok(()));
        }
        match reader.read(&mut buf[filled..]) {
            Ok(0) => return (filled, Err(WireFault::Eof)),
            Ok(n) => filled += n,
            Err(error) => {
                if error.kind() != ErrorKind::Interrupted {
                    return (filled, Err(WireFault::Read));
                }
            }
        }
    }
    (filled, Err(WireFault::Read))
}
