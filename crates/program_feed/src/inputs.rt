//! Readers that are read to their end.

ghost use Rattle.std.specs.Prelude.{IfOk, IfErr};
ghost use Rattle.wire_buf.specs.Watched.{inner_of, has_failed};
ghost use Rattle.program_feed.specs.Inputs.{IsWhole, IsInputFailure};

use events_frames::gather;
use feed_checks::{Verdict, verdict_of};
use std::alloc::Global;
use std::io::Read;
use wire_buf::Watched;

/// Reads all of a reader's bytes.
///
/// - `Read`: reading failed.
/// - `Memory`: out of memory.
pub fn whole<R: Read>(alloc: Global, reader: &mut Watched<R>) -> Result<Vec<u8>, Verdict>
    ensures ok { IfOk result (λ bytes. IsWhole (R.remaining (inner_of reader.old)) bytes.items) }
    ensures err { IfErr result (λ v. IsInputFailure v (has_failed reader.new)) }
{
    let mut bytes = Vec::new(alloc);
    match gather(reader, u64::MAX, &mut bytes) {
        Ok(()) => Ok(bytes),
        Err(fault) => Err(verdict_of(fault)),
    }
}
