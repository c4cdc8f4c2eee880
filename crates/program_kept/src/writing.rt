//! Writes bytes, and remembers whether the writer failed.

ghost use Rattle.std.specs.Prelude.{◌≡◌, true, OnOk, IfErr};
ghost use Rattle.std.specs.Io.KnownBytes.{Appends};
ghost use Rattle.wire_buf.specs.Transfers.{WritesPrefix};
ghost use Rattle.wire_buf.specs.Watched.{inner_of, has_failed};

use crate::finding::Failure;
use std::io::Write;
use wire_buf::Watched;

/// Writes all of the bytes. `Write`: the writer failed after a prefix of them.
pub(crate) fn put_all<W: Write>(writer: &mut Watched<W>, bytes: &[u8]) -> Result<(), Failure>
    ensures ok { OnOk result (Appends (W.contents (inner_of writer.old)) (W.contents (inner_of writer.new)) bytes.now) }
    ensures err { IfErr result (λ e. (e ≡ Failure.Write) × WritesPrefix bytes.now (W.contents (inner_of writer.old)) (W.contents (inner_of writer.new)) × (has_failed writer.new ≡ true)) }
{
    let mut rest = bytes;
    while !rest.is_empty() {
        match writer.push_uninterrupted(rest) {
            Ok(taken) => {
                let (_, after) = rest.split_at(taken);
                rest = after;
            }
            Err(_) => return Err(Failure::Write),
        }
    }
    Ok(())
}
