//! Appending several pieces, all or none.

ghost use Rattle.std.specs.Prelude.{◌≡◌, ◌++◌, OnOk, IfErr};
ghost use Rattle.feed_text.specs.TextPieces.{pieces_text, IsAppendError};

use rows_errors::RowsError;
use std::alloc::Allocator;

/// Appends all of the pieces, or none of them.
pub(crate) fn append_all<A: Allocator>(
    pieces: &[&[u8]],
    out: &mut Vec<u8, A>,
) -> Result<(), RowsError>
    ensures ok { OnOk result (out.new.items ≡ out.old.items ++ pieces_text pieces.now) }
    ensures err { IfErr result (λ e. IsAppendError e out.old.items out.new.items) }
{
    let start = out.len();
    for piece in pieces {
        let Ok(()) = out.extend_from_slice(piece) else {
            out.truncate(start);
            return Err(RowsError::Memory);
        };
    }
    Ok(())
}
