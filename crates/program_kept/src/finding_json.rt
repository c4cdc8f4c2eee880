//! Finds the complete transactions of JSON lines, for any reader and any writer.

ghost use Rattle.std.specs.Prelude.{◌≡◌, false, IfOk};
ghost use Rattle.wire_buf.specs.Watched.{inner_of, has_failed};
ghost use Rattle.program_kept.specs.WrittenJson.{WritesKeptJson, point_line, has_line_feed};

use crate::finding::Failure;
use crate::writing::put_all;
use changes_resume::{KeptJson, KeptJsonError, kept_json};
use std::alloc::{AllocError, Global};
use std::io::{Read, Write};
use wire_buf::Watched;

/// Makes the line for complete transactions: their length in bytes, a space, the position after the last of them, a space and the name
/// of its log; or the first event's position and no name, if there are none. `AllocError`: out of memory.
fn point_line(alloc: Global, kept: &KeptJson) -> Result<Vec<u8>, AllocError>
    ensures { IfOk result (λ line. line.items ≡ point_line kept.now.len kept.now.resume_point) }
{
    let Some(point) = &kept.resume_point else {
        return Ok(format!(in alloc; "{} 4\n", kept.len)?.into_bytes());
    };
    let mut line = format!(in alloc; "{} {} ", kept.len, point.position)?.into_bytes();
    line.extend_from_slice(&point.file)?;
    line.push(b'\n')?;
    Ok(line)
}

/// Whether the name of a log has a line feed.
fn has_line_feed(kept: &KeptJson) -> bool
    ensures { result ≡ has_line_feed kept.now.resume_point }
{
    match &kept.resume_point {
        Some(point) => point.file.contains(&b'\n'),
        None => false,
    }
}

/// Writes the line for the JSON lines that a reader gives: the length in bytes of the complete transactions, a space, the position
/// after the last of them, a space and the name of its log; or `0 4`, if there is none.
pub fn write_kept_json<R: Read, W: Write>(
    alloc: Global,
    reader: &mut Watched<R>,
    writer: &mut Watched<W>,
) -> Result<(), Failure>
    ensures { WritesKeptJson (R.remaining (inner_of reader.old)) (has_failed reader.new) (has_failed writer.new) (W.contents (inner_of writer.old)) (W.contents (inner_of writer.new)) result }
{
    let kept = match kept_json(alloc, reader) {
        Ok(kept) => kept,
        Err(KeptJsonError::Read) => return Err(Failure::Read),
        Err(KeptJsonError::Memory) => return Err(Failure::Memory),
        Err(KeptJsonError::Line) => return Err(Failure::Line),
    };
    if has_line_feed(&kept) {
        return Err(Failure::Line);
    }
    let Ok(line) = point_line(alloc, &kept) else {
        return Err(Failure::Memory);
    };
    if let Err(_) = put_all(writer, &line) {
        return Err(Failure::Write);
    }
    Ok(())
}
