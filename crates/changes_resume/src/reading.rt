//! The complete transactions of the JSON lines that a reader gives.

ghost use Rattle.std.specs.Prelude.{◌≡◌, true, IfOk, IfErr};
ghost use Rattle.wire_buf.specs.Watched.{inner_of, has_failed};
ghost use Rattle.changes_resume.specs.FoundJson.{IsKeptJson, ReadsAll, IsKeptJsonError, IsInputError};
ghost use Rattle.changes_resume.specs.LineKeepers.{RepresentsLines};

use crate::line_keeper::LineKeeper;
use crate::resume_point::{ResumePoint, resume_point};
use std::alloc::Global;
use std::io::Read;
use wire_buf::Watched;

/// The buffer size for reading, in bytes.
const PIECE_LEN: usize = 65_536;

/// The complete transactions of truncated JSON lines.
#[derive(Drop)]
pub struct KeptJson {
    /// Their length in bytes.
    pub len: u64,
    /// Where to resume after them; none if there are none.
    pub resume_point: Option<ResumePoint>,
}

/// Why nothing was found.
#[derive(Clone, Copy, Debug, PartialEq, Eq)]
pub enum KeptJsonError {
    /// The reader failed.
    Read,
    /// Out of memory.
    Memory,
    /// The last line of the complete transactions doesn't have `file` and `position`.
    Line,
}

/// Reads all of a reader's bytes in pieces.
fn keep_all<R: Read>(alloc: Global, reader: &mut Watched<R>) -> Result<LineKeeper, KeptJsonError>
    ensures ok { IfOk result (λ k. ReadsAll (R.remaining (inner_of reader.old)) (R.remaining (inner_of reader.new)) (RepresentsLines k)) }
    ensures err { IfErr result (IsInputError (has_failed reader.new)) }
{
    let mut keeper = LineKeeper::new(alloc);
    let mut piece = [0u8; PIECE_LEN];
    loop {
        let len = match reader.pull_uninterrupted(&mut piece) {
            Ok(0) => return Ok(keeper),
            Ok(len) => len,
            Err(_) => return Err(KeptJsonError::Read),
        };
        if let Err(_) = keeper.take(&piece[..len]) {
            return Err(KeptJsonError::Memory);
        }
    }
}

/// Finds the complete transactions of JSON lines of `binlog-changes json`, which may be truncated anywhere.
///
/// Returns the length in bytes up to the last complete line that ends a transaction: that ends with `,"commit":true}`, or with `]}` as
/// the lines of `--transactions`; and the members `file` and `position` of this line. Without such a line the length is 0.
///
/// It reads to the end, and buffers the longest line.
///
/// - `Read`: the reader failed.
/// - `Memory`: out of memory.
/// - `Line`: this line doesn't have the two members one after the other, so it isn't a line of `binlog-changes`.
pub fn kept_json<R: Read>(alloc: Global, reader: &mut Watched<R>) -> Result<KeptJson, KeptJsonError>
    ensures ok { IfOk result (λ k. ReadsAll (R.remaining (inner_of reader.old)) (R.remaining (inner_of reader.new)) (λ text. IsKeptJson text k)) }
    ensures err { IfErr result (IsKeptJsonError (R.remaining (inner_of reader.old)) (R.remaining (inner_of reader.new)) (has_failed reader.new)) }
{
    let keeper = match keep_all(alloc, reader) {
        Ok(keeper) => keeper,
        Err(error) => return Err(error),
    };
    let line = keeper.last();
    if line.is_empty() {
        return Ok(KeptJson {
            len: keeper.len(),
            resume_point: None,
        });
    }
    match resume_point(alloc, line) {
        Ok(Some(point)) => Ok(KeptJson {
            len: keeper.len(),
            resume_point: Some(point),
        }),
        Ok(None) => Err(KeptJsonError::Line),
        Err(_) => Err(KeptJsonError::Memory),
    }
}
