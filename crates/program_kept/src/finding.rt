//! Finds the complete transactions of a text, for any reader and any writer.

ghost use Rattle.std.specs.Prelude.{◌≡◌, IfOk, IfErr, OnOk, true};
ghost use Rattle.wire_buf.specs.Watched.{inner_of, has_failed};
ghost use Rattle.program_kept.specs.Found.{HasKept, IsInputFailure, WritesKept, failure_name};

use crate::writing::put_all;
use feed_resume::Keeper;
use std::alloc::Global;
use std::io::{Read, Write};
use wire_buf::Watched;

/// The position of the first event, after the magic number.
const FIRST_POSITION: u32 = 4;

/// The buffer size for reading, in bytes.
const PIECE_LEN: usize = 65_536;

/// Why nothing was found.
#[derive(Clone, Copy, Debug, PartialEq, Eq)]
pub enum Failure {
    /// The arguments are none that the program takes.
    Usage,
    /// The file can't be opened.
    Open,
    /// Out of memory.
    Memory,
    /// The reader failed.
    Read,
    /// The writer failed.
    Write,
    /// The last line of the complete transactions doesn't have `file` and `position`, or the name has a line feed.
    Line,
}

impl Failure {
    /// The word for standard error.
    pub fn name(&self) -> &'static str
        ensures { result.now ≡ failure_name self.now }
    {
        match self {
            Failure::Usage => "Usage",
            Failure::Open => "Open",
            Failure::Memory => "Memory",
            Failure::Read => "Read",
            Failure::Write => "Write",
            Failure::Line => "Line",
        }
    }
}

/// Reads all of a reader's bytes in pieces.
fn keep_all<R: Read>(alloc: Global, reader: &mut Watched<R>) -> Result<Keeper, Failure>
    ensures ok { IfOk result (HasKept (R.remaining (inner_of reader.old)) (R.remaining (inner_of reader.new))) }
    ensures err { IfErr result (IsInputFailure (has_failed reader.new)) }
{
    let mut keeper = Keeper::new(alloc);
    let mut piece = [0u8; PIECE_LEN];
    loop {
        let len = match reader.pull_uninterrupted(&mut piece) {
            Ok(0) => return Ok(keeper),
            Ok(len) => len,
            Err(_) => return Err(Failure::Read),
        };
        if let Err(_) = keeper.take(&piece[..len]) {
            return Err(Failure::Memory);
        }
    }
}

/// Writes the line for the text that a reader gives: the length in bytes of the complete transactions, a space, and the position
/// after the last of them, or the first event's if there is none.
pub fn write_kept<R: Read, W: Write>(
    alloc: Global,
    reader: &mut Watched<R>,
    writer: &mut Watched<W>,
) -> Result<(), Failure>
    ensures { WritesKept (R.remaining (inner_of reader.old)) (has_failed reader.new) (has_failed writer.new) (W.contents (inner_of writer.old)) (W.contents (inner_of writer.new)) result }
{
    let keeper = match keep_all(alloc, reader) {
        Ok(keeper) => keeper,
        Err(failure) => return Err(failure),
    };
    let (len, position) = keeper.kept();
    let Ok(line) = format!(in alloc; "{len} {}\n", position.unwrap_or(FIRST_POSITION)) else {
        return Err(Failure::Memory);
    };
    if let Err(_) = put_all(writer, line.as_bytes()) {
        return Err(Failure::Write);
    }
    Ok(())
}
