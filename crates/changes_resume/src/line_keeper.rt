//! JSON lines that arrive in pieces.

ghost use Rattle.std.specs.Prelude.{◌≡◌};
ghost use Rattle.changes_resume.specs.KeptJson.{is_last_line};

use memchr::memchr;
use std::alloc::{AllocError, Global};
use std::mem;

/// Whether a line is the last of its transaction, or a transaction by itself.
fn is_last_line(line: &[u8]) -> bool
    ensures { result ≡ is_last_line line.now }
{
    line.ends_with(b",\"commit\":true}\n") || line.ends_with(b"]}\n")
}

/// Takes lines in pieces, and keeps the length up to the last that ends a transaction, and this line. It buffers only this line and
/// the line that hasn't ended yet.
#[derive(Drop)]
pub(crate) struct LineKeeper {
    /// The length of the lines that have ended, in bytes.
    complete_len: u64,
    /// The length up to the last of them that ends a transaction.
    len: u64,
    /// This line; empty if there is none.
    last: Vec<u8>,
    /// The line that hasn't ended yet.
    line: Vec<u8>,
}

impl LineKeeper {
    ghost use Rattle.std.specs.Prelude.{◌≡◌, ℕ, ◌<◌, ◌^◌, List, [], ◌++◌, length, OnOk};
    ghost use Rattle.changes_resume.specs.KeptJson.{kept_len, kept_lines, first_line};
    ghost use Rattle.changes_resume.specs.LineKeepers.{EndsLine, RepresentsLines};

    /// The state before the first piece.
    pub(crate) fn new(alloc: Global) -> Self
        ensures { RepresentsLines result [] }
    {
        LineKeeper {
            complete_len: 0,
            len: 0,
            last: Vec::new(alloc),
            line: Vec::new(alloc),
        }
    }

    /// Takes the end of a line. `AllocError`: out of memory.
    fn end_line(&mut self, end: &[u8]) -> Result<(), AllocError>
        requires { EndsLine end.now }
        ensures { OnOk result ((text : List ℕ) → RepresentsLines self.old text → length (text ++ end.now) < 2 ^ 64
            → RepresentsLines self.new (text ++ end.now)) }
    {
        self.line.extend_from_slice(end)?;
        self.complete_len = self.complete_len.wrapping_add(self.line.len() as u64);
        if is_last_line(&self.line) {
            self.len = self.complete_len;
            mem::swap(&mut self.last, &mut self.line);
        }
        self.line.clear();
        Ok(())
    }

    /// Takes the next piece. `AllocError`: out of memory. The pieces must have fewer than 2^64 bytes in all.
    pub(crate) fn take(&mut self, piece: &[u8]) -> Result<(), AllocError>
        ensures { OnOk result ((text : List ℕ) → RepresentsLines self.old text → length (text ++ piece.now) < 2 ^ 64
            → RepresentsLines self.new (text ++ piece.now)) }
    {
        let mut rest = piece;
        while let Some(feed) = memchr(b'\n', rest) {
            let (end, after) = rest.split_at(feed + 1);
            self.end_line(end)?;
            rest = after;
        }
        self.line.extend_from_slice(rest)?;
        Ok(())
    }

    /// The length up to the last line that ends a transaction.
    pub(crate) fn len(&self) -> u64
        ensures { (text : List ℕ) → RepresentsLines self.now text → result ≡ kept_len text }
    {
        self.len
    }

    /// This line; empty if there is none.
    pub(crate) fn last(&self) -> &[u8]
        ensures { (text : List ℕ) → RepresentsLines self.now text → result.now ≡ first_line (kept_lines text) }
    {
        &self.last
    }
}
