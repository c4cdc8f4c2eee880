//! Texts, of which the newest comes first.

ghost use Rattle.std.specs.Prelude.{◌≡◌, ◌∷◌, ◌++◌, [], List, ℕ, OnOk, false, reverse, true};
ghost use Rattle.wire_buf.specs.Watched.{inner_of};
ghost use Rattle.feed_checks.specs.LogFormat.{joined};
ghost use Rattle.feed_transactions.specs.Waiting.{bytes_of, WritesSome};

use crate::text_list::TextList;
use feed_checks::Verdict;
use feed_transactions::WaitingBytes;
use std::alloc::{AllocError, Global};
use std::io::Write;
use wire_buf::Watched;

/// Texts, one after the other in one buffer.
#[derive(Drop)]
pub struct NewestFirst {
    bytes: Vec<u8>,
    /// The offset at which each text begins.
    starts: Vec<usize>,
}

impl NewestFirst {
    ghost use Rattle.changes_statements.specs.NewestTexts.{HasTexts, WritesNewest};
    ghost use Rattle.changes_statements.specs.StatementTexts.{HasOpen};

    /// No texts.
    pub fn new(alloc: Global) -> NewestFirst
        ensures { HasTexts result [] }
    {
        NewestFirst {
            bytes: Vec::new(alloc),
            starts: Vec::new(alloc),
        }
    }

    /// Whether there are no texts.
    pub fn is_empty(&self) -> bool
        ensures none { HasTexts self.now [] → result ≡ true }
        ensures some { (text : List ℕ) (more : List (List ℕ)) → HasTexts self.now (text ∷ more) → result ≡ false }
    {
        self.starts.is_empty()
    }

    /// Adds a text.
    ///
    /// - `AllocError`: out of memory; what it has isn't complete then.
    pub fn add(&mut self, text: &[u8]) -> Result<(), AllocError>
        ensures { OnOk result ((texts : List (List ℕ)) → HasTexts self.old texts → HasTexts self.new (text.now ∷ texts)) }
    {
        let start = self.bytes.len();
        self.bytes.extend_from_slice(text)?;
        self.starts.push(start)?;
        Ok(())
    }

    /// Adds the texts of a list, in their order.
    ///
    /// - `AllocError`: out of memory; what it has isn't complete then.
    pub fn add_all(&mut self, list: &TextList) -> Result<(), AllocError>
        ensures { OnOk result ((older texts : List (List ℕ)) → HasTexts self.old older → HasOpen list.now texts [] → HasTexts self.new (reverse texts ++ older)) }
    {
        let mut left = list.texts();
        for _ in 0..list.len() {
            self.add(left.take())?;
        }
        Ok(())
    }

    /// Writes the newest text, if there is one, and drops it.
    fn write_newest<W: Write>(
        &mut self,
        waiting: &mut WaitingBytes,
        writer: &mut Watched<W>,
    ) -> Result<(), Verdict>
        ensures { OnOk result (WritesNewest self.old self.new (W.contents (inner_of writer.old)) (W.contents (inner_of writer.new)) (bytes_of waiting.old) (bytes_of waiting.new)) }
    {
        let Some(start) = self.starts.pop() else {
            return Err(Verdict::Memory);
        };
        let Some(text) = self.bytes.as_slice().get(start..) else {
            return Err(Verdict::Memory);
        };
        waiting.put(text, writer)?;
        self.bytes.truncate(start);
        Ok(())
    }

    /// Writes all texts after the bytes that wait, the newest first, and drops them.
    ///
    /// - `Write`: the writer failed.
    pub fn write_all<W: Write>(
        &mut self,
        waiting: &mut WaitingBytes,
        writer: &mut Watched<W>,
    ) -> Result<(), Verdict>
        ensures { OnOk result ((texts : List (List ℕ)) → HasTexts self.old texts → WritesSome (W.contents (inner_of writer.old)) (W.contents (inner_of writer.new)) (bytes_of waiting.old) (joined texts) (bytes_of waiting.new)) }
    {
        let count = self.starts.len();
        for _ in 0..count {
            self.write_newest(waiting, writer)?;
        }
        Ok(())
    }
}
