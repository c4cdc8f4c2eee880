//! Texts in the order in which they were added.

ghost use Rattle.std.specs.Prelude.{◌≡◌, ◌++◌, ◌∷◌, ℕ, List, [], OnOk, length, true, false};
ghost use Rattle.feed_checks.specs.LogFormat.{joined};

use feed_text::TextBuffer;
use std::alloc::{AllocError, Global};

/// Texts, one after the other in one buffer. The last may be open: it isn't one of them yet.
#[derive(Drop)]
pub struct TextList {
    /// The texts; what is appended to it belongs to the open text.
    pub buffer: TextBuffer<Global>,
    /// The offset of the end of each text.
    ends: Vec<usize>,
}

impl TextList {
    ghost use Rattle.changes_statements.specs.StatementTexts.{AreLeft, HasOpen};

    /// No texts.
    pub fn new(alloc: Global) -> TextList
        ensures { HasOpen result [] [] }
    {
        TextList {
            buffer: TextBuffer::new(alloc),
            ends: Vec::new(alloc),
        }
    }

    /// The number of texts; an open one isn't among them.
    pub fn len(&self) -> usize
        ensures { (texts : List (List ℕ)) (last : List ℕ) → HasOpen self.now texts last → result ≡ length texts }
    {
        self.ends.len()
    }

    /// Whether there are no texts.
    pub fn is_empty(&self) -> bool
        ensures none { (last : List ℕ) → HasOpen self.now [] last → result ≡ true }
        ensures some { (text : List ℕ) (more : List (List ℕ)) (last : List ℕ) → HasOpen self.now (text ∷ more) last → result ≡ false }
    {
        self.ends.is_empty()
    }

    /// Drops all texts, and keeps the memory.
    pub fn clear(&mut self)
        ensures { HasOpen self.new [] [] }
    {
        self.buffer.clear();
        self.ends.clear();
    }

    /// Ends the open text.
    ///
    /// - `AllocError`: out of memory; the text is still open.
    pub fn close(&mut self) -> Result<(), AllocError>
        ensures { OnOk result ((texts : List (List ℕ)) (last : List ℕ) → HasOpen self.old texts last → HasOpen self.new (texts ++ last ∷ []) []) }
    {
        self.ends.push(self.buffer.len())?;
        Ok(())
    }

    /// The offset of the open text.
    fn open_start(&self) -> usize
        ensures { (texts : List (List ℕ)) (last : List ℕ) → HasOpen self.now texts last → result ≡ length (joined texts) }
    {
        let count = self.ends.len();
        if count == 0 {
            return 0;
        }
        self.ends[count - 1]
    }

    /// Drops the open text.
    pub fn drop_open(&mut self)
        ensures { (texts : List (List ℕ)) (last : List ℕ) → HasOpen self.old texts last → HasOpen self.new texts [] }
    {
        let start = self.open_start();
        self.buffer.truncate(start);
    }

    /// The bytes of all texts, one after the other, and those of the open one.
    pub fn bytes(&self) -> &[u8]
        ensures { (texts : List (List ℕ)) (last : List ℕ) → HasOpen self.now texts last → result.now ≡ joined texts ++ last }
    {
        self.buffer.as_slice()
    }

    /// The texts; an open one isn't among them.
    pub fn texts(&self) -> Texts<'_>
        ensures { (texts : List (List ℕ)) → HasOpen self.now texts [] → AreLeft result texts }
    {
        Texts {
            bytes: self.buffer.as_slice(),
            ends: &self.ends,
            start: 0,
        }
    }
}

/// The remaining texts of a list.
#[derive(Clone, Copy)]
pub struct Texts<'t> {
    bytes: &'t [u8],
    ends: &'t [usize],
    /// The offset in the list at which the first of them begins.
    start: usize,
}

impl<'t> Texts<'t> {
    ghost use Rattle.changes_statements.specs.StatementTexts.{AreLeft};

    /// Takes the first text; empty if there is none.
    pub fn take(&mut self) -> &'t [u8]
        ensures { (text : List ℕ) (more : List (List ℕ)) → AreLeft self.old (text ∷ more) → (result.now ≡ text) × AreLeft self.new more }
    {
        let Some((end, ends)) = self.ends.split_first() else {
            return &[];
        };
        let Some((text, bytes)) = self.bytes.split_at_checked(end.saturating_sub(self.start)) else {
            return &[];
        };
        *self = Texts {
            bytes,
            ends,
            start: *end,
        };
        text
    }
}
