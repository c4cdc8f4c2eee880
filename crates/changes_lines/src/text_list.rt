//! Texts in one buffer.

ghost use Rattle.std.specs.Prelude.{◌≡◌, ◌++◌, ◌∷◌, ℕ, List, [], true, false, OnOk, length};

use feed_text::TextBuffer;
use std::alloc::{AllocError, Global};

/// Texts, one after the other. The last may be open: it isn't one of them yet.
#[derive(Drop)]
pub(crate) struct TextList {
    /// The texts; what is appended to it belongs to the open text.
    pub(crate) buffer: TextBuffer<Global>,
    /// Where each text ends.
    ends: Vec<usize>,
}

impl TextList {
    ghost use Rattle.changes_lines.specs.TextLists.{HasTexts, AreLeft};

    /// No texts.
    pub(crate) fn new(alloc: Global) -> TextList
        ensures { HasTexts result [] [] }
    {
        TextList {
            buffer: TextBuffer::new(alloc),
            ends: Vec::new(alloc),
        }
    }

    /// Drops the texts, and keeps the memory.
    pub(crate) fn clear(&mut self)
        ensures { HasTexts self.new [] [] }
    {
        self.buffer.clear();
        self.ends.clear();
    }

    /// How many texts there are.
    #[inline(always)]
    pub(crate) fn len(&self) -> usize
        ensures { (texts : List (List ℕ)) (last : List ℕ) → HasTexts self.now texts last → result ≡ length texts }
    {
        self.ends.len()
    }

    /// Ends the open text.
    #[inline(always)]
    pub(crate) fn close(&mut self) -> Result<(), AllocError>
        ensures { OnOk result ((texts : List (List ℕ)) (last : List ℕ) → HasTexts self.old texts last → HasTexts self.new (texts ++ last ∷ []) []) }
    {
        self.ends.push(self.buffer.len())?;
        Ok(())
    }

    /// The texts; an open one isn't among them.
    pub(crate) fn texts(&self) -> Texts<'_>
        ensures { (texts : List (List ℕ)) → HasTexts self.now texts [] → AreLeft result texts }
    {
        Texts {
            bytes: self.buffer.as_slice(),
            ends: &self.ends,
            start: 0,
        }
    }
}

/// The texts of a list that are left.
#[derive(Clone, Copy)]
pub(crate) struct Texts<'t> {
    bytes: &'t [u8],
    ends: &'t [usize],
    /// Where the first of them begins in the list.
    start: usize,
}

impl<'t> Texts<'t> {
    ghost use Rattle.changes_lines.specs.TextLists.{AreLeft};

    /// Takes the first text; there is one.
    #[inline(always)]
    pub(crate) fn take(&mut self) -> &'t [u8]
        ensures { (text : List ℕ) (more : List (List ℕ)) → AreLeft self.old (text ∷ more) → (result.now ≡ text) × AreLeft self.new more }
    {
        let Some((end, ends)) = self.ends.split_first() else {
            return &[];
        };
        let Some((text, bytes)) = self.bytes.split_at_checked(end.saturating_sub(self.start)) else {
            return &[];
        };
        *self = Texts {
            bytes,
            ends,
            start: *end,
        };
        text
    }

    /// Takes the first two texts; there are two, one after the other.
    #[inline(always)]
    pub(crate) fn take_two(&mut self) -> &'t [u8]
        ensures { (first second : List ℕ) (more : List (List ℕ)) → AreLeft self.old (first ∷ second ∷ more) → (result.now ≡ first ++ second) × AreLeft self.new more }
    {
        let Some((_, ends)) = self.ends.split_first() else {
            return &[];
        };
        *self = Texts { ends, ..*self };
        self.take()
    }

    /// Whether there are none.
    #[inline(always)]
    pub(crate) fn is_empty(self) -> bool
        ensures none { AreLeft self.entry [] → result ≡ true }
        ensures some { (text : List ℕ) (more : List (List ℕ)) → AreLeft self.entry (text ∷ more) → result ≡ false }
    {
        self.ends.is_empty()
    }
}
