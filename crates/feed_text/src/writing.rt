//! Texts that other crates write into a buffer with room.

ghost use Rattle.std.specs.Prelude.{◌≡◌, ◌≤◌, ◌+◌, ◌++◌, ℕ, List, IfSome, OnOk, OnErr, length, take};
ghost use Rattle.feed_text.specs.DocumentForms.{AppendsOne};

use crate::buffer::TextBuffer;
use std::alloc::{AllocError, Allocator};

/// A text that is written at an offset of a buffer.
pub trait Writing {
    ghost content: { Self → List ℕ };

    ghost most: { Self → ℕ };

    /// Returns how many bytes the text takes at most; `None` if there can't be as many.
    fn room(&self) -> Option<usize>
        ensures { IfSome result (λ room. room ≡ most self.now) };

    /// Writes the text, and returns the offset of its end.
    fn put(&self, text: &mut [u8], at: usize) -> usize
        requires { at + most self.now ≤ length text.old }
        ensures most { result ≤ at + most self.now }
        ensures text { take result text.new ≡ take at text.old ++ content self.now };
}

/// A text that is written at an offset of a buffer as far as there is room for it, and what is left to write.
pub trait WritingInRoom {
    type Left;

    ghost Wrote: { Self → List ℕ → Self.Left → Type 0 };

    /// Writes as much as there is room for, and returns the offset of its end, and what is left.
    fn put(self, text: &mut [u8], at: usize) -> (usize, Self::Left)
        requires { at ≤ length text.old }
        ensures within { result.0 ≤ length text.new }
        ensures text { AppendsOne (λ x. Wrote self x result.1) (take at text.old) (take result.0 text.new) };
}

impl<A: Allocator> TextBuffer<A> {
    ghost use Rattle.feed_text.specs.Buffers.{text_in};

    /// Appends as much of a text as there is room for, after it asked for this room, and returns what is left. It may write without the
    /// room, if there is no memory for it.
    #[inline(always)]
    pub fn put_in_room<W: WritingInRoom>(&mut self, room: usize, writing: W) -> W::Left
        ensures { AppendsOne (λ x. W.Wrote writing x result) (text_in self.old) (text_in self.new) }
    {
        let _asked = self.reserve(room);
        let (end, left) = writing.put(self.bytes.as_mut_slice(), self.len);
        self.len = end;
        left
    }

    /// Appends a text, for which it reserves room once. Out of memory: the text in the buffer is unchanged.
    #[inline(always)]
    pub fn put_writing<W: Writing>(&mut self, writing: &W) -> Result<(), AllocError>
        ensures ok { OnOk result (text_in self.new ≡ text_in self.old ++ W.content writing.now) }
        ensures err { OnErr result (text_in self.new ≡ text_in self.old) }
    {
        let Some(room) = writing.room() else {
            return Err(AllocError);
        };
        self.reserve(room)?;
        self.len = writing.put(self.bytes.as_mut_slice(), self.len);
        Ok(())
    }
}
