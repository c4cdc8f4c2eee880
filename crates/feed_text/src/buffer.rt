//! A text that grows at its end, in a buffer with room after it: a cell's text is written at known offsets, and room is reserved
//! once.

ghost use Rattle.std.specs.Prelude.{◌≤◌, length};

use feed_writers::{put_byte, put_bytes};
use std::alloc::{AllocError, Allocator};

/// The minimum room that is reserved, in bytes.
const LEAST_ROOM: usize = 4096;

/// A text, and room after it.
#[derive(Drop)]
pub struct TextBuffer<A: Allocator> {
    pub(crate) bytes: Vec<u8, A>,
    pub(crate) len: usize,
    ghost within: { len ≤ length bytes.items },
}

impl<A: Allocator> TextBuffer<A> {
    ghost use Rattle.std.specs.Prelude.{◌≡◌, ◌≤◌, ◌+◌, ◌++◌, ◌∷◌, [], OnOk, OnErr, length, take};
    ghost use Rattle.feed_text.specs.Buffers.{text_in};

    /// An empty text.
    pub fn new(alloc: A) -> TextBuffer<A>
        ensures { text_in result ≡ [] }
    {
        TextBuffer {
            bytes: Vec::new(alloc),
            len: 0,
        }
    }

    /// The text.
    pub fn as_slice(&self) -> &[u8]
        ensures { result.now ≡ text_in self.now }
    {
        &self.bytes[..self.len]
    }

    /// The length of the text in bytes.
    pub fn len(&self) -> usize
        ensures { result ≡ length (text_in self.now) }
    {
        self.len
    }

    /// Empties the text, and keeps the memory.
    pub fn clear(&mut self)
        ensures { text_in self.new ≡ [] }
    {
        self.len = 0;
    }

    /// Shortens the text to its first `len` bytes, if it is longer.
    pub fn truncate(&mut self, len: usize)
        ensures { text_in self.new ≡ take len (text_in self.old) }
    {
        if len < self.len {
            self.len = len;
        }
    }

    /// Appends bytes. Out of memory: the text is unchanged.
    #[inline(always)]
    pub fn put_text(&mut self, more: &[u8]) -> Result<(), AllocError>
        ensures ok { OnOk result (text_in self.new ≡ text_in self.old ++ more.now) }
        ensures err { OnErr result (text_in self.new ≡ text_in self.old) }
    {
        self.reserve(more.len())?;
        self.len = put_bytes(self.bytes.as_mut_slice(), self.len, more);
        Ok(())
    }

    /// Appends a byte. Out of memory: the text is unchanged.
    #[inline(always)]
    pub fn put(&mut self, byte: u8) -> Result<(), AllocError>
        ensures ok { OnOk result (text_in self.new ≡ text_in self.old ++ byte ∷ []) }
        ensures err { OnErr result (text_in self.new ≡ text_in self.old) }
    {
        self.reserve(1)?;
        self.len = put_byte(self.bytes.as_mut_slice(), self.len, byte);
        Ok(())
    }

    /// Makes sure that there are `room` bytes after the text.
    #[inline(always)]
    pub(crate) fn reserve(&mut self, room: usize) -> Result<(), AllocError>
        ensures room { OnOk result (self.new.len + room ≤ length self.new.bytes.items) }
        ensures text { text_in self.new ≡ text_in self.old }
    {
        if self.bytes.len() - self.len >= room {
            return Ok(());
        }
        self.grow(room)
    }

    /// Lengthens the buffer so that it has this room.
    #[cold]
    #[inline(never)]
    fn grow(&mut self, room: usize) -> Result<(), AllocError>
        ensures room { OnOk result (self.new.len + room ≤ length self.new.bytes.items) }
        ensures text { text_in self.new ≡ text_in self.old }
    {
        let Some(wanted) = self.len.checked_add(room.max(LEAST_ROOM)) else {
            return Err(AllocError);
        };
        self.bytes.resize(wanted, 0)
    }
}
