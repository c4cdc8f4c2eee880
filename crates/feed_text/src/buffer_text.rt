//! Quoted bytes, numbers and hexadecimal digits, in a buffer with room.

ghost use Rattle.std.specs.Prelude.{◌≡◌, ◌++◌, ◌∷◌, OnOk, OnErr};
ghost use Rattle.std.specs.Fmt.{decimal};
ghost use Rattle.hex.specs.Hex.{encode_lower};
ghost use Rattle.feed_writers.specs.Quoting.{quoted};

use crate::buffer::TextBuffer;
use feed_writers::{put_byte, put_number, put_quoted};
use hex::encode_to_slice;
use std::alloc::{AllocError, Allocator};

/// The maximum number of digits of a 64-bit number.
const MAX_DIGITS: usize = 20;

impl<A: Allocator> TextBuffer<A> {
    ghost use Rattle.feed_text.specs.Buffers.{text_in};

    /// Appends quoted bytes, as [`quote`](crate::quoting::quote) does. It reserves three times their length at once. Out of memory: the
    /// text is unchanged.
    pub fn put_quoted(&mut self, bytes: &[u8]) -> Result<(), AllocError>
        ensures ok { OnOk result (text_in self.new ≡ text_in self.old ++ quoted bytes.now) }
        ensures err { OnErr result (text_in self.new ≡ text_in self.old) }
    {
        let Some(escaped) = bytes.len().checked_mul(3) else {
            return Err(AllocError);
        };
        let Some(most) = escaped.checked_add(2) else {
            return Err(AllocError);
        };
        self.reserve(most)?;
        self.len = put_quoted(self.bytes.as_mut_slice(), self.len, bytes);
        Ok(())
    }

    /// Appends two quoted texts with a space between them. It reserves three times their length at once. Out of memory: the text is
    /// unchanged.
    #[inline(always)]
    pub fn put_two_quoted(&mut self, first: &[u8], second: &[u8]) -> Result<(), AllocError>
        ensures ok { OnOk result (text_in self.new ≡ text_in self.old ++ (quoted first.now ++ 32 ∷ quoted second.now)) }
        ensures err { OnErr result (text_in self.new ≡ text_in self.old) }
    {
        let Some(both) = first.len().checked_add(second.len()) else {
            return Err(AllocError);
        };
        let Some(escaped) = both.checked_mul(3) else {
            return Err(AllocError);
        };
        let Some(most) = escaped.checked_add(5) else {
            return Err(AllocError);
        };
        self.reserve(most)?;
        let text = self.bytes.as_mut_slice();
        let middle = put_quoted(text, self.len, first);
        let start = put_byte(text, middle, b' ');
        self.len = put_quoted(text, start, second);
        Ok(())
    }

    /// Appends a number in decimal. Out of memory: the text is unchanged.
    pub fn put_number(&mut self, number: u64) -> Result<(), AllocError>
        ensures ok { OnOk result (text_in self.new ≡ text_in self.old ++ decimal number) }
        ensures err { OnErr result (text_in self.new ≡ text_in self.old) }
    {
        self.reserve(MAX_DIGITS)?;
        self.len = put_number(self.bytes.as_mut_slice(), self.len, number);
        Ok(())
    }

    /// Appends the two lower case hexadecimal digits of each byte. Out of memory: the text is unchanged.
    pub fn put_hexadecimal(&mut self, bytes: &[u8]) -> Result<(), AllocError>
        ensures ok { OnOk result (text_in self.new ≡ text_in self.old ++ encode_lower bytes.now) }
        ensures err { OnErr result (text_in self.new ≡ text_in self.old) }
    {
        let Some(digits) = bytes.len().checked_mul(2) else {
            return Err(AllocError);
        };
        self.reserve(digits)?;
        let end = self.len + digits;
        let Ok(()) = encode_to_slice(bytes, &mut self.bytes[self.len..end]) else {
            unreachable!()
        };
        self.len = end;
        Ok(())
    }
}
