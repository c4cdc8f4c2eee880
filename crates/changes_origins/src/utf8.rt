//! Text of UTF-8.

ghost use Rattle.std.specs.Prelude.{◌≡◌, ◌+◌, ◌*◌, ◌++◌, OnOk, OnErr, length};
ghost use Rattle.feed_text.specs.Buffers.{text_in};
ghost use Rattle.changes_writers.specs.Base64Texts.{base64_len, base64_object};
ghost use Rattle.changes_tables.specs.MemberTexts.{utf8_json};

use changes_writers::{base64_len, put_base64_object, put_utf8_string};
use feed_text::{TextBuffer, Writing};
use std::alloc::{AllocError, Allocator};

/// The maximum length of a byte within a string.
const ESCAPE_LEN: usize = 6;

/// The length of an object of bytes besides their Base64.
const OBJECT_LEN: usize = 13;

/// Bytes that should be UTF-8.
#[derive(Clone, Copy)]
struct Utf8Writing<'a>(&'a [u8]);

impl Writing for Utf8Writing<'_> {
    ghost content = { λ w. utf8_json w.0.now };

    ghost most = { λ w. 6 * length w.0.now + 13 };

    fn room(&self) -> Option<usize> {
        let content = self.0.len().checked_mul(ESCAPE_LEN)?;
        content.checked_add(OBJECT_LEN)
    }

    fn put(&self, text: &mut [u8], at: usize) -> usize {
        match put_utf8_string(text, at, self.0) {
            Some(end) => end,
            None => put_base64_object(text, at, self.0),
        }
    }
}

/// Bytes as an object with their Base64.
#[derive(Clone, Copy)]
struct Base64Object<'a>(&'a [u8]);

impl Writing for Base64Object<'_> {
    ghost content = { λ w. base64_object w.0.now };

    ghost most = { λ w. base64_len (length w.0.now) + 13 };

    fn room(&self) -> Option<usize> {
        base64_len(self.0).checked_add(OBJECT_LEN)
    }

    fn put(&self, text: &mut [u8], at: usize) -> usize {
        put_base64_object(text, at, self.0)
    }
}

/// Appends bytes as an object with their Base64. Out of memory: the text is unchanged.
pub(crate) fn put_base64<A: Allocator>(
    bytes: &[u8],
    text: &mut TextBuffer<A>,
) -> Result<(), AllocError>
    ensures ok { OnOk result (text_in text.new ≡ text_in text.old ++ base64_object bytes.now) }
    ensures err { OnErr result (text_in text.new ≡ text_in text.old) }
{
    text.put_writing(&Base64Object(bytes))
}

/// Appends bytes as a string, or as an object with their Base64 if they aren't UTF-8. Out of memory: the text is unchanged.
pub fn put_utf8<A: Allocator>(bytes: &[u8], text: &mut TextBuffer<A>) -> Result<(), AllocError>
    ensures ok { OnOk result (text_in text.new ≡ text_in text.old ++ utf8_json bytes.now) }
    ensures err { OnErr result (text_in text.new ≡ text_in text.old) }
{
    text.put_writing(&Utf8Writing(bytes))
}
