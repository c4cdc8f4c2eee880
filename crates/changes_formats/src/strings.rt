//! JSON strings, appended in pieces, and Base64.

ghost use Rattle.std.specs.Prelude.{◌≡◌, ◌+◌, ◌*◌, ◌++◌, OnOk, length};
ghost use Rattle.std.specs.List.{flat_map};
ghost use Rattle.feed_text.specs.Buffers.{text_in};
ghost use Rattle.changes_writers.specs.Base64Texts.{base64_len, base64_string};
ghost use Rattle.changes_writers.specs.JsonStrings.{json_byte, json_string};

use changes_writers::{base64_len, put_string_content};
use feed_text::{TextBuffer, Writing};
use std::alloc::{AllocError, Global};

/// The length of a piece in bytes: room is reserved for six times as many.
const PIECE_LEN: usize = 3072;

/// A piece of a string.
#[derive(Clone, Copy)]
struct StringPiece<'a>(&'a [u8]);

impl Writing for StringPiece<'_> {
    ghost content = { λ piece. flat_map json_byte piece.0.now };

    ghost most = { λ piece. 6 * length piece.0.now };

    fn room(&self) -> Option<usize> {
        self.0.len().checked_mul(6)
    }

    fn put(&self, text: &mut [u8], at: usize) -> usize {
        put_string_content(text, at, self.0)
    }
}

/// Bytes as a string of Base64.
#[derive(Clone, Copy)]
struct Base64String<'a>(&'a [u8]);

impl Writing for Base64String<'_> {
    ghost content = { λ string. base64_string string.0.now };

    ghost most = { λ string. base64_len (length string.0.now) + 2 };

    fn room(&self) -> Option<usize> {
        Some(base64_len(self.0) + 2)
    }

    fn put(&self, text: &mut [u8], at: usize) -> usize {
        changes_writers::put_base64_string(text, at, self.0)
    }
}

/// Appends the content of a string of UTF-8.
pub(crate) fn put_content(bytes: &[u8], out: &mut TextBuffer<Global>) -> Result<(), AllocError>
    ensures { OnOk result (text_in out.new ≡ text_in out.old ++ flat_map json_byte bytes.now) }
{
    let mut rest = bytes;
    while rest.len() > PIECE_LEN {
        let (piece, after) = rest.split_at(PIECE_LEN);
        out.put_writing(&StringPiece(piece))?;
        rest = after;
    }
    out.put_writing(&StringPiece(rest))
}

/// Appends text in UTF-8 as a string.
#[tactic(auto, unfolding(changes_writers::specs::JsonStrings::json_string))]
pub(crate) fn put_string(bytes: &[u8], out: &mut TextBuffer<Global>) -> Result<(), AllocError>
    ensures { OnOk result (text_in out.new ≡ text_in out.old ++ json_string bytes.now) }
{
    out.put(b'"')?;
    put_content(bytes, out)?;
    out.put(b'"')
}

/// Appends bytes in Base64 as a string.
pub(crate) fn put_base64_string(
    bytes: &[u8],
    out: &mut TextBuffer<Global>,
) -> Result<(), AllocError>
    ensures { OnOk result (text_in out.new ≡ text_in out.old ++ base64_string bytes.now) }
{
    out.put_writing(&Base64String(bytes))
}
