//! Long strings and Base64, which are appended in pieces.

ghost use Rattle.std.specs.Prelude.{◌≡◌, ◌≤◌, ◌++◌, ◌*◌, OnOk, ℕ, List, length, take};
ghost use Rattle.std.specs.List.{flat_map};
ghost use Rattle.base64.specs.Engines.{standard};
ghost use Rattle.base64.specs.GeneralPurpose.{encode_of};
ghost use Rattle.feed_text.specs.Buffers.{text_in};
ghost use Rattle.changes_writers.specs.JsonStrings.{json_byte, json_string};
ghost use Rattle.changes_writers.specs.Base64Texts.{base64_len, base64_object, base64_string};
ghost use Rattle.changes_writers.specs.FloatTexts.{AppendsSuch};
ghost use Rattle.changes_character_sets.specs.declared.character_set.CharacterSet.TheVariants.{Utf8};
ghost use Rattle.changes_cells.specs.CellJson.{IsTextJson};

use changes_character_sets::CharacterSet;
use changes_writers::{base64_len, put_base64, put_string_content};
use feed_text::{TextBuffer, Writing};
use simdutf8::is_utf8_baseline;
use std::alloc::{AllocError, Allocator, Global};

/// The length of a piece in bytes: a multiple of three, so that only the last piece of Base64 has padding.
const PIECE_LEN: usize = 3072;

/// A piece of a string.
#[derive(Clone, Copy)]
struct StringPiece<'a>(&'a [u8]);

impl Writing for StringPiece<'_> {
    ghost content = { λ piece. flat_map json_byte piece.0.now };

    ghost most = { λ piece. 6 * length piece.0.now };

    fn room(&self) -> Option<usize> {
        self.0.len().checked_mul(6)
    }

    fn put(&self, text: &mut [u8], at: usize) -> usize {
        put_string_content(text, at, self.0)
    }
}

/// A piece of bytes in Base64.
#[derive(Clone, Copy)]
struct Base64Piece<'a>(&'a [u8]);

impl Writing for Base64Piece<'_> {
    ghost content = { λ piece. encode_of standard piece.0.now };

    ghost most = { λ piece. base64_len (length piece.0.now) };

    fn room(&self) -> Option<usize> {
        Some(base64_len(self.0))
    }

    fn put(&self, text: &mut [u8], at: usize) -> usize {
        put_base64(text, at, self.0)
    }
}

/// Appends the content of a string. An error may leave a part of it.
fn append_content<A: Allocator>(bytes: &[u8], text: &mut TextBuffer<A>) -> Result<(), AllocError>
    ensures ok { OnOk result (text_in text.new ≡ text_in text.old ++ flat_map json_byte bytes.now) }
    ensures kept { take (length (text_in text.old)) (text_in text.new) ≡ text_in text.old }
{
    let mut rest = bytes;
    while rest.len() > PIECE_LEN {
        let (piece, after) = rest.split_at(PIECE_LEN);
        text.put_writing(&StringPiece(piece))?;
        rest = after;
    }
    text.put_writing(&StringPiece(rest))
}

/// Appends bytes as a string. An error may leave a part of it.
#[inline(never)]
pub(crate) fn append_string<A: Allocator>(
    bytes: &[u8],
    text: &mut TextBuffer<A>,
) -> Result<(), AllocError>
    ensures ok { OnOk result (text_in text.new ≡ text_in text.old ++ json_string bytes.now) }
    ensures kept { take (length (text_in text.old)) (text_in text.new) ≡ text_in text.old }
{
    text.put(b'"')?;
    append_content(bytes, text)?;
    text.put(b'"')
}

/// Appends bytes in Base64. An error may leave a part of it.
fn append_base64<A: Allocator>(bytes: &[u8], text: &mut TextBuffer<A>) -> Result<(), AllocError>
    ensures ok { OnOk result (text_in text.new ≡ text_in text.old ++ encode_of standard bytes.now) }
    ensures kept { take (length (text_in text.old)) (text_in text.new) ≡ text_in text.old }
{
    let mut rest = bytes;
    while rest.len() > PIECE_LEN {
        let (piece, after) = rest.split_at(PIECE_LEN);
        text.put_writing(&Base64Piece(piece))?;
        rest = after;
    }
    text.put_writing(&Base64Piece(rest))
}

/// Appends bytes in Base64 as a string. An error may leave a part of it.
#[inline(never)]
pub(crate) fn append_base64_string<A: Allocator>(
    bytes: &[u8],
    text: &mut TextBuffer<A>,
) -> Result<(), AllocError>
    ensures ok { OnOk result (text_in text.new ≡ text_in text.old ++ base64_string bytes.now) }
    ensures kept { take (length (text_in text.old)) (text_in text.new) ≡ text_in text.old }
{
    text.put(b'"')?;
    append_base64(bytes, text)?;
    text.put(b'"')
}

/// Appends bytes as `{"base64":".."}`. An error may leave a part of it.
#[inline(never)]
pub(crate) fn append_base64_object<A: Allocator>(
    bytes: &[u8],
    text: &mut TextBuffer<A>,
) -> Result<(), AllocError>
    ensures ok { OnOk result (text_in text.new ≡ text_in text.old ++ base64_object bytes.now) }
    ensures kept { take (length (text_in text.old)) (text_in text.new) ≡ text_in text.old }
{
    text.put_text(b"{\"base64\":")?;
    append_base64_string(bytes, text)?;
    text.put(b'}')
}

/// Appends bytes of UTF-8 as a string, others as an object of Base64. An error may leave a part of it.
#[tactic(auto, using(crate::proofs::TextJsonLemmas::utf8_json, crate::proofs::TextJsonLemmas::no_utf8_json))]
fn append_utf8<A: Allocator>(bytes: &[u8], text: &mut TextBuffer<A>) -> Result<(), AllocError>
    ensures ok { OnOk result (AppendsSuch (IsTextJson Utf8 bytes.now) (text_in text.old) (text_in text.new)) }
    ensures kept { take (length (text_in text.old)) (text_in text.new) ≡ text_in text.old }
{
    if is_utf8_baseline(bytes) {
        return append_string(bytes, text);
    }
    append_base64_object(bytes, text)
}

/// Appends text of a character set as a string, other bytes as an object of Base64. An error may leave a part of it.
#[tactic(auto, using(crate::proofs::TextJsonLemmas::text_json, crate::proofs::TextJsonLemmas::no_text_json))]
pub(crate) fn append_text<A: Allocator>(
    alloc: Global,
    set: CharacterSet,
    bytes: &[u8],
    text: &mut TextBuffer<A>,
) -> Result<(), AllocError>
    ensures ok { OnOk result (AppendsSuch (IsTextJson set bytes.now) (text_in text.old) (text_in text.new)) }
    ensures kept { take (length (text_in text.old)) (text_in text.new) ≡ text_in text.old }
{
    if let CharacterSet::Utf8 = set {
        return append_utf8(bytes, text);
    }
    let mut decoded = Vec::new(alloc);
    if set.decode(bytes, &mut decoded)? {
        return append_string(&decoded, text);
    }
    append_base64_object(bytes, text)
}
