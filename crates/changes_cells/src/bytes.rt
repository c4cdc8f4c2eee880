//! Bytes, as their columns show them, if they are few.

ghost use Rattle.std.specs.Prelude.{◌≡◌, ◌≤◌, ◌+◌, ◌++◌, length, take};
ghost use Rattle.std.specs.Fmt.{decimal};
ghost use Rattle.byteorder.specs.Endian.{big_number, little_number};
ghost use Rattle.changes_character_sets.specs.declared.character_set.CharacterSet.TheVariants.{Utf8};
ghost use Rattle.changes_tables.specs.ShownColumns.{column_view};
ghost use Rattle.changes_cells.specs.CellJson.{IsTextJson, IsBytesShown, of_few};
ghost use Rattle.changes_cells.specs.FieldJson.{WritesSuch, MayWriteSuch};

use crate::decoding::{DECODED_LEN_MAX, Decoded, decode_few};
use byteorder::{BigEndian, ByteOrder, LittleEndian};
use changes_character_sets::CharacterSet;
use changes_tables::{Shown, ShownColumn};
use changes_writers::{put_base64_object, put_base64_string, put_string, put_utf8_string};
use feed_writers::put_number;

/// The maximum number of bytes whose text is written with room for short texts.
pub(crate) const FEW_BYTES_MAX: usize = 64;

/// The maximum number of bytes of a number of bits.
pub(crate) const NUMBER_LEN_MAX: usize = 8;

/// Returns the number of at most 8 bytes, the highest first.
pub(crate) fn big_endian(bytes: &[u8]) -> u64
    requires { length bytes.now ≤ 8 }
    ensures { result ≡ big_number (length bytes.now) bytes.now }
{
    if bytes.is_empty() {
        return 0;
    }
    BigEndian::read_uint(bytes, bytes.len())
}

/// Returns the number of at most 8 bytes, the lowest first.
pub(crate) fn little_endian(bytes: &[u8]) -> u64
    requires { length bytes.now ≤ 8 }
    ensures { result ≡ little_number (length bytes.now) bytes.now }
{
    if bytes.is_empty() {
        return 0;
    }
    LittleEndian::read_uint(bytes, bytes.len())
}

/// Writes bytes of UTF-8 as a string, others as an object of Base64.
#[inline(always)]
#[tactic(auto, using(crate::proofs::TextJsonLemmas::utf8_json, crate::proofs::TextJsonLemmas::no_utf8_json))]
fn put_utf8(text: &mut [u8], at: usize, bytes: &[u8]) -> usize
    requires few { length bytes.now ≤ 64 }
    requires room { at + 400 ≤ length text.old }
    ensures { WritesSuch (IsTextJson Utf8 bytes.now) at text.old text.new result }
{
    match put_utf8_string(text, at, bytes) {
        Some(end) => end,
        None => put_base64_object(text, at, bytes),
    }
}

/// Writes text of a character set other than UTF-8 as a string, other bytes as an object of Base64. `None`: the text may be long.
#[tactic(auto, using(crate::proofs::TextJsonLemmas::text_json, crate::proofs::TextJsonLemmas::no_text_json))]
fn put_decoded(text: &mut [u8], at: usize, set: CharacterSet, bytes: &[u8]) -> Option<usize>
    requires few { length bytes.now ≤ 64 }
    requires room { at + 400 ≤ length text.old }
    ensures { MayWriteSuch (IsTextJson set bytes.now) at text.old text.new result }
{
    let mut buffer = [0; DECODED_LEN_MAX];
    match decode_few(set, bytes, &mut buffer) {
        Decoded::Text(len) => Some(put_string(text, at, &buffer[..len])),
        Decoded::NoText => Some(put_base64_object(text, at, bytes)),
        Decoded::LongText => None,
    }
}

/// Writes text of a character set as a string, other bytes as an object of Base64. `None`: the text may be long.
#[inline(always)]
fn put_text_of(text: &mut [u8], at: usize, set: CharacterSet, bytes: &[u8]) -> Option<usize>
    requires few { length bytes.now ≤ 64 }
    requires room { at + 400 ≤ length text.old }
    ensures { MayWriteSuch (IsTextJson set bytes.now) at text.old text.new result }
{
    match set {
        CharacterSet::Utf8 => Some(put_utf8(text, at, bytes)),
        _ => put_decoded(text, at, set, bytes),
    }
}

/// Writes the number of a BIT.
fn put_bits(text: &mut [u8], at: usize, bytes: &[u8]) -> usize
    requires few { length bytes.now ≤ 64 }
    requires room { at + 400 ≤ length text.old }
    ensures most { result ≤ at + 400 }
    ensures text { take result text.new ≡ take at text.old ++ of_few bytes.now (decimal (big_number (length bytes.now) bytes.now)) }
{
    if bytes.len() > NUMBER_LEN_MAX {
        return put_base64_object(text, at, bytes);
    }
    put_number(text, at, big_endian(bytes))
}

/// Writes few bytes. `None`: their text may be long.
#[inline(never)]
#[tactic(auto, unfolding(crate::specs::CellJson::IsBytesShown))]
pub(crate) fn put_few_bytes(
    text: &mut [u8],
    at: usize,
    column: &ShownColumn,
    bytes: &[u8],
) -> Option<usize>
    requires few { length bytes.now ≤ 64 }
    requires room { at + 400 ≤ length text.old }
    ensures { MayWriteSuch (IsBytesShown column.now.shown (column_view column.now).members bytes.now) at text.old text.new result }
{
    match column.shown {
        Shown::Text(set) => put_text_of(text, at, set, bytes),
        Shown::Binary => Some(put_base64_string(text, at, bytes)),
        Shown::Bit => Some(put_bits(text, at, bytes)),
        Shown::Enum | Shown::Set => None,
        _ => Some(put_base64_object(text, at, bytes)),
    }
}
