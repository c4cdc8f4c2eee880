//! Strings of JSON lines, read back.

ghost use Rattle.std.specs.Prelude.{◌≡◌, ◌≢◌, ◌<◌, ℕ, false, List, [], ◌∷◌, ◌++◌, length, IfSome, IfNone, IfOk, MatchOption};
ghost use Rattle.std.specs.List.{flat_map};
ghost use Rattle.std.specs.Fmt.{digit_glyph};
ghost use Rattle.changes_writers.specs.JsonStrings.{json_byte};

use std::alloc::{AllocError, Global};

/// The value of a hexadecimal digit in lower case.
fn hex_digit(digit: u8) -> Option<u8>
    ensures some { IfSome result (λ d. (d < 16) × (digit ≡ digit_glyph false d)) }
    ensures none { IfNone result ((d : ℕ) → d < 16 → digit ≢ digit_glyph false d) }
{
    match digit {
        b'0'..=b'9' => Some(digit - b'0'),
        b'a'..=b'f' => Some(digit - b'a' + 10),
        _ => None,
    }
}

/// The control character that is escaped as its code, with these last two digits.
fn control_character(high: u8, low: u8) -> Option<u8>
    ensures some { IfSome result (λ b. json_byte b ≡ 92 ∷ 117 ∷ 48 ∷ 48 ∷ high ∷ low ∷ []) }
    ensures none { IfNone result ((b : ℕ) → json_byte b ≢ 92 ∷ 117 ∷ 48 ∷ 48 ∷ high ∷ low ∷ []) }
{
    let byte = hex_digit(high)? * 16 + hex_digit(low)?;
    if byte >= 32 || byte == b'\n' || byte == b'\r' || byte == b'\t' {
        return None;
    }
    Some(byte)
}

/// The byte that is escaped as a backslash and this letter.
fn escaped_byte(letter: u8) -> Option<u8>
    ensures some { IfSome result (λ b. json_byte b ≡ 92 ∷ letter ∷ []) }
    ensures none { IfNone result ((b : ℕ) → json_byte b ≢ 92 ∷ letter ∷ []) }
{
    match letter {
        b'"' | b'\\' => Some(letter),
        b'n' => Some(b'\n'),
        b'r' => Some(b'\r'),
        b't' => Some(b'\t'),
        _ => None,
    }
}

/// The first byte of a string's content, and the remaining text; None at the content's end, and where no content of a string is.
fn split_byte(text: &[u8]) -> Option<(u8, &[u8])>
    ensures some { IfSome result (λ r. text.now ≡ json_byte r.0 ++ r.1.now) }
    ensures none { IfNone result ((b : ℕ) (rest : List ℕ) → text.now ≢ json_byte b ++ rest) }
    ensures shorter { IfSome result (λ r. length r.1.now < length text.now) }
{
    match text {
        [b'\\', b'u', b'0', b'0', high, low, rest @ ..] => {
            Some((control_character(*high, *low)?, rest))
        }
        [b'\\', letter, rest @ ..] => Some((escaped_byte(*letter)?, rest)),
        [byte, rest @ ..] if *byte >= 32 && *byte != b'"' && *byte != b'\\' => Some((*byte, rest)),
        _ => None,
    }
}

/// Reads a string whose first quote was read. Returns its bytes, and the text after its last quote; None if no string is there.
/// `AllocError`: out of memory.
pub(crate) fn read_string(
    alloc: Global,
    text: &[u8],
) -> Result<Option<(Vec<u8>, &[u8])>, AllocError>
    ensures { IfOk result (λ o. MatchOption o
        ((bytes rest : List ℕ) → text.now ≢ flat_map json_byte bytes ++ 34 ∷ rest)
        (λ r. text.now ≡ flat_map json_byte r.0.items ++ 34 ∷ r.1.now)) }
{
    let mut bytes = Vec::new(alloc);
    let mut rest = text;
    while let Some((byte, after)) = split_byte(rest) {
        bytes.push(byte)?;
        rest = after;
    }
    match rest {
        [b'"', after @ ..] => Ok(Some((bytes, after))),
        _ => Ok(None),
    }
}
