//! The character sets, and their text as UTF-8.

ghost use Rattle.std.specs.Prelude.{◌≡◌, ◌<◌, ℕ, ◌∷◌, ◌++◌, List, [], IfSome, IfNone, IsNone, MatchOption, encode_utf8, slice_index, OnErr, IfOk, true, false, length, take};
ghost use Rattle.std.specs.Char.{IsScalar, len_utf8};
ghost use Rattle.std.specs.Char.Escape.{encode_utf16};
ghost use Rattle.changes_character_sets.specs.Texts.{high_first, low_first, BeginsWith, BeginsWithNone, IsTextOf, AppendsText, is_utf8_already};
ghost use Rattle.changes_character_sets.specs.declared.character_set.CharacterSet.TheVariants as CharacterSets;

use std::alloc::AllocError;
use std::str;

/// A character set of MySQL.
#[derive(Clone, Copy)]
pub enum CharacterSet {
    /// utf8mb3 and utf8mb4.
    Utf8,
    /// ascii.
    Ascii,
    /// ucs2: a character is two bytes, the high one first.
    Ucs2,
    /// utf16, the high byte of a unit first.
    Utf16,
    /// utf16le, the low byte of a unit first.
    Utf16Le,
    /// utf32: a character is four bytes, the high one first.
    Utf32,
    /// A character set with one byte a character: the characters by their bytes, 0 for a byte without one.
    SingleByte(&'static [u16; 256]),
}

/// The first two bytes as a number, the high byte first, and the remaining bytes.
#[inline(always)]
fn split_unit(bytes: &[u8]) -> Option<(u32, &[u8])>
    ensures small { IfSome result (λ r. r.0 < 65536) }
    ensures some { IfSome result (λ r. bytes.now ≡ high_first r.0 ++ r.1.now) }
    ensures none { IfNone result (length bytes.now < 2) }
{
    match bytes {
        [high, low, rest @ ..] => Some((u32::from(*high) * 256 + u32::from(*low), rest)),
        _ => None,
    }
}

/// The same with the low byte first.
#[inline(always)]
fn split_unit_le(bytes: &[u8]) -> Option<(u32, &[u8])>
    ensures small { IfSome result (λ r. r.0 < 65536) }
    ensures some { IfSome result (λ r. bytes.now ≡ low_first r.0 ++ r.1.now) }
    ensures none { IfNone result (length bytes.now < 2) }
{
    match bytes {
        [low, high, rest @ ..] => Some((u32::from(*high) * 256 + u32::from(*low), rest)),
        _ => None,
    }
}

/// The character with these two units of UTF-16; None if they are no pair of surrogates.
fn paired(high: u32, low: u32) -> Option<char>
    requires units { high < 65536 × low < 65536 }
    ensures some { IfSome result (λ c. encode_utf16 c ≡ high ∷ low ∷ []) }
    ensures none { IfNone result ((c : ℕ) → IsScalar c → ¬ (encode_utf16 c ≡ high ∷ low ∷ [])) }
{
    if (0xd800..0xdc00).contains(&high) && (0xdc00..0xe000).contains(&low) {
        return char::from_u32(0x1_0000 + (high - 0xd800) * 0x400 + (low - 0xdc00));
    }
    None
}

/// The number of bytes in the UTF-8 of a character with this first byte.
#[inline(always)]
#[tactic(auto, using(crate::proofs::CharacterLemmas::first_byte))]
fn utf8_len(first: u8) -> usize
    ensures some { 0 < result }
    ensures value { (c : ℕ) → IsScalar c → slice_index (encode_utf8 c) 0 ≡ first → result ≡ len_utf8 c }
{
    match first {
        0..=0x7f => 1,
        0x80..=0xdf => 2,
        0xe0..=0xef => 3,
        _ => 4,
    }
}

/// The first character in UTF-8.
#[inline(always)]
fn split_utf8(bytes: &[u8]) -> Option<(char, &[u8])>
    ensures { MatchOption result (BeginsWithNone CharacterSets.Utf8 bytes.now)
        (λ r. BeginsWith CharacterSets.Utf8 bytes.now r.0 r.1.now) }
{
    let [first, ..] = bytes else {
        return None;
    };
    let (character, rest) = bytes.split_at_checked(utf8_len(*first))?;
    let Ok(text) = str::from_utf8(character) else {
        return None;
    };
    Some((text.chars().next()?, rest))
}

/// The first character of ASCII.
#[inline(always)]
fn split_ascii(bytes: &[u8]) -> Option<(char, &[u8])>
    ensures { MatchOption result (BeginsWithNone CharacterSets.Ascii bytes.now)
        (λ r. BeginsWith CharacterSets.Ascii bytes.now r.0 r.1.now) }
{
    match bytes {
        [byte, rest @ ..] if *byte < 128 => Some((char::from(*byte), rest)),
        _ => None,
    }
}

/// The first character of a character set with one byte a character.
#[inline(always)]
fn split_byte<'a>(characters: &'static [u16; 256], bytes: &'a [u8]) -> Option<(char, &'a [u8])>
    ensures { MatchOption result (BeginsWithNone (CharacterSets.SingleByte characters.entry) bytes.now)
        (λ r. BeginsWith (CharacterSets.SingleByte characters.entry) bytes.now r.0 r.1.now) }
{
    let [byte, rest @ ..] = bytes else {
        return None;
    };
    let code = characters[usize::from(*byte)];
    if code == 0 && *byte != 0 {
        return None;
    }
    Some((char::from_u32(u32::from(code))?, rest))
}

/// The first character in UCS-2.
#[inline(always)]
fn split_ucs2(bytes: &[u8]) -> Option<(char, &[u8])>
    ensures { MatchOption result (BeginsWithNone CharacterSets.Ucs2 bytes.now)
        (λ r. BeginsWith CharacterSets.Ucs2 bytes.now r.0 r.1.now) }
{
    let (code, rest) = split_unit(bytes)?;
    Some((char::from_u32(code)?, rest))
}

/// The first character in UTF-16, the high byte of a unit first.
#[inline(always)]
fn split_utf16(bytes: &[u8]) -> Option<(char, &[u8])>
    ensures { MatchOption result (BeginsWithNone CharacterSets.Utf16 bytes.now)
        (λ r. BeginsWith CharacterSets.Utf16 bytes.now r.0 r.1.now) }
{
    let (first, rest) = split_unit(bytes)?;
    if let Some(character) = char::from_u32(first) {
        return Some((character, rest));
    }
    let (second, after) = split_unit(rest)?;
    Some((paired(first, second)?, after))
}

/// The first character in UTF-16, the low byte of a unit first.
#[inline(always)]
fn split_utf16_le(bytes: &[u8]) -> Option<(char, &[u8])>
    ensures { MatchOption result (BeginsWithNone CharacterSets.Utf16Le bytes.now)
        (λ r. BeginsWith CharacterSets.Utf16Le bytes.now r.0 r.1.now) }
{
    let (first, rest) = split_unit_le(bytes)?;
    if let Some(character) = char::from_u32(first) {
        return Some((character, rest));
    }
    let (second, after) = split_unit_le(rest)?;
    Some((paired(first, second)?, after))
}

/// The first character in UTF-32.
#[inline(always)]
fn split_utf32(bytes: &[u8]) -> Option<(char, &[u8])>
    ensures { MatchOption result (BeginsWithNone CharacterSets.Utf32 bytes.now)
        (λ r. BeginsWith CharacterSets.Utf32 bytes.now r.0 r.1.now) }
{
    let (high, rest) = split_unit(bytes)?;
    let (low, after) = split_unit(rest)?;
    Some((char::from_u32(high * 0x1_0000 + low)?, after))
}

impl CharacterSet {
    /// The character that the bytes begin with, and the remaining bytes; None if they begin with none.
    #[inline(always)]
    pub fn split_character(self, bytes: &[u8]) -> Option<(char, &[u8])>
        ensures { MatchOption result (BeginsWithNone self bytes.now)
            (λ r. BeginsWith self bytes.now r.0 r.1.now) }
    {
        match self {
            CharacterSet::Utf8 => split_utf8(bytes),
            CharacterSet::Ascii => split_ascii(bytes),
            CharacterSet::SingleByte(characters) => split_byte(characters, bytes),
            CharacterSet::Ucs2 => split_ucs2(bytes),
            CharacterSet::Utf16 => split_utf16(bytes),
            CharacterSet::Utf16Le => split_utf16_le(bytes),
            CharacterSet::Utf32 => split_utf32(bytes),
        }
    }

    /// The bytes themselves, if they are text of a character set that is UTF-8 already.
    #[inline(always)]
    pub fn as_utf8(self, bytes: &[u8]) -> Option<&str>
        ensures some { IfSome result (λ text. (text.now ≡ bytes.now) × IsTextOf self bytes.now text.now) }
        ensures none { IfNone result (is_utf8_already self ≡ true → (text : List ℕ) → ¬ (IsTextOf self bytes.now text)) }
        ensures other { is_utf8_already self ≡ false → IsNone result }
    {
        match self {
            CharacterSet::Utf8 => str::from_utf8(bytes).ok(),
            CharacterSet::Ascii => {
                if !bytes.is_ascii() {
                    return None;
                }
                str::from_utf8(bytes).ok()
            }
            _ => None,
        }
    }

    /// Appends text of this character set as UTF-8, and returns whether the bytes are such text. If they aren't, or memory runs out, it
    /// appends nothing.
    ///
    /// - `AllocError`: out of memory.
    pub fn decode(self, bytes: &[u8], text: &mut Vec<u8>) -> Result<bool, AllocError>
        ensures yes { IfOk result (λ is_text. is_text ≡ true → AppendsText self bytes.now text.old.items text.new.items) }
        ensures no { IfOk result (λ is_text. is_text ≡ false → (decoded : List ℕ) → ¬ (IsTextOf self bytes.now decoded)) }
        ensures unchanged { IfOk result (λ is_text. is_text ≡ false → text.new.items ≡ text.old.items) }
        ensures err { OnErr result (text.new.items ≡ text.old.items) }
    {
        let start = text.len();
        let decoded = self.append(bytes, text);
        if !matches!(decoded, Ok(true)) {
            text.truncate(start);
        }
        decoded
    }

    /// The same; bytes that aren't text, and an error, may leave a part of it.
    fn append(self, bytes: &[u8], text: &mut Vec<u8>) -> Result<bool, AllocError>
        ensures old { take (length text.old.items) text.new.items ≡ text.old.items }
        ensures yes { IfOk result (λ is_text. is_text ≡ true → AppendsText self bytes.now text.old.items text.new.items) }
        ensures no { IfOk result (λ is_text. is_text ≡ false → (decoded : List ℕ) → ¬ (IsTextOf self bytes.now decoded)) }
    {
        if let CharacterSet::Utf8 = self {
            let Ok(utf8) = str::from_utf8(bytes) else {
                return Ok(false);
            };
            text.extend_from_slice(utf8.as_bytes())?;
            return Ok(true);
        }
        let mut rest = bytes;
        while !rest.is_empty() {
            let Some((character, after)) = self.split_character(rest) else {
                return Ok(false);
            };
            text.extend_from_slice(character.encode_utf8(&mut [0; 4]).as_bytes())?;
            rest = after;
        }
        Ok(true)
    }
}
