//! Floats.

ghost use Rattle.std.specs.Prelude.{◌≡◌, ◌≤◌, ◌+◌, ◌++◌, length, take, string_bytes};
ghost use Rattle.changes_writers.specs.JsonStrings.{json_string};
ghost use Rattle.changes_writers.specs.FloatTexts.{AppendsSuch, IsDoubleJson, IsFloatJson};

use crate::strings::put_string;
use feed_writers::put_bytes;
use ryu::Buffer;
use ryu::raw::{LEN, format};
use std::num::{f32_from_bits_with_nan, f64_from_bits_with_nan};

/// Writes the word for a float that isn't finite as a string.
#[cold]
#[inline(never)]
fn put_word(text: &mut [u8], at: usize, word: &str) -> usize
    requires few { length word.now ≤ 4 }
    requires room { at + 32 ≤ length text.old }
    ensures most { result ≤ at + 26 }
    ensures text { take result text.new ≡ take at text.old ++ json_string word.now }
{
    put_string(text, at, word.as_bytes())
}

/// Writes the first `len` of a number's bytes.
#[inline(always)]
fn put_digits(text: &mut [u8], at: usize, digits: &[u8; LEN], len: usize) -> usize
    requires few { len ≤ 25 }
    requires room { at + 32 ≤ length text.old }
    ensures end { result ≡ at + len }
    ensures text { take result text.new ≡ take at text.old ++ take len digits.now }
{
    put_bytes(text, at, digits);
    at + len
}

/// Writes the float of 4 bytes with these bits: a number that reads back as it, or `"NaN"`, `"inf"` or `"-inf"`.
#[inline(never)]
pub fn put_float(text: &mut [u8], at: usize, bits: u32) -> usize
    requires { at + 32 ≤ length text.old }
    ensures most { result ≤ at + 26 }
    ensures text { AppendsSuch (IsFloatJson bits) (take at text.old) (take result text.new) }
{
    let number = f32_from_bits_with_nan(bits);
    if !number.is_finite() {
        return put_word(text, at, Buffer::new().format(number));
    }
    let mut digits = [0; LEN];
    let len = format(number, &mut digits);
    put_digits(text, at, &digits, len)
}

/// Writes the float of 8 bytes with these bits, in the same way.
#[inline(never)]
pub fn put_double(text: &mut [u8], at: usize, bits: u64) -> usize
    requires { at + 32 ≤ length text.old }
    ensures most { result ≤ at + 26 }
    ensures text { AppendsSuch (IsDoubleJson bits) (take at text.old) (take result text.new) }
{
    let number = f64_from_bits_with_nan(bits);
    if !number.is_finite() {
        return put_word(text, at, Buffer::new().format(number));
    }
    let mut digits = [0; LEN];
    let len = format(number, &mut digits);
    put_digits(text, at, &digits, len)
}
