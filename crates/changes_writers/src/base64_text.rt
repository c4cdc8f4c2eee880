//! Base64, twelve bytes at a time.

ghost use Rattle.std.specs.Prelude.{◌≡◌, ◌≤◌, ◌<◌, ◌+◌, ◌*◌, ◌++◌, ◌∷◌, [], All, length, map, take, slice_index};
ghost use Rattle.base64.specs.Engines.{standard};
ghost use Rattle.base64.specs.GeneralPurpose.{encode_of, engine_symbols};
ghost use Rattle.base64.specs.Rfc4648.{encode_group, encode_symbols};
ghost use Rattle.changes_writers.specs.Base64Texts.{base64_len, base64_object, base64_string};
ghost use Rattle.changes_writers.specs.SixBits.{six_bits};

use feed_writers::{put_byte, put_bytes};
use std::simd::prelude::*;

/// The digits.
static DIGITS: [u8; 64] = *b"ABCDEFGHIJKLMNOPQRSTUVWXYZabcdefghijklmnopqrstuvwxyz0123456789+/";

/// What is added to six bits for their digit: first to 26 to 51, then to 52 to 63, then to 0 to 25.
static SHIFTS: [u8; 16] = [
    71, 252, 252, 252, 252, 252, 252, 252, 252, 252, 252, 237, 240, 65, 0, 0,
];

/// The bytes of four groups of three, each as two numbers of 16 bits: the second byte below the first, and the third below the second.
const GROUPS: [usize; 16] = [1, 0, 2, 1, 4, 3, 5, 4, 7, 6, 8, 7, 10, 9, 11, 10];

/// By how many bits the first and the third six bits of a group are moved down, to the lower byte.
const DOWN: [u16; 8] = [10, 6, 10, 6, 10, 6, 10, 6];

/// What moves the second and the fourth six bits up, to the upper byte.
const UP: [u16; 8] = [16, 256, 16, 256, 16, 256, 16, 256];

/// The length of the Base64 of bytes.
#[inline(always)]
pub fn base64_len(bytes: &[u8]) -> usize
    ensures { result ≡ base64_len (length bytes.now) }
{
    bytes.len().div_ceil(3) * 4
}

/// Splits each of the first four groups of three bytes into four numbers of six bits.
#[inline(always)]
fn sixes_of(v: u8x16) -> u8x16
    ensures { result ≡ six_bits (take 12 v) }
{
    let groups = u16x8::from_le_bytes(v.swizzle::<16>(GROUPS));
    let six = u16x8::splat(63);
    let byte = u16x8::splat(8);
    let lower = (groups >> u16x8::from_array(DOWN)) & six;
    let upper = ((groups * u16x8::from_array(UP)) >> byte) & six;
    (lower + (upper << byte)).to_le_bytes()
}

/// The digits of sixteen numbers of six bits.
#[inline(always)]
fn digits_of(sixes: u8x16) -> u8x16
    requires { All (λ x. x < 64) sixes }
    ensures { result ≡ map (λ x. slice_index (engine_symbols standard) x) sixes }
{
    let beyond = sixes.saturating_sub(u8x16::splat(51));
    let upper = sixes
        .simd_lt(u8x16::splat(26))
        .select(u8x16::splat(13), u8x16::splat(0));
    sixes + u8x16::from_array(SHIFTS).swizzle_dyn_within::<16>(beyond | upper)
}

/// Writes the four digits of three bytes.
#[inline(always)]
fn put_group(text: &mut [u8], at: usize, first: u8, second: u8, third: u8) -> usize
    requires { at + 4 ≤ length text.old }
    ensures end { result ≡ at + 4 }
    ensures text { take result text.new ≡ take at text.old ++ encode_group (engine_symbols standard) first second third }
{
    let end = put_byte(text, at, DIGITS[usize::from(first / 4)]);
    let end = put_byte(text, end, DIGITS[usize::from(first % 4 * 16 + second / 16)]);
    let end = put_byte(text, end, DIGITS[usize::from(second % 16 * 4 + third / 64)]);
    put_byte(text, end, DIGITS[usize::from(third % 64)])
}

/// Writes the last one or two bytes, and the padding.
#[inline(always)]
fn put_remainder(text: &mut [u8], at: usize, bytes: &[u8]) -> usize
    requires few { length bytes.now < 3 }
    requires room { at + base64_len (length bytes.now) ≤ length text.old }
    ensures end { result ≡ at + base64_len (length bytes.now) }
    ensures text { take result text.new ≡ take at text.old ++ encode_of standard bytes.now }
{
    match bytes {
        [first, second] => {
            let end = put_group(text, at, *first, *second, 0);
            put_byte(text, end - 1, b'=')
        }
        [first] => {
            let end = put_group(text, at, *first, 0, 0);
            put_bytes(text, end - 2, b"==")
        }
        _ => at,
    }
}

/// Writes the last bytes, three at a time.
#[inline(always)]
fn put_last(text: &mut [u8], at: usize, bytes: &[u8]) -> usize
    requires { at + base64_len (length bytes.now) ≤ length text.old }
    ensures end { result ≡ at + base64_len (length bytes.now) }
    ensures text { take result text.new ≡ take at text.old ++ encode_of standard bytes.now }
{
    let mut end = at;
    let mut rest = bytes;
    while rest.len() >= 3 {
        end = put_group(text, end, rest[0], rest[1], rest[2]);
        let (_, after) = rest.split_at(3);
        rest = after;
    }
    put_remainder(text, end, rest)
}

/// Writes the digits of the first twelve of sixteen bytes.
#[inline(always)]
fn put_twelve(text: &mut [u8], at: usize, bytes: &[u8]) -> usize
    requires sixteen { 16 ≤ length bytes.now }
    requires room { at + 16 ≤ length text.old }
    ensures end { result ≡ at + 16 }
    ensures text { take result text.new ≡ take at text.old ++ encode_symbols (engine_symbols standard) (take 12 bytes.now) }
{
    let sixes = sixes_of(u8x16::from_slice(bytes));
    digits_of(sixes).copy_to_slice(&mut text[at..]);
    at + 16
}

/// Writes bytes in Base64.
#[inline(never)]
pub fn put_base64(text: &mut [u8], at: usize, bytes: &[u8]) -> usize
    requires { at + base64_len (length bytes.now) ≤ length text.old }
    ensures end { result ≡ at + base64_len (length bytes.now) }
    ensures text { take result text.new ≡ take at text.old ++ encode_of standard bytes.now }
{
    let mut end = at;
    let mut rest = bytes;
    while rest.len() >= 16 {
        end = put_twelve(text, end, rest);
        let (_, after) = rest.split_at(12);
        rest = after;
    }
    put_last(text, end, rest)
}

/// Writes bytes in Base64 as a string.
#[inline(always)]
pub fn put_base64_string(text: &mut [u8], at: usize, bytes: &[u8]) -> usize
    requires { at + (base64_len (length bytes.now) + 2) ≤ length text.old }
    ensures end { result ≡ at + (base64_len (length bytes.now) + 2) }
    ensures text { take result text.new ≡ take at text.old ++ base64_string bytes.now }
{
    let start = put_byte(text, at, b'"');
    let end = put_base64(text, start, bytes);
    put_byte(text, end, b'"')
}

/// Writes bytes as `{"base64":".."}`.
#[inline(always)]
pub fn put_base64_object(text: &mut [u8], at: usize, bytes: &[u8]) -> usize
    requires { at + (base64_len (length bytes.now) + 13) ≤ length text.old }
    ensures end { result ≡ at + (base64_len (length bytes.now) + 13) }
    ensures text { take result text.new ≡ take at text.old ++ base64_object bytes.now }
{
    let start = put_bytes(text, at, b"{\"base64\":");
    let end = put_base64_string(text, start, bytes);
    put_byte(text, end, b'}')
}
