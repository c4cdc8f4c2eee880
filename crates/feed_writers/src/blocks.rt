//! Quoted bytes, sixteen at a time.
//!
//! Sixteen plain bytes are copied by one store. If one or two of them need an escape, the bytes up to the first and its escape are
//! written, and the next sixteen begin after it. If more need one, the digits of all sixteen are looked up at once.

ghost use Rattle.std.specs.Prelude.{◌≡◌, ◌≤◌, ◌<◌, ◌+◌, ◌-◌, ◌*◌, ◌++◌, List, ℕ, length, map, take, drop, replicate, slice_index};
ghost use Rattle.std.specs.List.{flat_map};
ghost use Rattle.feed_writers.specs.Quoting.{quoted_byte, escape};
ghost use Rattle.feed_writers.specs.QuotedFields.{high_digit, low_digit, field_of, stops_in, AreParts};

use crate::escapes::{DIGITS, put_escape};
use std::simd::prelude::*;

/// The offsets in four fields of what is written, by the bits of the bytes that need an escape.
static WRITTEN: [[u8; 16]; 16] = [
    [0, 4, 8, 12, 0, 0, 0, 0, 0, 0, 0, 0, 0, 0, 0, 0],
    [0, 1, 2, 4, 8, 12, 0, 0, 0, 0, 0, 0, 0, 0, 0, 0],
    [0, 4, 5, 6, 8, 12, 0, 0, 0, 0, 0, 0, 0, 0, 0, 0],
    [0, 1, 2, 4, 5, 6, 8, 12, 0, 0, 0, 0, 0, 0, 0, 0],
    [0, 4, 8, 9, 10, 12, 0, 0, 0, 0, 0, 0, 0, 0, 0, 0],
    [0, 1, 2, 4, 8, 9, 10, 12, 0, 0, 0, 0, 0, 0, 0, 0],
    [0, 4, 5, 6, 8, 9, 10, 12, 0, 0, 0, 0, 0, 0, 0, 0],
    [0, 1, 2, 4, 5, 6, 8, 9, 10, 12, 0, 0, 0, 0, 0, 0],
    [0, 4, 8, 12, 13, 14, 0, 0, 0, 0, 0, 0, 0, 0, 0, 0],
    [0, 1, 2, 4, 8, 12, 13, 14, 0, 0, 0, 0, 0, 0, 0, 0],
    [0, 4, 5, 6, 8, 12, 13, 14, 0, 0, 0, 0, 0, 0, 0, 0],
    [0, 1, 2, 4, 5, 6, 8, 12, 13, 14, 0, 0, 0, 0, 0, 0],
    [0, 4, 8, 9, 10, 12, 13, 14, 0, 0, 0, 0, 0, 0, 0, 0],
    [0, 1, 2, 4, 8, 9, 10, 12, 13, 14, 0, 0, 0, 0, 0, 0],
    [0, 4, 5, 6, 8, 9, 10, 12, 13, 14, 0, 0, 0, 0, 0, 0],
    [0, 1, 2, 4, 5, 6, 8, 9, 10, 12, 13, 14, 0, 0, 0, 0],
];

/// The bytes of the first halves of two vectors, in turn.
const LOWER: [usize; 16] = [0, 16, 1, 17, 2, 18, 3, 19, 4, 20, 5, 21, 6, 22, 7, 23];

/// The bytes of their second halves, in turn.
const UPPER: [usize; 16] = [8, 24, 9, 25, 10, 26, 11, 27, 12, 28, 13, 29, 14, 30, 15, 31];

/// The pairs of bytes of their first halves, in turn.
const LOWER_PAIRS: [usize; 16] = [0, 1, 16, 17, 2, 3, 18, 19, 4, 5, 20, 21, 6, 7, 22, 23];

/// The pairs of bytes of their second halves, in turn.
const UPPER_PAIRS: [usize; 16] = [8, 9, 24, 25, 10, 11, 26, 27, 12, 13, 28, 29, 14, 15, 30, 31];

/// The offsets of sixteen bytes.
static OFFSETS: [u8; 16] = [0, 1, 2, 3, 4, 5, 6, 7, 8, 9, 10, 11, 12, 13, 14, 15];

/// The last `len` bytes, and spaces after them.
#[inline(always)]
pub(crate) fn last_bytes(bytes: &[u8], len: usize) -> u8x16
    requires sixteen { 16 ≤ length bytes.now }
    requires few { len ≤ 16 }
    ensures { result ≡ drop (length bytes.now - len) bytes.now ++ replicate (16 - len) 32 }
{
    let last = u8x16::from_slice(&bytes[bytes.len() - 16..]);
    let offsets = u8x16::from_array(OFFSETS);
    let from = (offsets + u8x16::splat((16 - len) as u8)) & u8x16::splat(15);
    let moved = last.swizzle_dyn_within::<16>(from);
    offsets
        .simd_lt(u8x16::splat(len as u8))
        .select(moved, u8x16::splat(b' '))
}

/// The first `len` of sixteen bytes, and spaces after them.
#[inline(always)]
pub(crate) fn first_bytes(bytes: &[u8], len: usize) -> u8x16
    requires sixteen { 16 ≤ length bytes.now }
    requires few { len ≤ 16 }
    ensures { result ≡ take len bytes.now ++ replicate (16 - len) 32 }
{
    u8x16::from_array(OFFSETS)
        .simd_lt(u8x16::splat(len as u8))
        .select(u8x16::from_slice(bytes), u8x16::splat(b' '))
}

/// Writes sixteen bytes as they are written between quotes, or, if one or two of them need an escape, those up to the first that
/// does. Returns the end of the text and how many bytes were written. It may overwrite up to 52 bytes.
#[inline(always)]
pub(crate) fn put_run(text: &mut [u8], at: usize, v: u8x16) -> (usize, usize)
    requires { at + 52 ≤ length text.old }
    ensures some { 0 < result.1 }
    ensures few { result.1 ≤ 16 }
    ensures most { result.0 ≤ at + 3 * result.1 }
    ensures text { take result.0 text.new ≡ take at text.old ++ flat_map quoted_byte (take result.1 v) }
{
    let is_stop = v.simd_eq(u8x16::splat(b'\''))
        | v.simd_eq(u8x16::splat(b'\\'))
        | v.simd_lt(u8x16::splat(0x20))
        | v.simd_gt(u8x16::splat(0x7e));
    let stops = is_stop.to_bitmask();
    if stops == 0 {
        v.copy_to_slice(&mut text[at..]);
        return (at + 16, 16);
    }
    if stops.count_ones() > 2 {
        let first = is_stop.select(u8x16::splat(b'\\'), v);
        let end = put_sixteen_fields(text, at, first, high_digits(v), low_digits(v), stops);
        return (end, 16);
    }
    let plain = stops.trailing_zeros() as usize;
    (put_up_to_escape(text, at, v, plain), plain + 1)
}

/// Writes the first `plain` of sixteen bytes unchanged, and the escape of the next one.
#[inline(always)]
fn put_up_to_escape(text: &mut [u8], at: usize, v: u8x16, plain: usize) -> usize
    requires few { plain < 16 }
    requires room { at + 52 ≤ length text.old }
    ensures end { result ≡ at + plain + 3 }
    ensures text { take result text.new ≡ take at text.old ++ (take plain v ++ escape (slice_index v plain)) }
{
    v.copy_to_slice(&mut text[at..]);
    put_escape(text, at + plain, v.to_array()[plain])
}

/// The first hexadecimal digit of each byte.
#[inline(always)]
fn high_digits(v: u8x16) -> u8x16
    ensures { result ≡ map high_digit v }
{
    u8x16::from_array(DIGITS).swizzle_dyn_within::<16>(v >> u8x16::splat(4))
}

/// The last hexadecimal digit of each byte.
#[inline(always)]
fn low_digits(v: u8x16) -> u8x16
    ensures { result ≡ map low_digit v }
{
    u8x16::from_array(DIGITS).swizzle_dyn_within::<16>(v & u8x16::splat(15))
}

/// Writes sixteen bytes as they are written between quotes, from their first characters, their digits and the bits of those
/// that need an escape.
#[inline(always)]
fn put_sixteen_fields(
    text: &mut [u8],
    at: usize,
    first: u8x16,
    high: u8x16,
    low: u8x16,
    stops: u64,
) -> usize
    requires { at + 52 ≤ length text.old }
    ensures most { result ≤ at + 48 }
    ensures text { (bytes : List ℕ) → AreParts bytes first high low stops → take result text.new ≡ take at text.old ++ flat_map quoted_byte bytes }
{
    let heads = first.shuffle::<16>(high, LOWER);
    let tails = low.shuffle::<16>(low, LOWER);
    let one = heads.shuffle::<16>(tails, LOWER_PAIRS);
    let two = heads.shuffle::<16>(tails, UPPER_PAIRS);
    let end = put_four_fields(text, at, one, stops % 16);
    let end = put_four_fields(text, end, two, stops / 16 % 16);
    let heads = first.shuffle::<16>(high, UPPER);
    let tails = low.shuffle::<16>(low, UPPER);
    let three = heads.shuffle::<16>(tails, LOWER_PAIRS);
    let four = heads.shuffle::<16>(tails, UPPER_PAIRS);
    let end = put_four_fields(text, end, three, stops / 256 % 16);
    put_four_fields(text, end, four, stops / 4096 % 16)
}

/// Writes four bytes as they are written between quotes, from their fields and the bits of those that need an escape.
#[inline(always)]
fn put_four_fields(text: &mut [u8], at: usize, fields: u8x16, stops: u64) -> usize
    requires few { stops < 16 }
    requires room { at + 16 ≤ length text.old }
    ensures most { result ≤ at + 12 }
    ensures text { (bytes : List ℕ) → length bytes ≡ 4 → fields ≡ flat_map field_of bytes → stops ≡ stops_in bytes
        → take result text.new ≡ take at text.old ++ flat_map quoted_byte bytes }
{
    let written = u8x16::from_array(WRITTEN[stops as usize]);
    fields
        .swizzle_dyn_within::<16>(written)
        .copy_to_slice(&mut text[at..]);
    at + 4 + 2 * stops.count_ones() as usize
}
