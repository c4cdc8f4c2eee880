//! Bytes that need no escape between quotes, eight at a time.

ghost use Rattle.std.specs.Prelude.{◌≡◌, ◌≤◌, length, take, take_while};
ghost use Rattle.std.specs.Bool.{OnTrue};
ghost use Rattle.feed_writers.specs.Quoting.{is_plain_byte};
ghost use Rattle.feed_writers.specs.PlainBytes.{IsPlainPrefix};

use std::simd::prelude::*;

/// Whether a byte needs no escape between quotes: 0x20 to 0x7e, except quote and backslash. All tests are made in any case, so
/// that there is no branch.
#[inline(always)]
pub fn is_plain(byte: u8) -> bool
    ensures { result ≡ is_plain_byte byte }
{
    (byte.wrapping_sub(0x20) < 0x5f) & (byte != b'\'') & (byte != b'\\')
}

/// Whether the first eight bytes need no escape.
#[inline(always)]
pub(crate) fn are_eight_plain(bytes: &[u8]) -> bool
    requires { 8 ≤ length bytes.now }
    ensures { OnTrue result (IsPlainPrefix bytes.now 8) }
{
    let v = u8x8::from_slice(bytes);
    (v.simd_eq(u8x8::splat(b'\''))
        | v.simd_eq(u8x8::splat(b'\\'))
        | v.simd_lt(u8x8::splat(0x20))
        | v.simd_gt(u8x8::splat(0x7e))).to_bitmask()
        == 0
}

/// Whether the first four bytes need no escape.
#[inline(always)]
pub(crate) fn are_four_plain(bytes: &[u8]) -> bool
    requires { 4 ≤ length bytes.now }
    ensures { OnTrue result (IsPlainPrefix bytes.now 4) }
{
    let v = u8x4::from_slice(bytes);
    (v.simd_eq(u8x4::splat(b'\''))
        | v.simd_eq(u8x4::splat(b'\\'))
        | v.simd_lt(u8x4::splat(0x20))
        | v.simd_gt(u8x4::splat(0x7e))).to_bitmask()
        == 0
}

/// Counts the bytes at the start that need no escape, among the first sixteen.
#[inline(always)]
pub(crate) fn sixteen_plain_len(bytes: &[u8]) -> usize
    requires { 16 ≤ length bytes.now }
    ensures { result ≡ length (take_while is_plain_byte (take 16 bytes.now)) }
{
    let v = u8x16::from_slice(bytes);
    let stops = (v.simd_eq(u8x16::splat(b'\''))
        | v.simd_eq(u8x16::splat(b'\\'))
        | v.simd_lt(u8x16::splat(0x20))
        | v.simd_gt(u8x16::splat(0x7e))).to_bitmask();
    if stops == 0 {
        return 16;
    }
    stops.trailing_zeros() as usize
}

/// Counts the bytes at the start that need no escape.
#[inline(always)]
pub fn plain_len(bytes: &[u8]) -> usize
    ensures most { result ≤ length bytes.now }
    ensures value { result ≡ length (take_while is_plain_byte bytes.now) }
{
    let mut rest = bytes;
    while rest.len() >= 8 && are_eight_plain(rest) {
        let (_, after) = rest.split_at(8);
        rest = after;
    }
    let passed = bytes.len() - rest.len();
    if rest.len() >= 4 && are_four_plain(rest) {
        let (_, after) = rest.split_at(4);
        return passed + 4 + short_plain_len(after);
    }
    passed + short_plain_len(rest)
}

/// The same, a byte at a time.
#[inline(always)]
fn short_plain_len(bytes: &[u8]) -> usize
    ensures most { result ≤ length bytes.now }
    ensures value { result ≡ length (take_while is_plain_byte bytes.now) }
{
    bytes.iter().take_while(|byte| is_plain(**byte)).count()
}
