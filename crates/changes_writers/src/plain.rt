//! ASCII that needs no escape in a JSON string, up to sixteen bytes at a time.

ghost use Rattle.std.specs.Prelude.{◌≡◌, ◌≤◌, ◌<◌, ◌+◌, ◌-◌, ◌*◌, ◌++◌, true, IsTrue, IfNone, IfSome, IsAscii, length, take, take_while};
ghost use Rattle.std.specs.List.{flat_map, AllPass};
ghost use Rattle.changes_writers.specs.JsonStrings.{is_unescaped, json_byte};
ghost use Rattle.changes_writers.specs.PlainText.{is_plain};

use feed_writers::put_byte;
use std::simd::prelude::*;

/// Whether a byte is ASCII and needs no escape.
#[inline(always)]
fn is_plain(byte: u8) -> bool
    ensures { result ≡ is_plain byte }
{
    (byte.wrapping_sub(0x20) < 0x60) & (byte != b'"') & (byte != b'\\')
}

/// Counts the first of sixteen bytes that need no escape.
#[inline(always)]
pub(crate) fn unescaped_len(v: u8x16) -> usize
    ensures most { result ≤ 16 }
    ensures value { result ≡ length (take_while is_unescaped v) }
{
    let stops = (v.simd_eq(u8x16::splat(b'"'))
        | v.simd_eq(u8x16::splat(b'\\'))
        | v.simd_lt(u8x16::splat(0x20))).to_bitmask();
    if stops == 0 {
        return 16;
    }
    stops.trailing_zeros() as usize
}

/// Counts the first of sixteen bytes that are ASCII and need no escape.
#[inline(always)]
pub(crate) fn plain_len(v: u8x16) -> usize
    ensures most { result ≤ 16 }
    ensures value { result ≡ length (take_while is_plain v) }
{
    let stops = (v.simd_eq(u8x16::splat(b'"'))
        | v.simd_eq(u8x16::splat(b'\\'))
        | v.simd_lt(u8x16::splat(0x20))
        | v.simd_gt(u8x16::splat(0x7f))).to_bitmask();
    if stops == 0 {
        return 16;
    }
    stops.trailing_zeros() as usize
}

/// Whether eight bytes are ASCII and need no escape.
#[inline(always)]
fn are_eight_plain(v: u8x8) -> bool
    ensures { IsTrue result → AllPass is_plain v }
{
    (v.simd_eq(u8x8::splat(b'"'))
        | v.simd_eq(u8x8::splat(b'\\'))
        | v.simd_lt(u8x8::splat(0x20))
        | v.simd_gt(u8x8::splat(0x7f))).to_bitmask()
        == 0
}

/// Whether four bytes are ASCII and need no escape.
#[inline(always)]
fn are_four_plain(v: u8x4) -> bool
    ensures { IsTrue result → AllPass is_plain v }
{
    (v.simd_eq(u8x4::splat(b'"'))
        | v.simd_eq(u8x4::splat(b'\\'))
        | v.simd_lt(u8x4::splat(0x20))
        | v.simd_gt(u8x4::splat(0x7f))).to_bitmask()
        == 0
}

/// Writes eight to sixteen bytes if they are ASCII and need no escape: the first eight, and the last eight.
#[inline(always)]
fn put_halves_of_sixteen(text: &mut [u8], at: usize, bytes: &[u8]) -> Option<usize>
    requires least { 8 ≤ length bytes.now }
    requires most { length bytes.now ≤ 16 }
    requires room { at + length bytes.now ≤ length text.old }
    ensures none { IfNone result (text.new ≡ text.old) }
    ensures plain { IfSome result (λ end. AllPass is_plain bytes.now) }
    ensures end { IfSome result (λ end. end ≡ at + length bytes.now) }
    ensures text { IfSome result (λ end. take end text.new ≡ take at text.old ++ bytes.now) }
{
    let first = u8x8::from_slice(bytes);
    let last = u8x8::from_slice(&bytes[bytes.len() - 8..]);
    if !(are_eight_plain(first) & are_eight_plain(last)) {
        return None;
    }
    let end = at + bytes.len();
    first.copy_to_slice(&mut text[at..]);
    last.copy_to_slice(&mut text[end - 8..]);
    Some(end)
}

/// Writes four to eight bytes if they are ASCII and need no escape: the first four, and the last four.
#[inline(always)]
fn put_halves_of_eight(text: &mut [u8], at: usize, bytes: &[u8]) -> Option<usize>
    requires least { 4 ≤ length bytes.now }
    requires most { length bytes.now ≤ 8 }
    requires room { at + length bytes.now ≤ length text.old }
    ensures none { IfNone result (text.new ≡ text.old) }
    ensures plain { IfSome result (λ end. AllPass is_plain bytes.now) }
    ensures end { IfSome result (λ end. end ≡ at + length bytes.now) }
    ensures text { IfSome result (λ end. take end text.new ≡ take at text.old ++ bytes.now) }
{
    let first = u8x4::from_slice(bytes);
    let last = u8x4::from_slice(&bytes[bytes.len() - 4..]);
    if !(are_four_plain(first) & are_four_plain(last)) {
        return None;
    }
    let end = at + bytes.len();
    first.copy_to_slice(&mut text[at..]);
    last.copy_to_slice(&mut text[end - 4..]);
    Some(end)
}

/// Writes each byte if all are ASCII and need no escape.
#[inline(always)]
fn put_few(text: &mut [u8], at: usize, bytes: &[u8]) -> Option<usize>
    requires { at + length bytes.now ≤ length text.old }
    ensures none { IfNone result (take at text.new ≡ take at text.old) }
    ensures plain { IfSome result (λ end. AllPass is_plain bytes.now) }
    ensures end { IfSome result (λ end. end ≡ at + length bytes.now) }
    ensures text { IfSome result (λ end. take end text.new ≡ take at text.old ++ bytes.now) }
{
    let mut end = at;
    for byte in bytes {
        if !is_plain(*byte) {
            return None;
        }
        end = put_byte(text, end, *byte);
    }
    Some(end)
}

/// Writes up to sixteen bytes of a string if they are ASCII and need no escape.
#[inline(always)]
pub(crate) fn put_plain(text: &mut [u8], at: usize, bytes: &[u8]) -> Option<usize>
    requires most { length bytes.now ≤ 16 }
    requires room { at + length bytes.now ≤ length text.old }
    ensures none { IfNone result (take at text.new ≡ take at text.old) }
    ensures ascii { IfSome result (λ end. IsAscii bytes.now) }
    ensures end { IfSome result (λ end. end ≡ at + length bytes.now) }
    ensures text { IfSome result (λ end. take end text.new ≡ take at text.old ++ flat_map json_byte bytes.now) }
{
    if bytes.len() >= 8 {
        return put_halves_of_sixteen(text, at, bytes);
    }
    if bytes.len() >= 4 {
        return put_halves_of_eight(text, at, bytes);
    }
    put_few(text, at, bytes)
}
