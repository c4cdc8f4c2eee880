//! JSON strings, sixteen bytes at a time.

ghost use Rattle.std.specs.Prelude.{◌≡◌, ◌≤◌, ◌<◌, ◌+◌, ◌-◌, ◌*◌, ◌++◌, IsUtf8, IsAscii, IfNone, IfSome, MatchOption, IsTrue, ◌↔◌, length, take, drop, take_while};
ghost use Rattle.std.specs.List.{flat_map};
ghost use Rattle.changes_writers.specs.JsonStrings.{json_byte, json_string};
ghost use Rattle.changes_writers.specs.PlainText.{is_plain};

use crate::escapes::{put_each, put_escape};
use crate::plain::{plain_len, put_plain, unescaped_len};
use feed_writers::put_byte;
use simdutf8::is_utf8_baseline;
use std::simd::prelude::*;
use std::str;

/// Writes some of the first sixteen bytes of a string: up to the first that needs an escape. Returns the end of the text and how
/// many bytes were written.
#[inline(always)]
fn put_run(text: &mut [u8], at: usize, bytes: &[u8]) -> (usize, usize)
    requires sixteen { 16 ≤ length bytes.now }
    requires room { at + 6 * length bytes.now ≤ length text.old }
    ensures some { 0 < result.1 }
    ensures few { result.1 ≤ 16 }
    ensures most { result.0 ≤ at + 6 * result.1 }
    ensures text { take result.0 text.new ≡ take at text.old ++ flat_map json_byte (take result.1 bytes.now) }
{
    let v = u8x16::from_slice(bytes);
    v.copy_to_slice(&mut text[at..]);
    let len = unescaped_len(v);
    if len == 16 {
        return (at + 16, 16);
    }
    (put_escape(text, at + len, bytes[len]), len + 1)
}

/// Writes the content of a string, so that a long one can be written in pieces.
#[inline(never)]
pub fn put_string_content(text: &mut [u8], at: usize, bytes: &[u8]) -> usize
    requires { at + 6 * length bytes.now ≤ length text.old }
    ensures most { result ≤ at + 6 * length bytes.now }
    ensures text { take result text.new ≡ take at text.old ++ flat_map json_byte bytes.now }
{
    let mut end = at;
    let mut rest = bytes;
    while rest.len() >= 16 {
        let (next, len) = put_run(text, end, rest);
        let (_, after) = rest.split_at(len);
        end = next;
        rest = after;
    }
    put_last(text, end, rest)
}

/// Writes the last bytes of a string.
#[inline(always)]
fn put_last(text: &mut [u8], at: usize, bytes: &[u8]) -> usize
    requires few { length bytes.now ≤ 16 }
    requires room { at + 6 * length bytes.now ≤ length text.old }
    ensures most { result ≤ at + 6 * length bytes.now }
    ensures text { take result text.new ≡ take at text.old ++ flat_map json_byte bytes.now }
{
    match put_plain(text, at, bytes) {
        Some(end) => end,
        None => put_each(text, at, bytes),
    }
}

/// Writes bytes as a string. It is JSON if they are UTF-8; other bytes are copied too.
#[inline(always)]
pub fn put_string(text: &mut [u8], at: usize, bytes: &[u8]) -> usize
    requires { at + (6 * length bytes.now + 2) ≤ length text.old }
    ensures most { result ≤ at + (6 * length bytes.now + 2) }
    ensures text { take result text.new ≡ take at text.old ++ json_string bytes.now }
{
    let start = put_byte(text, at, b'"');
    let end = put_string_content(text, start, bytes);
    put_byte(text, end, b'"')
}

/// Writes some of the first sixteen bytes of a string: up to the first that needs an escape, and before the first that isn't
/// ASCII. Returns the end of the text and how many bytes were written.
#[inline(always)]
fn put_ascii_run(text: &mut [u8], at: usize, bytes: &[u8]) -> (usize, usize)
    requires sixteen { 16 ≤ length bytes.now }
    requires room { at + 6 * length bytes.now ≤ length text.old }
    ensures few { result.1 ≤ 16 }
    ensures most { result.0 ≤ at + 6 * result.1 }
    ensures ascii { IsAscii (take result.1 bytes.now) }
    ensures text { take result.0 text.new ≡ take at text.old ++ flat_map json_byte (take result.1 bytes.now) }
{
    let v = u8x16::from_slice(bytes);
    v.copy_to_slice(&mut text[at..]);
    let len = plain_len(v);
    if len == 16 {
        return (at + 16, 16);
    }
    let byte = bytes[len];
    if byte > 0x7f {
        return (at + len, len);
    }
    (put_escape(text, at + len, byte), len + 1)
}

/// Whether bytes are UTF-8. Long ones are checked 64 at a time.
#[inline(always)]
fn is_utf8(bytes: &[u8]) -> bool
    ensures { IsTrue result ↔ IsUtf8 bytes.now }
{
    if bytes.len() >= 64 {
        return is_utf8_baseline(bytes);
    }
    str::from_utf8(bytes).is_ok()
}

/// Writes the content of a string if the bytes are UTF-8. `None`: they aren't.
#[inline(never)]
fn put_checked_content(text: &mut [u8], at: usize, bytes: &[u8]) -> Option<usize>
    requires { at + 6 * length bytes.now ≤ length text.old }
    ensures utf8 { MatchOption result (¬ (IsUtf8 bytes.now)) (λ end. IsUtf8 bytes.now) }
    ensures most { IfSome result (λ end. end ≤ at + 6 * length bytes.now) }
    ensures text { IfSome result (λ end. take end text.new ≡ take at text.old ++ flat_map json_byte bytes.now) }
    ensures none { IfNone result (take at text.new ≡ take at text.old) }
{
    if !is_utf8(bytes) {
        return None;
    }
    Some(put_string_content(text, at, bytes))
}

/// Does the same; the bytes before the first that isn't ASCII aren't checked apart.
#[inline(always)]
fn put_utf8_content(text: &mut [u8], at: usize, bytes: &[u8]) -> Option<usize>
    requires { at + 6 * length bytes.now ≤ length text.old }
    ensures utf8 { MatchOption result (¬ (IsUtf8 bytes.now)) (λ end. IsUtf8 bytes.now) }
    ensures most { IfSome result (λ end. end ≤ at + 6 * length bytes.now) }
    ensures text { IfSome result (λ end. take end text.new ≡ take at text.old ++ flat_map json_byte bytes.now) }
    ensures none { IfNone result (take at text.new ≡ take at text.old) }
{
    let mut end = at;
    let mut rest = bytes;
    while rest.len() >= 16 {
        let (next, len) = put_ascii_run(text, end, rest);
        if len == 0 {
            return put_checked_content(text, end, rest);
        }
        let (_, after) = rest.split_at(len);
        end = next;
        rest = after;
    }
    put_last_utf8(text, end, rest)
}

/// Writes the last bytes of a string if they are UTF-8. `None`: they aren't.
#[inline(always)]
fn put_last_utf8(text: &mut [u8], at: usize, bytes: &[u8]) -> Option<usize>
    requires few { length bytes.now ≤ 16 }
    requires room { at + 6 * length bytes.now ≤ length text.old }
    ensures utf8 { MatchOption result (¬ (IsUtf8 bytes.now)) (λ end. IsUtf8 bytes.now) }
    ensures most { IfSome result (λ end. end ≤ at + 6 * length bytes.now) }
    ensures text { IfSome result (λ end. take end text.new ≡ take at text.old ++ flat_map json_byte bytes.now) }
    ensures none { IfNone result (take at text.new ≡ take at text.old) }
{
    match put_plain(text, at, bytes) {
        Some(end) => Some(end),
        None => put_checked_content(text, at, bytes),
    }
}

/// Writes bytes as a string if they are UTF-8. `None`: they aren't.
#[inline(always)]
pub fn put_utf8_string(text: &mut [u8], at: usize, bytes: &[u8]) -> Option<usize>
    requires { at + (6 * length bytes.now + 2) ≤ length text.old }
    ensures utf8 { MatchOption result (¬ (IsUtf8 bytes.now)) (λ end. IsUtf8 bytes.now) }
    ensures most { IfSome result (λ end. end ≤ at + (6 * length bytes.now + 2)) }
    ensures text { IfSome result (λ end. take end text.new ≡ take at text.old ++ json_string bytes.now) }
    ensures none { IfNone result (take at text.new ≡ take at text.old) }
{
    let start = put_byte(text, at, b'"');
    let end = put_utf8_content(text, start, bytes)?;
    Some(put_byte(text, end, b'"'))
}

/// Writes the first `len` of sixteen bytes as a string if they are ASCII and need no escape. `None`: they aren't, and the text is
/// unchanged.
#[inline(always)]
pub fn put_plain_string(text: &mut [u8], at: usize, bytes: &[u8], len: usize) -> Option<usize>
    requires few { len ≤ 16 }
    requires sixteen { 16 ≤ length bytes.now }
    requires room { at + 18 ≤ length text.old }
    ensures none { IfNone result (text.new ≡ text.old) }
    ensures other { IfNone result (length (take_while is_plain (take 16 bytes.now)) < len) }
    ensures ascii { IfSome result (λ end. IsAscii (take len bytes.now)) }
    ensures end { IfSome result (λ end. end ≡ at + len + 2) }
    ensures text { IfSome result (λ end. take end text.new ≡ take at text.old ++ json_string (take len bytes.now)) }
{
    let v = u8x16::from_slice(bytes);
    if plain_len(v) < len {
        return None;
    }
    let start = put_byte(text, at, b'"');
    v.copy_to_slice(&mut text[start..]);
    Some(put_byte(text, start + len, b'"'))
}
