//! Quoted bytes, sixteen or eight at a time.

ghost use Rattle.std.specs.Prelude.{◌≡◌, ◌≤◌, ◌<◌, ◌+◌, ◌-◌, ◌*◌, ◌++◌, IfNone, IfSome, length, take, drop, take_while, replicate, if◌then◌else◌};
ghost use Rattle.std.specs.List.{flat_map};
ghost use Rattle.feed_writers.specs.Quoting.{is_plain_byte, quoted, quoted_byte};

use crate::blocks::{first_bytes, last_bytes, put_run};
use crate::digits::put_bytes;
use crate::escapes::{put_escape, put_hex};
use crate::plain::{are_eight_plain, are_four_plain, is_plain, sixteen_plain_len};
use rows_values::put_byte;
use std::simd::prelude::*;

/// Writes bytes in single quotes.
#[inline(always)]
pub fn put_quoted(text: &mut [u8], at: usize, bytes: &[u8]) -> usize
    requires { at + (3 * length bytes.now + 2) ≤ length text.old }
    ensures most { result ≤ at + (3 * length bytes.now + 2) }
    ensures text { take result text.new ≡ take at text.old ++ quoted bytes.now }
{
    let start = put_byte(text, at, b'\'');
    let end = put_quoted_content(text, start, bytes);
    put_byte(text, end, b'\'')
}

/// Writes the first `len` of sixteen bytes in single quotes if none of them needs an escape; else leaves the text unchanged and
/// returns `None`.
#[inline(always)]
pub fn put_plain_quoted(text: &mut [u8], at: usize, bytes: &[u8], len: usize) -> Option<usize>
    requires few { len ≤ 16 }
    requires sixteen { 16 ≤ length bytes.now }
    requires room { at + 18 ≤ length text.old }
    ensures none { IfNone result (text.new ≡ text.old) }
    ensures other { IfNone result (length (take_while is_plain_byte (take 16 bytes.now)) < len) }
    ensures end { IfSome result (λ end. end ≡ at + len + 2) }
    ensures text { IfSome result (λ end. take end text.new ≡ take at text.old ++ quoted (take len bytes.now)) }
{
    if sixteen_plain_len(bytes) < len {
        return None;
    }
    let start = put_byte(text, at, b'\'');
    put_bytes(text, start, &bytes[..16]);
    Some(put_byte(text, start + len, b'\''))
}

/// Writes the first `len` of sixteen bytes in single quotes. It is fast if none of them needs an escape, or one.
#[inline(always)]
pub fn put_few_quoted(text: &mut [u8], at: usize, bytes: &[u8], len: usize) -> usize
    requires few { len ≤ 16 }
    requires sixteen { 16 ≤ length bytes.now }
    requires room { at + 66 ≤ length text.old }
    ensures most { result ≤ at + (3 * len + 2) }
    ensures text { take result text.new ≡ take at text.old ++ quoted (take len bytes.now) }
{
    match put_plain_quoted(text, at, bytes, len) {
        Some(end) => end,
        None => put_escaped_quoted(text, at, bytes, len),
    }
}

/// Does the same if some of the bytes need an escape.
#[inline(never)]
fn put_escaped_quoted(text: &mut [u8], at: usize, bytes: &[u8], len: usize) -> usize
    requires few { len ≤ 16 }
    requires sixteen { 16 ≤ length bytes.now }
    requires room { at + 66 ≤ length text.old }
    ensures most { result ≤ at + (3 * len + 2) }
    ensures text { take result text.new ≡ take at text.old ++ quoted (take len bytes.now) }
{
    let start = put_byte(text, at, b'\'');
    let (next, written) = put_run_within(text, start, bytes, len);
    let end = put_short(text, next, &bytes[written..len]);
    put_byte(text, end, b'\'')
}

/// Writes some of the first `len` of sixteen bytes as they are written between quotes: up to the first that needs an escape, if one
/// or two of them do. Returns the end of the text and how many bytes were written.
#[inline(always)]
fn put_run_within(text: &mut [u8], at: usize, bytes: &[u8], len: usize) -> (usize, usize)
    requires few { len ≤ 16 }
    requires sixteen { 16 ≤ length bytes.now }
    requires room { at + 52 ≤ length text.old }
    ensures few { result.1 ≤ len }
    ensures most { result.0 ≤ at + 3 * result.1 }
    ensures text { take result.0 text.new ≡ take at text.old ++ flat_map quoted_byte (take result.1 bytes.now) }
{
    let (next, written) = put_run(text, at, first_bytes(bytes, len));
    if written > len {
        return (at, 0);
    }
    (next, written)
}

/// Writes bytes as they are written between quotes.
#[inline(always)]
pub fn put_quoted_content(text: &mut [u8], at: usize, bytes: &[u8]) -> usize
    requires { at + 3 * length bytes.now ≤ length text.old }
    ensures most { result ≤ at + 3 * length bytes.now }
    ensures text { take result text.new ≡ take at text.old ++ flat_map quoted_byte bytes.now }
{
    if bytes.len() >= 18 {
        return put_long(text, at, bytes);
    }
    put_short(text, at, bytes)
}

/// Writes bytes as they are written between quotes, up to sixteen at a time.
#[inline(never)]
fn put_long(text: &mut [u8], at: usize, bytes: &[u8]) -> usize
    requires long { 16 ≤ length bytes.now }
    requires room { at + 3 * length bytes.now ≤ length text.old }
    ensures most { result ≤ at + 3 * length bytes.now }
    ensures text { take result text.new ≡ take at text.old ++ flat_map quoted_byte bytes.now }
{
    let mut end = at;
    let mut rest = bytes;
    while rest.len() >= 18 {
        let (next, len) = put_run(text, end, u8x16::from_slice(rest));
        let (_, after) = rest.split_at(len);
        end = next;
        rest = after;
    }
    put_last(text, end, bytes, rest)
}

/// Writes the last bytes as they are written between quotes, up to sixteen at a time while the text has room for as many.
#[inline(never)]
fn put_last(text: &mut [u8], at: usize, bytes: &[u8], last: &[u8]) -> usize
    requires long { 16 ≤ length bytes.now }
    requires few { length last.now ≤ length bytes.now }
    requires last { last.now ≡ drop (length bytes.now - length last.now) bytes.now }
    requires room { at + 3 * length last.now ≤ length text.old }
    ensures most { result ≤ at + 3 * length last.now }
    ensures text { take result text.new ≡ take at text.old ++ flat_map quoted_byte last.now }
{
    let mut end = at;
    let mut rest = last;
    while text.len() - end >= 52 {
        let (next, len) = put_run(text, end, next_bytes(bytes, rest));
        if len >= rest.len() {
            return next - (len - rest.len());
        }
        let (_, after) = rest.split_at(len);
        end = next;
        rest = after;
    }
    put_short(text, end, rest)
}

/// The first sixteen of the bytes that remain; if they are fewer, spaces are after them.
#[inline(always)]
fn next_bytes(bytes: &[u8], rest: &[u8]) -> u8x16
    requires long { 16 ≤ length bytes.now }
    requires few { length rest.now ≤ length bytes.now }
    requires rest { rest.now ≡ drop (length bytes.now - length rest.now) bytes.now }
    ensures full { 16 ≤ length rest.now → result ≡ take 16 rest.now }
    ensures padded { length rest.now ≤ 16 → result ≡ rest.now ++ replicate (16 - length rest.now) 32 }
{
    if rest.len() >= 16 {
        return u8x16::from_slice(rest);
    }
    last_bytes(bytes, rest.len())
}

/// Writes bytes as they are written between quotes, eight at a time.
#[inline(always)]
fn put_short(text: &mut [u8], at: usize, bytes: &[u8]) -> usize
    requires { at + 3 * length bytes.now ≤ length text.old }
    ensures most { result ≤ at + 3 * length bytes.now }
    ensures text { take result text.new ≡ take at text.old ++ flat_map quoted_byte bytes.now }
{
    let mut end = at;
    let mut rest = bytes;
    while rest.len() >= 8 {
        let (eight, after) = rest.split_at(8);
        end = put_eight_bytes(text, end, eight);
        rest = after;
    }
    put_few(text, end, rest)
}

/// Writes eight bytes as they are written between quotes.
#[inline(always)]
fn put_eight_bytes(text: &mut [u8], at: usize, bytes: &[u8]) -> usize
    requires eight { length bytes.now ≡ 8 }
    requires room { at + 24 ≤ length text.old }
    ensures most { result ≤ at + 24 }
    ensures text { take result text.new ≡ take at text.old ++ flat_map quoted_byte bytes.now }
{
    if are_eight_plain(bytes) {
        return put_bytes(text, at, bytes);
    }
    put_mixed(text, at, bytes)
}

/// Writes each byte as it is written between quotes, with the same steps for any bytes.
#[inline(always)]
fn put_mixed(text: &mut [u8], at: usize, bytes: &[u8]) -> usize
    requires { at + 3 * length bytes.now ≤ length text.old }
    ensures most { result ≤ at + 3 * length bytes.now }
    ensures text { take result text.new ≡ take at text.old ++ flat_map quoted_byte bytes.now }
{
    let mut end = at;
    for byte in bytes {
        end = put_either(text, end, *byte);
    }
    end
}

/// Writes a byte as it is written between quotes. Its digits are stored in any case, so that the processor needn't predict
/// whether they count.
#[inline(always)]
fn put_either(text: &mut [u8], at: usize, byte: u8) -> usize
    requires { at + 3 ≤ length text.old }
    ensures most { result ≤ at + 3 }
    ensures text { take result text.new ≡ take at text.old ++ quoted_byte byte }
{
    let plain = put_byte(text, at, first_of(byte));
    let escaped = put_hex(text, plain, byte);
    if is_plain(byte) { plain } else { escaped }
}

/// The first character of a byte between quotes: the byte, or a backslash.
#[inline(always)]
fn first_of(byte: u8) -> u8
    ensures { result ≡ (if is_plain_byte byte then byte else 92) }
{
    if is_plain(byte) { byte } else { b'\\' }
}

/// Writes fewer than eight bytes as they are written between quotes.
#[inline(always)]
fn put_few(text: &mut [u8], at: usize, bytes: &[u8]) -> usize
    requires { at + 3 * length bytes.now ≤ length text.old }
    ensures most { result ≤ at + 3 * length bytes.now }
    ensures text { take result text.new ≡ take at text.old ++ flat_map quoted_byte bytes.now }
{
    if bytes.len() >= 4 && are_four_plain(bytes) {
        let (four, after) = bytes.split_at(4);
        let end = put_bytes(text, at, four);
        return put_each(text, end, after);
    }
    put_each(text, at, bytes)
}

/// Writes each byte as it is written between quotes.
#[inline(always)]
fn put_each(text: &mut [u8], at: usize, bytes: &[u8]) -> usize
    requires { at + 3 * length bytes.now ≤ length text.old }
    ensures most { result ≤ at + 3 * length bytes.now }
    ensures text { take result text.new ≡ take at text.old ++ flat_map quoted_byte bytes.now }
{
    let mut end = at;
    for byte in bytes {
        end = put_one(text, end, *byte);
    }
    end
}

/// Writes a byte as it is written between quotes.
#[inline(always)]
fn put_one(text: &mut [u8], at: usize, byte: u8) -> usize
    requires { at + 3 ≤ length text.old }
    ensures most { result ≤ at + 3 }
    ensures text { take result text.new ≡ take at text.old ++ quoted_byte byte }
{
    if is_plain(byte) {
        return put_byte(text, at, byte);
    }
    put_escape(text, at, byte)
}
