//! The strings and keys of JSON documents. Short ones are tested and copied as sixteen bytes.

ghost use Rattle.std.specs.Prelude.{◌≡◌, ◌≤◌, ◌+◌, ◌∷◌, ◌++◌, [], OnOk, OnErr, true, length, take};
ghost use Rattle.std.specs.Str.{is_utf8};
ghost use Rattle.feed_text.specs.Buffers.{text_in};
ghost use Rattle.feed_text.specs.DirectText.{separator};

use crate::buffer::TextBuffer;
use crate::direct_parts::NotDirect;
use crate::document_form::DocumentForm;
use crate::json_scalars::string_room;
use feed_writers::put_byte;
use std::alloc::Allocator;

/// The length of a block of bytes that is tested and copied at once.
const BLOCK_LEN: usize = 16;

/// Appends the first `len` bytes as a string, or nothing.
#[inline(always)]
pub(crate) fn append_first<A: Allocator, F: DocumentForm>(
    out: &mut TextBuffer<A>,
    bytes: &[u8],
    len: usize,
) -> Result<(), NotDirect>
    requires { len ≤ length bytes.now }
    ensures ok { OnOk result (text_in out.new ≡ text_in out.old ++ F.form.string (take len bytes.now)) }
    ensures utf8 { OnOk result (is_utf8 (take len bytes.now) ≡ true) }
    ensures err { OnErr result (text_in out.new ≡ text_in out.old) }
{
    if len <= BLOCK_LEN && bytes.len() >= BLOCK_LEN {
        out.reserve(BLOCK_LEN + 2)?;
        if let Some(end) = F::put_short_string(out.bytes.as_mut_slice(), out.len, bytes, len) {
            out.len = end;
            return Ok(());
        }
    }
    append_string::<A, F>(out, &bytes[..len])
}

/// Appends a comma unless `is_first`, the first `len` bytes as a key, and a colon. An error may leave a part of this.
#[inline(always)]
pub(crate) fn append_key<A: Allocator, F: DocumentForm>(
    out: &mut TextBuffer<A>,
    is_first: bool,
    bytes: &[u8],
    len: usize,
) -> Result<(), NotDirect>
    requires { len ≤ length bytes.now }
    ensures ok { OnOk result (text_in out.new ≡ (text_in out.old ++ separator is_first) ++ (F.form.key (take len bytes.now) ++ 58 ∷ [])) }
    ensures utf8 { OnOk result (is_utf8 (take len bytes.now) ≡ true) }
    ensures kept { take (length (text_in out.old)) (text_in out.new) ≡ text_in out.old }
{
    if len <= BLOCK_LEN && bytes.len() >= BLOCK_LEN {
        out.reserve(BLOCK_LEN + 4)?;
        let start = put_separator(out.bytes.as_mut_slice(), out.len, is_first);
        if let Some(end) = F::put_short_key(out.bytes.as_mut_slice(), start, bytes, len) {
            out.len = put_byte(out.bytes.as_mut_slice(), end, b':');
            return Ok(());
        }
    }
    append_any_key::<A, F>(out, is_first, &bytes[..len])
}

/// Writes a comma, which counts unless `is_first`.
#[inline(always)]
fn put_separator(text: &mut [u8], at: usize, is_first: bool) -> usize
    requires { at + 1 ≤ length text.old }
    ensures most { result ≤ at + 1 }
    ensures text { take result text.new ≡ take at text.old ++ separator is_first }
    ensures kept { take at text.new ≡ take at text.old }
{
    let end = put_byte(text, at, b',');
    if is_first { at } else { end }
}

/// Appends a comma unless `is_first`, a key and a colon. An error may leave a part of this.
#[inline(never)]
fn append_any_key<A: Allocator, F: DocumentForm>(
    out: &mut TextBuffer<A>,
    is_first: bool,
    key: &[u8],
) -> Result<(), NotDirect>
    ensures ok { OnOk result (text_in out.new ≡ (text_in out.old ++ separator is_first) ++ (F.form.key key.now ++ 58 ∷ [])) }
    ensures utf8 { OnOk result (is_utf8 key.now ≡ true) }
    ensures kept { take (length (text_in out.old)) (text_in out.new) ≡ text_in out.old }
{
    append_separator(out, is_first)?;
    append_key_text::<A, F>(out, key)?;
    out.put(b':')?;
    Ok(())
}

/// Appends a string, or nothing.
#[inline(never)]
fn append_string<A: Allocator, F: DocumentForm>(
    out: &mut TextBuffer<A>,
    bytes: &[u8],
) -> Result<(), NotDirect>
    ensures ok { OnOk result (text_in out.new ≡ text_in out.old ++ F.form.string bytes.now) }
    ensures utf8 { OnOk result (is_utf8 bytes.now ≡ true) }
    ensures err { OnErr result (text_in out.new ≡ text_in out.old) }
{
    if bytes.len() < BLOCK_LEN {
        let mut block = [b' '; BLOCK_LEN];
        block[..bytes.len()].copy_from_slice(bytes);
        out.reserve(BLOCK_LEN + 2)?;
        let text = out.bytes.as_mut_slice();
        if let Some(end) = F::put_short_string(text, out.len, &block, bytes.len()) {
            out.len = end;
            return Ok(());
        }
    }
    let Some(room) = string_room::<F>(bytes.len()) else {
        return Err(NotDirect);
    };
    out.reserve(room)?;
    let Some(end) = F::put_string(out.bytes.as_mut_slice(), out.len, bytes) else {
        return Err(NotDirect);
    };
    out.len = end;
    Ok(())
}

/// Appends the text of a key, or nothing.
#[inline(never)]
fn append_key_text<A: Allocator, F: DocumentForm>(
    out: &mut TextBuffer<A>,
    bytes: &[u8],
) -> Result<(), NotDirect>
    ensures ok { OnOk result (text_in out.new ≡ text_in out.old ++ F.form.key bytes.now) }
    ensures utf8 { OnOk result (is_utf8 bytes.now ≡ true) }
    ensures err { OnErr result (text_in out.new ≡ text_in out.old) }
{
    if bytes.len() < BLOCK_LEN {
        let mut block = [b' '; BLOCK_LEN];
        block[..bytes.len()].copy_from_slice(bytes);
        out.reserve(BLOCK_LEN + 2)?;
        let text = out.bytes.as_mut_slice();
        if let Some(end) = F::put_short_key(text, out.len, &block, bytes.len()) {
            out.len = end;
            return Ok(());
        }
    }
    let Some(room) = string_room::<F>(bytes.len()) else {
        return Err(NotDirect);
    };
    out.reserve(room)?;
    let Some(end) = F::put_key(out.bytes.as_mut_slice(), out.len, bytes) else {
        return Err(NotDirect);
    };
    out.len = end;
    Ok(())
}

/// Appends a comma, except before the first element.
#[inline(always)]
pub(crate) fn append_separator<A: Allocator>(
    out: &mut TextBuffer<A>,
    is_first: bool,
) -> Result<(), NotDirect>
    ensures ok { OnOk result (text_in out.new ≡ text_in out.old ++ separator is_first) }
    ensures err { OnErr result (text_in out.new ≡ text_in out.old) }
{
    if is_first {
        return Ok(());
    }
    out.put(b',')?;
    Ok(())
}
