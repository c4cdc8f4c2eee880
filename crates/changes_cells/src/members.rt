//! Members of ENUM and SET columns.

ghost use Rattle.std.specs.Prelude.{◌≡◌, ◌≤◌, ◌<◌, ◌+◌, ◌++◌, IfSome, IfNone, OnOk, OnErr, length, map, take};
ghost use Rattle.feed_text.specs.Buffers.{text_in};
ghost use Rattle.feed_text.specs.DirectText.{separator};
ghost use Rattle.std.specs.List.{join_with_byte};
ghost use Rattle.changes_cells.specs.CellJson.{member_json, bit_json, has_bit, bit_texts, members_json};

use feed_text::TextBuffer;
use feed_writers::{put_bytes, put_number};
use std::alloc::{AllocError, Allocator};

/// The maximum length of a member that is written with room for short texts.
const SHORT_MEMBER_LEN_MAX: usize = 256;

/// Writes the member of an ENUM, or its number if there is none. `None`: it is long.
pub(crate) fn put_member(
    text: &mut [u8],
    at: usize,
    members: &[Vec<u8>],
    number: u64,
) -> Option<usize>
    requires { at + 400 ≤ length text.old }
    ensures most { IfSome result (λ end. end ≤ at + 400) }
    ensures text { IfSome result (λ end. take end text.new ≡ take at text.old ++ member_json (map (λ m. m.items) members.now) number) }
    ensures none { IfNone result (text.new ≡ text.old) }
{
    if number == 0 {
        return Some(put_number(text, at, 0));
    }
    match members.get((number - 1) as usize) {
        Some(name) if name.len() <= SHORT_MEMBER_LEN_MAX => Some(put_bytes(text, at, name)),
        Some(_) => None,
        None => Some(put_number(text, at, number)),
    }
}

/// Appends the member of an ENUM, or its number if there is none. An error appends nothing.
pub(crate) fn append_member<A: Allocator>(
    members: &[Vec<u8>],
    number: u64,
    text: &mut TextBuffer<A>,
) -> Result<(), AllocError>
    ensures ok { OnOk result (text_in text.new ≡ text_in text.old ++ member_json (map (λ m. m.items) members.now) number) }
    ensures err { OnErr result (text_in text.new ≡ text_in text.old) }
{
    if number == 0 {
        return text.put_number(0);
    }
    match members.get((number - 1) as usize) {
        Some(name) => text.put_text(name),
        None => text.put_number(number),
    }
}

/// Whether a bit is set.
#[inline(always)]
fn has_bit(bits: u64, index: u32) -> bool
    requires { index < 64 }
    ensures { result ≡ has_bit bits index }
{
    (bits >> index) & 1 == 1
}

/// Appends the member of a SET with this bit, or the bit's value if there is none. An error appends nothing.
fn append_bit<A: Allocator>(
    members: &[Vec<u8>],
    index: u32,
    text: &mut TextBuffer<A>,
) -> Result<(), AllocError>
    requires { index < 64 }
    ensures ok { OnOk result (text_in text.new ≡ text_in text.old ++ bit_json (map (λ m. m.items) members.now) index) }
    ensures err { OnErr result (text_in text.new ≡ text_in text.old) }
{
    match members.get(index as usize) {
        Some(name) => text.put_text(name),
        None => text.put_number(1u64 << index),
    }
}

/// Appends a comma, except before the first element. An error appends nothing.
fn append_separator<A: Allocator>(
    is_first: bool,
    text: &mut TextBuffer<A>,
) -> Result<(), AllocError>
    ensures ok { OnOk result (text_in text.new ≡ text_in text.old ++ separator is_first) }
    ensures err { OnErr result (text_in text.new ≡ text_in text.old) }
{
    if is_first {
        return Ok(());
    }
    text.put(b',')
}

/// Appends the members of a SET, with a comma between each two. An error may leave a part of this.
fn append_bits<A: Allocator>(
    members: &[Vec<u8>],
    bits: u64,
    text: &mut TextBuffer<A>,
) -> Result<(), AllocError>
    ensures ok { OnOk result (text_in text.new ≡ text_in text.old ++ join_with_byte 44 (bit_texts (map (λ m. m.items) members.now) bits 64)) }
    ensures kept { take (length (text_in text.old)) (text_in text.new) ≡ text_in text.old }
{
    let mut is_first = true;
    for index in 0..64u32 {
        if !has_bit(bits, index) {
            continue;
        }
        append_separator(is_first, text)?;
        append_bit(members, index, text)?;
        is_first = false;
    }
    Ok(())
}

/// Appends the members of a SET as an array, or the number of its bits if its members aren't known. An error may leave a part of
/// it.
#[tactic(auto, unfolding(crate::specs::CellJson::members_json))]
pub(crate) fn append_members<A: Allocator>(
    members: &[Vec<u8>],
    bits: u64,
    text: &mut TextBuffer<A>,
) -> Result<(), AllocError>
    ensures ok { OnOk result (text_in text.new ≡ text_in text.old ++ members_json (map (λ m. m.items) members.now) bits) }
    ensures kept { take (length (text_in text.old)) (text_in text.new) ≡ text_in text.old }
{
    if members.is_empty() {
        return text.put_number(bits);
    }
    text.put(b'[')?;
    append_bits(members, bits, text)?;
    text.put(b']')
}
