//! The scalars of JSON documents, directly from MySQL's binary JSON.

ghost use Rattle.std.specs.Prelude.{◌≡◌, ◌++◌, OnOk, OnErr};
ghost use Rattle.std.specs.Fmt.{signed_decimal};
ghost use Rattle.feed_text.specs.Buffers.{text_in};
ghost use Rattle.feed_text.specs.DocumentForms.{AppendsOne};
ghost use Rattle.feed_text.specs.DirectText.{WritesTypedScalar};

use crate::buffer::TextBuffer;
use crate::direct_parts::NotDirect;
use crate::document_form::DocumentForm;
use crate::short_strings::append_first;
use byteorder::{ByteOrder, LittleEndian};
use feed_writers::put_signed;
use std::alloc::Allocator;
use wire_buf::ParseBuf;
use wire_fields::{IntRepr, VarLen};

/// The maximum length of an integer's text in bytes.
const NUMBER_LEN_MAX: usize = 24;

/// The room for a double's text in bytes.
const DOUBLE_ROOM: usize = 32;

/// Appends the text of the scalar with this type byte that the bytes begin with, or nothing. It gives up on opaque values.
#[inline(always)]
pub(crate) fn write_scalar<A: Allocator, F: DocumentForm>(
    out: &mut TextBuffer<A>,
    type_byte: u8,
    bytes: &[u8],
) -> Result<(), NotDirect>
    ensures ok { OnOk result (WritesTypedScalar F.form type_byte bytes.now (text_in out.old) (text_in out.new)) }
    ensures err { OnErr result (text_in out.new ≡ text_in out.old) }
{
    match type_byte {
        4 => append_literal::<A, F>(out, bytes),
        5 => append_i16::<A, F>(out, bytes),
        6 => append_u16::<A, F>(out, bytes),
        7 => append_i32::<A, F>(out, bytes),
        8 => append_u32::<A, F>(out, bytes),
        9 => append_i64::<A, F>(out, bytes),
        10 => append_u64::<A, F>(out, bytes),
        11 => append_f64::<A, F>(out, bytes),
        12 => append_counted::<A, F>(out, bytes),
        _ => Err(NotDirect),
    }
}

/// Appends `null`, `true` or `false`, or nothing.
#[inline(always)]
fn append_literal<A: Allocator, F: DocumentForm>(
    out: &mut TextBuffer<A>,
    bytes: &[u8],
) -> Result<(), NotDirect>
    ensures ok { OnOk result (WritesTypedScalar F.form 4 bytes.now (text_in out.old) (text_in out.new)) }
    ensures err { OnErr result (text_in out.new ≡ text_in out.old) }
{
    if bytes.is_empty() {
        return Err(NotDirect);
    }
    match bytes[0] {
        0 => append(out, b"null"),
        1 => append(out, b"true"),
        2 => append(out, b"false"),
        _ => Err(NotDirect),
    }
}

/// Appends a signed number of 16 bits, or nothing.
#[inline(never)]
fn append_i16<A: Allocator, F: DocumentForm>(
    out: &mut TextBuffer<A>,
    bytes: &[u8],
) -> Result<(), NotDirect>
    ensures ok { OnOk result (WritesTypedScalar F.form 5 bytes.now (text_in out.old) (text_in out.new)) }
    ensures err { OnErr result (text_in out.new ≡ text_in out.old) }
{
    let Some(number) = ParseBuf(bytes).checked_eat_i16_le() else {
        return Err(NotDirect);
    };
    append_int(out, i64::from(number))
}

/// Appends an unsigned number of 16 bits, or nothing.
#[inline(never)]
fn append_u16<A: Allocator, F: DocumentForm>(
    out: &mut TextBuffer<A>,
    bytes: &[u8],
) -> Result<(), NotDirect>
    ensures ok { OnOk result (WritesTypedScalar F.form 6 bytes.now (text_in out.old) (text_in out.new)) }
    ensures err { OnErr result (text_in out.new ≡ text_in out.old) }
{
    let Some(number) = ParseBuf(bytes).checked_eat_u16_le() else {
        return Err(NotDirect);
    };
    append_uint::<A, F>(out, u64::from(number))
}

/// Appends a signed number of 32 bits, or nothing.
#[inline(never)]
fn append_i32<A: Allocator, F: DocumentForm>(
    out: &mut TextBuffer<A>,
    bytes: &[u8],
) -> Result<(), NotDirect>
    ensures ok { OnOk result (WritesTypedScalar F.form 7 bytes.now (text_in out.old) (text_in out.new)) }
    ensures err { OnErr result (text_in out.new ≡ text_in out.old) }
{
    let Some(number) = ParseBuf(bytes).checked_eat_i32_le() else {
        return Err(NotDirect);
    };
    append_int(out, i64::from(number))
}

/// Appends an unsigned number of 32 bits, or nothing.
#[inline(never)]
fn append_u32<A: Allocator, F: DocumentForm>(
    out: &mut TextBuffer<A>,
    bytes: &[u8],
) -> Result<(), NotDirect>
    ensures ok { OnOk result (WritesTypedScalar F.form 8 bytes.now (text_in out.old) (text_in out.new)) }
    ensures err { OnErr result (text_in out.new ≡ text_in out.old) }
{
    let Some(number) = ParseBuf(bytes).checked_eat_u32_le() else {
        return Err(NotDirect);
    };
    append_uint::<A, F>(out, u64::from(number))
}

/// Appends a signed number of 64 bits, or nothing.
#[inline(never)]
fn append_i64<A: Allocator, F: DocumentForm>(
    out: &mut TextBuffer<A>,
    bytes: &[u8],
) -> Result<(), NotDirect>
    ensures ok { OnOk result (WritesTypedScalar F.form 9 bytes.now (text_in out.old) (text_in out.new)) }
    ensures err { OnErr result (text_in out.new ≡ text_in out.old) }
{
    let Some(number) = ParseBuf(bytes).checked_eat_i64_le() else {
        return Err(NotDirect);
    };
    append_int(out, number)
}

/// Appends an unsigned number of 64 bits, or nothing.
#[inline(never)]
fn append_u64<A: Allocator, F: DocumentForm>(
    out: &mut TextBuffer<A>,
    bytes: &[u8],
) -> Result<(), NotDirect>
    ensures ok { OnOk result (WritesTypedScalar F.form 10 bytes.now (text_in out.old) (text_in out.new)) }
    ensures err { OnErr result (text_in out.new ≡ text_in out.old) }
{
    let Some(number) = ParseBuf(bytes).checked_eat_u64_le() else {
        return Err(NotDirect);
    };
    append_uint::<A, F>(out, number)
}

/// Appends a double, or nothing.
#[inline(always)]
fn append_f64<A: Allocator, F: DocumentForm>(
    out: &mut TextBuffer<A>,
    bytes: &[u8],
) -> Result<(), NotDirect>
    ensures ok { OnOk result (WritesTypedScalar F.form 11 bytes.now (text_in out.old) (text_in out.new)) }
    ensures err { OnErr result (text_in out.new ≡ text_in out.old) }
{
    let Some(bits) = ParseBuf(bytes).checked_eat_u64_le() else {
        return Err(NotDirect);
    };
    append_double::<A, F>(out, bits)
}

/// Appends a string that is after its length, or nothing.
#[inline(always)]
fn append_counted<A: Allocator, F: DocumentForm>(
    out: &mut TextBuffer<A>,
    bytes: &[u8],
) -> Result<(), NotDirect>
    ensures ok { OnOk result (WritesTypedScalar F.form 12 bytes.now (text_in out.old) (text_in out.new)) }
    ensures err { OnErr result (text_in out.new ≡ text_in out.old) }
{
    if bytes.is_empty() || bytes[0] >= 128 {
        return append_long::<A, F>(out, bytes);
    }
    let (first, rest) = bytes.split_at(1);
    let len = usize::from(first[0]);
    if rest.len() < len {
        return Err(NotDirect);
    }
    append_first::<A, F>(out, rest, len)
}

/// Appends a string that is after its length in any number of bytes, or nothing.
#[inline(never)]
fn append_long<A: Allocator, F: DocumentForm>(
    out: &mut TextBuffer<A>,
    bytes: &[u8],
) -> Result<(), NotDirect>
    ensures ok { OnOk result (WritesTypedScalar F.form 12 bytes.now (text_in out.old) (text_in out.new)) }
    ensures err { OnErr result (text_in out.new ≡ text_in out.old) }
{
    let mut rest = ParseBuf(bytes);
    let Ok(len) = VarLen::deserialize(&mut rest) else {
        return Err(NotDirect);
    };
    if rest.len() < len as usize {
        return Err(NotDirect);
    }
    append_first::<A, F>(out, rest.0, len as usize)
}

/// Appends bytes, or nothing.
#[inline(always)]
fn append<A: Allocator>(out: &mut TextBuffer<A>, bytes: &[u8]) -> Result<(), NotDirect>
    ensures ok { OnOk result (text_in out.new ≡ text_in out.old ++ bytes.now) }
    ensures err { OnErr result (text_in out.new ≡ text_in out.old) }
{
    out.put_text(bytes)?;
    Ok(())
}

/// Appends an integer, or nothing.
#[inline(always)]
fn append_int<A: Allocator>(out: &mut TextBuffer<A>, number: i64) -> Result<(), NotDirect>
    ensures ok { OnOk result (text_in out.new ≡ text_in out.old ++ signed_decimal number) }
    ensures err { OnErr result (text_in out.new ≡ text_in out.old) }
{
    out.reserve(NUMBER_LEN_MAX)?;
    out.len = put_signed(out.bytes.as_mut_slice(), out.len, number);
    Ok(())
}

/// Appends an unsigned integer, or nothing.
fn append_uint<A: Allocator, F: DocumentForm>(
    out: &mut TextBuffer<A>,
    number: u64,
) -> Result<(), NotDirect>
    ensures ok { OnOk result (text_in out.new ≡ text_in out.old ++ F.form.uint number) }
    ensures err { OnErr result (text_in out.new ≡ text_in out.old) }
{
    out.reserve(NUMBER_LEN_MAX)?;
    out.len = F::put_uint(out.bytes.as_mut_slice(), out.len, number);
    Ok(())
}

/// Appends a double, or nothing.
fn append_double<A: Allocator, F: DocumentForm>(
    out: &mut TextBuffer<A>,
    bits: u64,
) -> Result<(), NotDirect>
    ensures ok { OnOk result (AppendsOne (F.form.IsDouble bits) (text_in out.old) (text_in out.new)) }
    ensures err { OnErr result (text_in out.new ≡ text_in out.old) }
{
    out.reserve(DOUBLE_ROOM)?;
    out.len = F::put_double(out.bytes.as_mut_slice(), out.len, bits);
    Ok(())
}
