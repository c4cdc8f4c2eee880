//! The text of the scalars of JSON documents, by way of their trees.

ghost use Rattle.std.specs.Prelude.{◌≡◌, ◌+◌, ◌*◌, ◌++◌, IfSome, OnOk, IfErr, true, length, take};
ghost use Rattle.std.specs.Str.{is_utf8};
ghost use Rattle.rows_jsonb.specs.JsonTreeViews.{scalar_view, number_view};
ghost use Rattle.std.specs.Fmt.{signed_decimal};
ghost use Rattle.feed_text.specs.TextPieces.{IsAppendError};
ghost use Rattle.feed_text.specs.DocumentForms.{IsScalarIn, AppendsOne};

use crate::document_form::DocumentForm;
use crate::pieces::append_all;
use feed_writers::put_signed;
use rows_errors::RowsError;
use rows_jsonb::{JsonNumber, JsonScalar};
use rows_values::MysqlTime;
use std::alloc::Allocator;

/// The room that a string or key takes besides the texts of its bytes.
const STRING_ROOM: usize = 24;

/// Returns the room for a string or key of this length; `None` if there can't be as much.
#[inline(always)]
pub fn string_room<F: DocumentForm>(len: usize) -> Option<usize>
    ensures { IfSome result (λ room. room ≡ F.ESCAPE_LEN * len + 24) }
{
    len.checked_mul(F::ESCAPE_LEN)?.checked_add(STRING_ROOM)
}

/// Appends the text of a scalar. An error may leave a part of it.
#[tactic(auto, using(crate::proofs::QuoteLemmas::kept_either), unfolding(crate::specs::DocumentForms::IsScalarIn))]
pub(crate) fn append_scalar<A: Allocator, F: DocumentForm>(
    scalar: &JsonScalar,
    out: &mut Vec<u8, A>,
) -> Result<(), RowsError>
    ensures ok { OnOk result (AppendsOne (IsScalarIn F.form (scalar_view scalar.now)) out.old.items out.new.items) }
    ensures kept { take (length out.old.items) out.new.items ≡ out.old.items }
{
    match scalar {
        JsonScalar::Null => append_all(&[b"null".as_slice()], out),
        JsonScalar::Boolean(true) => append_all(&[b"true".as_slice()], out),
        JsonScalar::Boolean(false) => append_all(&[b"false".as_slice()], out),
        JsonScalar::Number(number) => append_number::<A, F>(number, out),
        JsonScalar::String(string) => append_string::<A, F>(string.as_bytes(), out),
        JsonScalar::DateTime(time) => append_time::<A, F>(time, out),
        JsonScalar::Opaque(opaque) => {
            F::append_opaque(u8::from(opaque.field_type()), opaque.value(), out)
        }
    }
}

/// Appends the text of a number. An error may leave a part of it.
#[tactic(auto, using(crate::proofs::QuoteLemmas::kept_either), unfolding(crate::specs::DocumentForms::IsScalarIn))]
fn append_number<A: Allocator, F: DocumentForm>(
    number: &JsonNumber,
    out: &mut Vec<u8, A>,
) -> Result<(), RowsError>
    ensures ok { OnOk result (AppendsOne (IsScalarIn F.form (number_view number.now)) out.old.items out.new.items) }
    ensures kept { take (length out.old.items) out.new.items ≡ out.old.items }
{
    match number {
        JsonNumber::Int(number) => append_int(*number, out),
        JsonNumber::Uint(number) => append_uint::<A, F>(*number, out),
        JsonNumber::Double(bits) => append_double::<A, F>(*bits, out),
        JsonNumber::Decimal(decimal) => F::append_decimal(decimal, out),
    }
}

/// The maximum length of an integer's text in bytes.
const NUMBER_LEN_MAX: usize = 24;

/// The room for a double's text in bytes.
const DOUBLE_ROOM: usize = 32;

/// Appends an integer, or nothing.
fn append_int<A: Allocator>(number: i64, out: &mut Vec<u8, A>) -> Result<(), RowsError>
    ensures ok { OnOk result (out.new.items ≡ out.old.items ++ signed_decimal number) }
    ensures err { IfErr result (λ e. IsAppendError e out.old.items out.new.items) }
{
    let start = out.len();
    out.resize(start + NUMBER_LEN_MAX, 0)?;
    let end = put_signed(out.as_mut_slice(), start, number);
    out.truncate(end);
    Ok(())
}

/// Appends an unsigned integer, or nothing.
fn append_uint<A: Allocator, F: DocumentForm>(
    number: u64,
    out: &mut Vec<u8, A>,
) -> Result<(), RowsError>
    ensures ok { OnOk result (out.new.items ≡ out.old.items ++ F.form.uint number) }
    ensures err { IfErr result (λ e. IsAppendError e out.old.items out.new.items) }
{
    let start = out.len();
    out.resize(start + NUMBER_LEN_MAX, 0)?;
    let end = F::put_uint(out.as_mut_slice(), start, number);
    out.truncate(end);
    Ok(())
}

/// Appends a double, or nothing.
fn append_double<A: Allocator, F: DocumentForm>(
    bits: u64,
    out: &mut Vec<u8, A>,
) -> Result<(), RowsError>
    ensures ok { OnOk result (AppendsOne (F.form.IsDouble bits) out.old.items out.new.items) }
    ensures kept { take (length out.old.items) out.new.items ≡ out.old.items }
{
    let start = out.len();
    out.resize(start + DOUBLE_ROOM, 0)?;
    let end = F::put_double(out.as_mut_slice(), start, bits);
    out.truncate(end);
    Ok(())
}

/// Appends a string, or nothing.
fn append_string<A: Allocator, F: DocumentForm>(
    bytes: &[u8],
    out: &mut Vec<u8, A>,
) -> Result<(), RowsError>
    requires { is_utf8 bytes.now ≡ true }
    ensures ok { OnOk result (out.new.items ≡ out.old.items ++ F.form.string bytes.now) }
    ensures err { IfErr result (λ e. IsAppendError e out.old.items out.new.items) }
{
    let start = out.len();
    let Some(room) = string_room::<F>(bytes.len()) else {
        return Err(RowsError::Memory);
    };
    make_room(room, out)?;
    let Some(end) = F::put_string(out.as_mut_slice(), start, bytes) else {
        unreachable!()
    };
    out.truncate(end);
    Ok(())
}

/// Appends the text of a key, or nothing.
pub(crate) fn append_key<A: Allocator, F: DocumentForm>(
    bytes: &[u8],
    out: &mut Vec<u8, A>,
) -> Result<(), RowsError>
    requires { is_utf8 bytes.now ≡ true }
    ensures ok { OnOk result (out.new.items ≡ out.old.items ++ F.form.key bytes.now) }
    ensures err { IfErr result (λ e. IsAppendError e out.old.items out.new.items) }
{
    let start = out.len();
    let Some(room) = string_room::<F>(bytes.len()) else {
        return Err(RowsError::Memory);
    };
    make_room(room, out)?;
    let Some(end) = F::put_key(out.as_mut_slice(), start, bytes) else {
        unreachable!()
    };
    out.truncate(end);
    Ok(())
}

/// Appends zeros, or nothing.
fn make_room<A: Allocator>(room: usize, out: &mut Vec<u8, A>) -> Result<(), RowsError>
    ensures room { OnOk result (length out.new.items ≡ length out.old.items + room) }
    ensures kept { OnOk result (take (length out.old.items) out.new.items ≡ out.old.items) }
    ensures err { IfErr result (λ e. IsAppendError e out.old.items out.new.items) }
{
    let Some(len) = out.len().checked_add(room) else {
        return Err(RowsError::Memory);
    };
    out.resize(len, 0)?;
    Ok(())
}

/// The maximum length of a date and time of day, in bytes.
const MOMENT_LEN_MAX: usize = 96;

/// Appends a date, a time, or both; or nothing.
fn append_time<A: Allocator, F: DocumentForm>(
    time: &MysqlTime,
    out: &mut Vec<u8, A>,
) -> Result<(), RowsError>
    ensures ok { OnOk result (out.new.items ≡ out.old.items ++ F.form.time time.now) }
    ensures err { IfErr result (λ e. IsAppendError e out.old.items out.new.items) }
{
    let start = out.len();
    out.resize(start + MOMENT_LEN_MAX, 0)?;
    let end = F::put_time(out.as_mut_slice(), start, time);
    out.truncate(end);
    Ok(())
}
