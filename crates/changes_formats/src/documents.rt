//! JSON documents, with the values that JSON lacks as the originals print them.

ghost use Rattle.std.specs.Prelude.{◌≡◌, ◌+◌, ◌++◌, OnOk, IfErr, length, take};
ghost use Rattle.rows_errors.specs.declared.fault.RowsError.TheVariants.{Memory};
ghost use Rattle.changes_writers.specs.Base64Texts.{base64_string};
ghost use Rattle.changes_formats.specs.EnvelopeDocuments.{envelope_form};

use changes_writers::{
    base64_len, put_base64_string, put_double, put_plain_string, put_utf8_string,
};
use feed_text::{DocumentForm, put_temporal};
use feed_writers::{put_byte, put_number};
use rows_errors::RowsError;
use rows_values::{Decimal, MysqlTime};
use std::alloc::Allocator;

/// The length of the quotes of a string.
const QUOTES_LEN: usize = 2;

/// The form of documents: a decimal is a number; a date or a time is a string, and the bytes of a value of another type are one in Base64.
pub(crate) struct EnvelopeForm;

impl DocumentForm for EnvelopeForm {
    ghost form = { envelope_form };

    const ESCAPE_LEN: usize = 6;

    ghost ESCAPE_LEN = { 6 };

    #[inline(always)]
    fn put_uint(text: &mut [u8], at: usize, number: u64) -> usize {
        put_number(text, at, number)
    }

    #[inline(always)]
    fn put_double(text: &mut [u8], at: usize, bits: u64) -> usize {
        put_double(text, at, bits)
    }

    #[inline(always)]
    fn put_short_string(text: &mut [u8], at: usize, bytes: &[u8], len: usize) -> Option<usize> {
        put_plain_string(text, at, bytes, len)
    }

    #[inline(always)]
    fn put_string(text: &mut [u8], at: usize, bytes: &[u8]) -> Option<usize> {
        put_utf8_string(text, at, bytes)
    }

    #[inline(always)]
    fn put_short_key(text: &mut [u8], at: usize, bytes: &[u8], len: usize) -> Option<usize> {
        put_plain_string(text, at, bytes, len)
    }

    #[inline(always)]
    fn put_key(text: &mut [u8], at: usize, bytes: &[u8]) -> Option<usize> {
        put_utf8_string(text, at, bytes)
    }

    fn put_time(text: &mut [u8], at: usize, time: &MysqlTime) -> usize {
        let start = put_byte(text, at, b'"');
        let end = put_temporal(text, start, time);
        put_byte(text, end, b'"')
    }

    fn append_decimal<A: Allocator>(
        decimal: &Decimal,
        out: &mut Vec<u8, A>,
    ) -> Result<(), RowsError> {
        decimal.append_text(out)?;
        Ok(())
    }

    fn append_opaque<A: Allocator>(
        _number: u8,
        bytes: &[u8],
        out: &mut Vec<u8, A>,
    ) -> Result<(), RowsError> {
        append_base64(bytes, out)
    }
}

/// Lengthens a text by zeros, or leaves it unchanged. `Memory`: out of memory.
fn make_room<A: Allocator>(room: usize, out: &mut Vec<u8, A>) -> Result<(), RowsError>
    ensures room { OnOk result (length out.new.items ≡ length out.old.items + room) }
    ensures text { OnOk result (take (length out.old.items) out.new.items ≡ out.old.items) }
    ensures err { IfErr result (λ e. e ≡ Memory) }
    ensures kept { take (length out.old.items) out.new.items ≡ out.old.items }
{
    let Some(len) = out.len().checked_add(room) else {
        return Err(RowsError::Memory);
    };
    out.resize(len, 0)?;
    Ok(())
}

/// Appends bytes in Base64 as a string. An error appends nothing. `Memory`: out of memory.
fn append_base64<A: Allocator>(bytes: &[u8], out: &mut Vec<u8, A>) -> Result<(), RowsError>
    ensures ok { OnOk result (out.new.items ≡ out.old.items ++ base64_string bytes.now) }
    ensures err { IfErr result (λ e. e ≡ Memory) }
    ensures kept { take (length out.old.items) out.new.items ≡ out.old.items }
{
    let start = out.len();
    make_room(base64_len(bytes) + QUOTES_LEN, out)?;
    let end = put_base64_string(out.as_mut_slice(), start, bytes);
    out.truncate(end);
    Ok(())
}
