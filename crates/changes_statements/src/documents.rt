//! JSON documents.

ghost use Rattle.std.specs.Prelude.{◌≡◌, IfErr, OnOk};
ghost use Rattle.feed_text.specs.Buffers.{text_in};
ghost use Rattle.changes_writers.specs.FloatTexts.{AppendsSuch};
ghost use Rattle.changes_statements.specs.PlainDocuments.{plain_form};
ghost use Rattle.changes_statements.specs.NoStatements.{HasNoJsonText, IsMemoryOr};
ghost use Rattle.changes_statements.specs.SqlLiterals.{IsDocumentLiteral, has_no_text};

use crate::no_statement::NoStatement;
use crate::texts::put_utf8;
use changes_writers::{put_double, put_plain_string, put_utf8_string};
use feed_text::{DocumentForm, TextBuffer};
use feed_writers::{put_byte, put_number};
use rows_errors::RowsError;
use rows_values::{Decimal, MysqlTime};
use std::alloc::{Allocator, Global};

/// A byte that no text in UTF-8 has, in place of a value that JSON text doesn't have.
const NO_TEXT: u8 = 255;

/// The form of JSON texts that a server reads.
pub(crate) struct PlainForm;

impl DocumentForm for PlainForm {
    ghost form = { plain_form };

    const ESCAPE_LEN: usize = 6;

    ghost ESCAPE_LEN = { 6 };

    #[inline(always)]
    fn put_uint(text: &mut [u8], at: usize, number: u64) -> usize {
        put_number(text, at, number)
    }

    #[inline(always)]
    fn put_double(text: &mut [u8], at: usize, bits: u64) -> usize {
        put_double(text, at, bits)
    }

    #[inline(always)]
    fn put_short_string(text: &mut [u8], at: usize, bytes: &[u8], len: usize) -> Option<usize> {
        put_plain_string(text, at, bytes, len)
    }

    #[inline(always)]
    fn put_string(text: &mut [u8], at: usize, bytes: &[u8]) -> Option<usize> {
        put_utf8_string(text, at, bytes)
    }

    #[inline(always)]
    fn put_short_key(text: &mut [u8], at: usize, bytes: &[u8], len: usize) -> Option<usize> {
        put_plain_string(text, at, bytes, len)
    }

    #[inline(always)]
    fn put_key(text: &mut [u8], at: usize, bytes: &[u8]) -> Option<usize> {
        put_utf8_string(text, at, bytes)
    }

    fn put_time(text: &mut [u8], at: usize, _time: &MysqlTime) -> usize {
        put_byte(text, at, NO_TEXT)
    }

    fn append_decimal<A: Allocator>(
        _decimal: &Decimal,
        out: &mut Vec<u8, A>,
    ) -> Result<(), RowsError> {
        out.push(NO_TEXT)?;
        Ok(())
    }

    fn append_opaque<A: Allocator>(
        _number: u8,
        _bytes: &[u8],
        out: &mut Vec<u8, A>,
    ) -> Result<(), RowsError> {
        out.push(NO_TEXT)?;
        Ok(())
    }
}

/// Whether a text has a byte in place of a value.
fn has_no_text(text: &[u8]) -> bool
    ensures { result ≡ has_no_text text.now }
{
    for byte in text {
        if *byte == NO_TEXT {
            return true;
        }
    }
    false
}

/// Appends a JSON document, by MySQL's binary format. `text` is used on the way.
///
/// - `Document`: it has a decimal, a date, a time, or a value of another column type.
/// - `Row`: it can't be parsed.
/// - `Memory`: out of memory.
pub(crate) fn put_json(
    alloc: Global,
    bytes: &[u8],
    text: &mut TextBuffer<Global>,
    out: &mut TextBuffer<Global>,
) -> Result<(), NoStatement>
    ensures text { OnOk result (AppendsSuch (IsDocumentLiteral bytes.now) (text_in out.old) (text_in out.new)) }
    ensures err { IfErr result (IsMemoryOr (HasNoJsonText bytes.now)) }
{
    text.clear();
    match text.put_document_in::<PlainForm>(alloc, bytes) {
        Ok(()) => {}
        Err(RowsError::Memory) => return Err(NoStatement::Memory),
        Err(_) => return Err(NoStatement::Row),
    }
    if has_no_text(text.as_slice()) {
        return Err(NoStatement::Document);
    }
    out.put_text(b"CAST(")?;
    put_utf8(text.as_slice(), out)?;
    out.put_text(b" AS JSON)")?;
    Ok(())
}
