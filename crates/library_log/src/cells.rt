//! The cells of a record.

ghost use Rattle.std.specs.Prelude.{◌≡◌, ◌++◌, ◌∷◌, [], IfOk, OnOk, List, ℕ};
ghost use Rattle.byteorder.specs.Endian.{little_bytes};
ghost use Rattle.library_log.specs.RecordLayouts.{text_bytes, IsTextOf};
ghost use Rattle.library_log.specs.RecordParts.{Appends, ReadsCell};

use crate::numbers::{put_text, put_word};
use byteorder::{BigEndian, ByteOrder, LittleEndian};
use changes_cells::put_field;
use changes_tables::{Shown, ShownColumn};
use feed_text::TextBuffer;
use rows_cells::{CellFormat, CellRef, ImageField, read_cell};
use rows_errors::RowsError;
use std::alloc::{AllocError, Global};

/// The kinds of cells, as `docs/library/RECORDS.md` has them.
pub(crate) const ABSENT: u8 = 0;

const NULL: u8 = 1;

const SIGNED: u8 = 2;

const UNSIGNED: u8 = 3;

const FLOAT: u8 = 4;

const DOUBLE: u8 = 5;

const BYTES: u8 = 8;

const DECIMAL: u8 = 9;

const TIME: u8 = 10;

const JSON: u8 = 11;

const JSON_UPDATES: u8 = 12;

/// The most bytes of a number.
const NUMBER_LEN: usize = 8;

/// The year that a YEAR counts from.
const FIRST_YEAR: u64 = 1900;

/// Appends a cell with eight bytes.
fn put_number(kind: u8, number: u64, out: &mut Vec<u8>) -> Result<(), AllocError>
    ensures { OnOk result (out.new.items ≡ out.old.items ++ kind ∷ little_bytes 8 number) }
{
    out.push(kind)?;
    put_word(number, out)
}

/// Appends a cell with a text.
fn put_bytes(kind: u8, bytes: &[u8], out: &mut Vec<u8>) -> Result<(), AllocError>
    ensures { OnOk result (out.new.items ≡ out.old.items ++ kind ∷ text_bytes bytes.now) }
{
    out.push(kind)?;
    put_text(bytes, out)
}

/// A JSON string without its quotes; other JSON as it is.
pub(crate) fn unquoted(json: &[u8]) -> &[u8]
    ensures string { (text : List ℕ) → json.now ≡ 34 ∷ (text ++ 34 ∷ []) → result.now ≡ text }
    ensures object { (rest : List ℕ) → json.now ≡ 123 ∷ rest → result.now ≡ json.now }
{
    let Some((b'"', rest)) = json.split_first() else {
        return json;
    };
    match rest.split_last() {
        Some((b'"', content)) => content,
        _ => json,
    }
}

/// Appends the cell of a column with bits: those of a BIT are in big-endian order, those of a SET in little-endian order.
fn put_bits(shown: Shown, bytes: &[u8], out: &mut Vec<u8>) -> Result<(), AllocError>
    ensures { OnOk result (Appends out.old.items out.new.items) }
{
    if bytes.is_empty() || bytes.len() > NUMBER_LEN {
        return put_bytes(BYTES, bytes, out);
    }
    match shown {
        Shown::Bit => put_number(UNSIGNED, BigEndian::read_uint(bytes, bytes.len()), out),
        Shown::Set => put_number(UNSIGNED, LittleEndian::read_uint(bytes, bytes.len()), out),
        _ => put_bytes(BYTES, bytes, out),
    }
}

/// The year of a YEAR, which counts from 1900; 0 for 0.
fn year_of(byte: u8) -> u64 {
    if byte == 0 {
        return 0;
    }
    FIRST_YEAR + u64::from(byte)
}

/// Appends a cell that has its value as it is in the log.
fn put_value(
    shown: Shown,
    cell: CellRef<'_>,
    format: CellFormat,
    out: &mut Vec<u8>,
) -> Result<(), AllocError>
    ensures { OnOk result (Appends out.old.items out.new.items) }
{
    match cell {
        CellRef::Int(number) => match format {
            CellFormat::Signed(_) => put_number(SIGNED, number.cast_unsigned(), out),
            _ => put_number(UNSIGNED, number.cast_unsigned(), out),
        },
        CellRef::UInt(number) => put_number(UNSIGNED, number, out),
        CellRef::Float(bits) => put_number(FLOAT, u64::from(bits), out),
        CellRef::Double(bits) => put_number(DOUBLE, bits, out),
        CellRef::Year(year) => put_number(UNSIGNED, year_of(year), out),
        CellRef::Bytes(bytes) => put_bits(shown, bytes, out),
        _ => {
            out.push(NULL)?;
            Ok(())
        }
    }
}

/// The kind of a cell whose text the JSON lines have; None for one that has its value as it is in the log.
fn text_kind(shown: Shown, format: CellFormat) -> Option<u8> {
    match format {
        CellFormat::Signed(_) | CellFormat::Unsigned(_) => match shown {
            Shown::Timestamp => Some(TIME),
            _ => None,
        },
        CellFormat::Decimal(_, _) => Some(DECIMAL),
        CellFormat::Json => Some(JSON),
        CellFormat::JsonDiffs => Some(JSON_UPDATES),
        CellFormat::NewDate
        | CellFormat::OldTime
        | CellFormat::OldDatetime
        | CellFormat::Timestamp2(_)
        | CellFormat::Datetime2(_)
        | CellFormat::Time2(_) => Some(TIME),
        _ => None,
    }
}

/// The text of a cell of this kind, whose JSON this is: documents are their JSON, and others strings.
fn content_of(kind: u8, json: &[u8]) -> &[u8] {
    if kind == JSON || kind == JSON_UPDATES {
        return json;
    }
    unquoted(json)
}

/// Appends the cell that `field` describes, whose column this is, and returns the bytes after it. `scratch` is a buffer. An error may
/// leave a part of it.
///
/// - Those of `read_cell`: the cell can't be read.
/// - `Memory`: out of memory.
/// - `Jsonb`: the cell is a JSON document that can't be parsed.
pub(crate) fn put_cell<'a>(
    alloc: Global,
    column: &ShownColumn,
    field: ImageField<'a>,
    scratch: &mut TextBuffer<Global>,
    out: &mut Vec<u8>,
) -> Result<&'a [u8], RowsError>
    ensures read { IfOk result (λ rest. ReadsCell field.entry.is_null field.entry.format field.entry.bytes.now rest.now) }
    ensures appended { OnOk result (Appends out.old.items out.new.items) }
{
    if field.is_null {
        out.push(NULL)?;
        return Ok(field.bytes);
    }
    let Some(kind) = text_kind(column.shown, field.format) else {
        let (cell, rest) = read_cell(field.format, field.bytes)?;
        put_value(column.shown, cell, field.format, out)?;
        return Ok(rest);
    };
    scratch.clear();
    let rest = put_field(alloc, column, field, scratch)?;
    put_bytes(kind, content_of(kind, scratch.as_slice()), out)?;
    Ok(rest)
}
