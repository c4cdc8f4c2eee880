//! The values of cells.

ghost use Rattle.std.specs.Prelude.{◌≡◌, IfErr, OnOk};
ghost use Rattle.rows_jsonb.specs.DocumentTrees.{document_tree};
ghost use Rattle.feed_text.specs.Buffers.{text_in};
ghost use Rattle.feed_text.specs.DirectText.{WritesDocument};
ghost use Rattle.changes_writers.specs.FloatTexts.{AppendsSuch};
ghost use Rattle.changes_statements.specs.NoStatements.{IsMemoryOr, IsNoDocument};
ghost use Rattle.changes_commands.specs.declared.format_options.Format.TheVariants.{Canal};
ghost use Rattle.changes_statements.specs.declared.no_statement.NoStatement.{NoStatement};
ghost use Rattle.changes_formats.specs.EnvelopeDocuments.{IsEnvelopeDocument, envelope_form};
ghost use Rattle.changes_formats.specs.RefusedCells.{HasNoMember};

use crate::columns::FormatColumn;
use crate::debezium_times::{put_days, put_instant, put_micros, put_zoned};
use crate::decimals::put_unscaled;
use crate::documents::EnvelopeForm;
use crate::members::{put_member, put_members};
use crate::numbers::{
    put_decimal, put_integer, put_long_float, put_short_float, put_unsigned, put_year,
};
use crate::strings::{put_base64_string, put_string};
use crate::texts::{put_characters, put_text};
use crate::times::{put_day, put_day_and_time, put_span, put_timestamp};
use byteorder::{BigEndian, ByteOrder, LittleEndian};
use changes_commands::Format;
use changes_statements::{
    NoStatement, datetime_parts, day_of, old_datetime_parts, old_time_parts, time_parts,
};
use changes_tables::Shown;
use feed_text::TextBuffer;
use feed_writers::{Clock, Day};
use rows_cells::CellRef;
use rows_errors::RowsError;
use std::alloc::{AllocError, Global};
use wire_constants::ColumnType;

/// The maximum number of bytes of a number.
const NUMBER_LEN_MAX: usize = 8;

/// The length of the number of a reference system, which the value of a GEOMETRY begins with.
const SRID_LEN: usize = 4;

/// Buffers that are used on the way.
#[derive(Drop)]
pub(crate) struct Buffers {
    alloc: Global,
    decoded: Vec<u8>,
    text: TextBuffer<Global>,
}

impl Buffers {
    /// Empty buffers.
    pub(crate) fn new(alloc: Global) -> Buffers {
        Buffers {
            alloc,
            decoded: Vec::new(alloc),
            text: TextBuffer::new(alloc),
        }
    }
}

/// Appends a TIMESTAMP: its date and its time in UTC.
fn put_seconds(
    format: Format,
    column: &FormatColumn,
    seconds: u32,
    micros: u32,
    out: &mut TextBuffer<Global>,
) -> Result<(), AllocError> {
    match format {
        Format::Debezium => put_zoned(
            column.facts.may_be_null,
            column.facts.digits(),
            seconds,
            micros,
            out,
        ),
        Format::Maxwell | Format::Canal => {
            put_timestamp(seconds, micros, column.facts.digits(), out)
        }
    }
}

/// Appends an integer that isn't negative.
fn put_number(
    format: Format,
    column: &FormatColumn,
    number: u64,
    out: &mut TextBuffer<Global>,
) -> Result<(), AllocError> {
    match column.shown.shown {
        Shown::Enum => put_member(&column.shown.members, number, out),
        Shown::Set => put_members(format, &column.shown.members, number, out),
        Shown::Timestamp => match u32::try_from(number) {
            Ok(seconds) => put_seconds(format, column, seconds, 0, out),
            Err(_) => put_unsigned(format, number, out),
        },
        _ => put_unsigned(format, number, out),
    }
}

/// Appends an integer.
fn put_signed(
    format: Format,
    column: &FormatColumn,
    number: i64,
    out: &mut TextBuffer<Global>,
) -> Result<(), AllocError> {
    if number < 0 {
        return put_integer(format, number, out);
    }
    put_number(format, column, number as u64, out)
}

/// Appends the bits of a BIT, whose highest byte comes first: a number; Debezium has a boolean of one bit, and the Base64 of the bytes
/// from the lowest on of more.
fn put_bits(
    format: Format,
    column: &FormatColumn,
    bytes: &[u8],
    out: &mut TextBuffer<Global>,
) -> Result<(), AllocError> {
    if bytes.is_empty() || bytes.len() > NUMBER_LEN_MAX {
        return put_base64_string(bytes, out);
    }
    let number = BigEndian::read_uint(bytes, bytes.len());
    if !matches!(format, Format::Debezium) {
        return put_unsigned(format, number, out);
    }
    if column.facts.bits() != 1 {
        let lowest = number.to_le_bytes();
        return put_base64_string(&lowest[..bytes.len()], out);
    }
    if number == 0 {
        return out.put_text(b"false");
    }
    out.put_text(b"true")
}

/// Appends the members whose numbers bytes have, the lowest byte first.
fn put_member_bytes(
    format: Format,
    column: &FormatColumn,
    bytes: &[u8],
    out: &mut TextBuffer<Global>,
) -> Result<(), AllocError> {
    if bytes.is_empty() || bytes.len() > NUMBER_LEN_MAX {
        return put_base64_string(bytes, out);
    }
    put_number(
        format,
        column,
        LittleEndian::read_uint(bytes, bytes.len()),
        out,
    )
}

/// Appends a GEOMETRY as Debezium has it: the number of its reference system, null for 0, and its bytes (WKB).
fn put_geometry(bytes: &[u8], out: &mut TextBuffer<Global>) -> Result<(), AllocError> {
    if bytes.len() < SRID_LEN {
        return put_base64_string(bytes, out);
    }
    let (srid, shape) = bytes.split_at(SRID_LEN);
    out.put_text(b"{\"wkb\":")?;
    put_base64_string(shape, out)?;
    out.put_text(b",\"srid\":")?;
    match LittleEndian::read_u32(srid) {
        0 => out.put_text(b"null")?,
        srid => out.put_number(u64::from(srid))?,
    }
    out.put(b'}')
}

/// Appends bytes as Debezium has them: in Base64, those of a BINARY with the zeros at their end that the log doesn't have.
fn put_padded(
    column: &FormatColumn,
    bytes: &[u8],
    decoded: &mut Vec<u8>,
    out: &mut TextBuffer<Global>,
) -> Result<(), AllocError> {
    let len = usize::from(column.facts.padded_len);
    if bytes.len() >= len {
        return put_base64_string(bytes, out);
    }
    decoded.clear();
    decoded.extend_from_slice(bytes)?;
    decoded.resize(len, 0)?;
    put_base64_string(decoded, out)
}

/// Appends bytes that aren't text: in Base64; Canal has a character for each.
fn put_binary(
    format: Format,
    column: &FormatColumn,
    bytes: &[u8],
    decoded: &mut Vec<u8>,
    out: &mut TextBuffer<Global>,
) -> Result<(), AllocError> {
    match format {
        Format::Maxwell => put_base64_string(bytes, out),
        Format::Canal => put_characters(bytes, decoded, out),
        Format::Debezium => match column.facts.column_type {
            ColumnType::MYSQL_TYPE_GEOMETRY => put_geometry(bytes, out),
            _ => put_padded(column, bytes, decoded, out),
        },
    }
}

/// Appends bytes, as their column has them.
fn put_bytes(
    format: Format,
    column: &FormatColumn,
    bytes: &[u8],
    decoded: &mut Vec<u8>,
    out: &mut TextBuffer<Global>,
) -> Result<(), AllocError> {
    match column.shown.shown {
        Shown::Text(set) => put_text(set, bytes, decoded, out),
        Shown::Bit => put_bits(format, column, bytes, out),
        Shown::Enum | Shown::Set => put_member_bytes(format, column, bytes, out),
        _ => put_binary(format, column, bytes, decoded, out),
    }
}

/// Appends a date and a time.
fn put_datetime(
    format: Format,
    column: &FormatColumn,
    parts: (Day, Clock),
    out: &mut TextBuffer<Global>,
) -> Result<(), AllocError> {
    let (day, clock) = parts;
    match format {
        Format::Debezium => put_instant(
            column.facts.may_be_null,
            column.facts.digits(),
            day,
            clock,
            out,
        ),
        Format::Maxwell | Format::Canal => {
            put_day_and_time(day, clock, column.facts.digits(), out)
        }
    }
}

/// Appends a time span.
fn put_time(
    format: Format,
    column: &FormatColumn,
    parts: (bool, Clock),
    out: &mut TextBuffer<Global>,
) -> Result<(), AllocError> {
    let (is_negative, clock) = parts;
    match format {
        Format::Debezium => put_micros(is_negative, clock, out),
        Format::Maxwell | Format::Canal => {
            put_span(is_negative, clock, column.facts.digits(), out)
        }
    }
}

/// Appends a JSON document as it is.
///
/// - `Row`: it can't be parsed.
/// - `Memory`: out of memory.
fn put_plain_document(
    alloc: Global,
    bytes: &[u8],
    out: &mut TextBuffer<Global>,
) -> Result<(), NoStatement>
    ensures text { OnOk result (WritesDocument envelope_form (document_tree bytes.now) (text_in out.old) (text_in out.new)) }
    ensures err { IfErr result (IsMemoryOr (IsNoDocument bytes.now)) }
{
    match out.put_document_in::<EnvelopeForm>(alloc, bytes) {
        Ok(()) => Ok(()),
        Err(RowsError::Memory) => Err(NoStatement::Memory),
        Err(_) => Err(NoStatement::Row),
    }
}

/// Appends a JSON document as a string of its text.
///
/// - `Row`: it can't be parsed.
/// - `Memory`: out of memory.
fn put_quoted_document(
    bytes: &[u8],
    buffers: &mut Buffers,
    out: &mut TextBuffer<Global>,
) -> Result<(), NoStatement>
    ensures text { OnOk result (AppendsSuch (IsEnvelopeDocument Canal bytes.now) (text_in out.old) (text_in out.new)) }
    ensures err { IfErr result (IsMemoryOr (IsNoDocument bytes.now)) }
{
    buffers.text.clear();
    put_plain_document(buffers.alloc, bytes, &mut buffers.text)?;
    put_string(buffers.text.as_slice(), out)?;
    Ok(())
}

/// Appends a JSON document: Maxwell has it as it is, and the others its text.
///
/// - `Row`: it can't be parsed.
/// - `Memory`: out of memory.
fn put_document(
    format: Format,
    bytes: &[u8],
    buffers: &mut Buffers,
    out: &mut TextBuffer<Global>,
) -> Result<(), NoStatement>
    ensures text { OnOk result (AppendsSuch (IsEnvelopeDocument format bytes.now) (text_in out.old) (text_in out.new)) }
    ensures err { IfErr result (IsMemoryOr (IsNoDocument bytes.now)) }
{
    match format {
        Format::Maxwell => put_plain_document(buffers.alloc, bytes, out),
        Format::Debezium | Format::Canal => put_quoted_document(bytes, buffers, out),
    }
}

/// Appends the value of a cell of a column. An error may leave a part of it:
///
/// - `PartialUpdate`: the cell has partial updates of a JSON document.
/// - `Row`: it is a JSON document or a decimal that can't be read.
/// - `Float`: it is a float that isn't finite.
/// - `Memory`: out of memory.
#[tactic(auto, unfolding(crate::specs::RefusedCells::HasNoMember))]
pub(crate) fn put_value(
    format: Format,
    column: &FormatColumn,
    cell: CellRef<'_>,
    buffers: &mut Buffers,
    out: &mut TextBuffer<Global>,
) -> Result<(), NoStatement>
    ensures ok { OnOk result ((why : NoStatement) → HasNoMember cell.entry why → ⊥) }
    ensures err { IfErr result (IsMemoryOr (HasNoMember cell.entry)) }
{
    match cell {
        CellRef::Null => out.put_text(b"null")?,
        CellRef::Int(number) => put_signed(format, column, number, out)?,
        CellRef::UInt(number) => put_number(format, column, number, out)?,
        CellRef::Float(bits) => return put_short_float(format, bits, out),
        CellRef::Double(bits) => return put_long_float(format, bits, out),
        CellRef::Bytes(bytes) => put_bytes(format, column, bytes, &mut buffers.decoded, out)?,
        CellRef::Year(years) => put_year(format, years, out)?,
        CellRef::NewDate(bits) => match format {
            Format::Debezium => put_days(column.facts.may_be_null, day_of(bits), out)?,
            Format::Maxwell | Format::Canal => put_day(day_of(bits), out)?,
        },
        CellRef::OldTime(digits) => put_time(format, column, old_time_parts(digits), out)?,
        CellRef::OldDatetime(digits) => {
            put_datetime(format, column, old_datetime_parts(digits), out)?;
        }
        CellRef::Timestamp(seconds, micros) => {
            put_seconds(
                format,
                column,
                seconds.cast_unsigned(),
                micros.unsigned_abs(),
                out,
            )?;
        }
        CellRef::Datetime(packed) => put_datetime(format, column, datetime_parts(packed), out)?,
        CellRef::Time(packed) => put_time(format, column, time_parts(packed), out)?,
        CellRef::Decimal(precision, scale, bytes) => {
            return match format {
                Format::Debezium => put_unscaled(precision, scale, bytes, out),
                Format::Maxwell | Format::Canal => {
                    put_decimal(format, precision, scale, bytes, out)
                }
            };
        }
        CellRef::Json(bytes) => return put_document(format, bytes, buffers, out),
        CellRef::JsonDiffs(_) => return Err(NoStatement::PartialUpdate),
    }
    Ok(())
}
