//! Literals of the cells of rows.

ghost use Rattle.std.specs.Prelude.{◌≡◌, IfErr, OnOk, Some, unsigned_abs};
ghost use Rattle.std.specs.Int.{w32, cast_unsigned};
ghost use Rattle.rows_values.specs.Unpacked.{packed_text};
ghost use Rattle.feed_text.specs.Buffers.{text_in};
ghost use Rattle.changes_writers.specs.FloatTexts.{AppendsSuch};
ghost use Rattle.changes_statements.specs.NoStatements.{HasNoLiteral, IsMemoryOr, PacksNoDecimal};
ghost use Rattle.changes_statements.specs.SqlTimes.{IsInstantText};
ghost use Rattle.changes_statements.specs.SqlLiterals.{IsIntegerLiteral, IsLiteral};

use crate::documents::put_json;
use crate::no_statement::NoStatement;
use crate::numbers::{put_double, put_float, put_integer, put_year};
use crate::sql_table::SqlColumn;
use crate::texts::put_bytes;
use crate::times::{
    datetime_parts, day_of, old_datetime_parts, old_time_parts, put_date, put_datetime,
    put_duration, put_instant, time_parts,
};
use changes_tables::Shown;
use feed_text::TextBuffer;
use rows_cells::CellRef;
use rows_values::put_decimal_text;
use std::alloc::{AllocError, Global};

/// The room for a decimal: 255 digits, a minus, a zero and a point.
const DECIMAL_ROOM: usize = 258;

/// Buffers that literals use on the way.
#[derive(Drop)]
pub struct Scratch {
    alloc: Global,
    pub(crate) decoded: Vec<u8>,
    pub(crate) text: TextBuffer<Global>,
}

impl Scratch {
    /// Empty buffers.
    pub fn new(alloc: Global) -> Scratch {
        Scratch {
            alloc,
            decoded: Vec::new(alloc),
            text: TextBuffer::new(alloc),
        }
    }

    /// A text, to be used between two literals.
    pub fn text(&mut self) -> &mut TextBuffer<Global> {
        &mut self.text
    }
}

/// Appends a signed integer; that of a TIMESTAMP is a date and a time.
#[tactic(auto, unfolding(crate::specs::SqlLiterals::IsIntegerLiteral))]
fn put_int(column: &SqlColumn, number: i64, out: &mut TextBuffer<Global>) -> Result<(), AllocError>
    ensures { OnOk result (AppendsSuch (IsIntegerLiteral column.now.shown number) (text_in out.old) (text_in out.new)) }
{
    if let Shown::Timestamp = column.shown
        && let Ok(seconds) = u32::try_from(number)
    {
        return put_instant(seconds, 0, out);
    }
    put_integer(number, out)
}

/// Appends a TIMESTAMP2.
fn put_timestamp(seconds: i32, micros: i32, out: &mut TextBuffer<Global>) -> Result<(), AllocError>
    ensures { OnOk result (AppendsSuch (IsInstantText (cast_unsigned w32 seconds) (unsigned_abs micros)) (text_in out.old) (text_in out.new)) }
{
    put_instant(seconds.cast_unsigned(), micros.unsigned_abs(), out)
}

/// Appends a decimal.
fn put_decimal(
    precision: u8,
    scale: u8,
    bytes: &[u8],
    out: &mut TextBuffer<Global>,
) -> Result<(), NoStatement>
    ensures text { OnOk result (AppendsSuch (λ x. packed_text precision scale bytes.now ≡ Some x) (text_in out.old) (text_in out.new)) }
    ensures err { IfErr result (IsMemoryOr (PacksNoDecimal precision scale bytes.now)) }
{
    let mut short = [0; DECIMAL_ROOM];
    let (precision, scale) = (usize::from(precision), usize::from(scale));
    let Some(end) = put_decimal_text(&mut short, 0, precision, scale, bytes) else {
        return Err(NoStatement::Row);
    };
    out.put_text(&short[..end])?;
    Ok(())
}

/// Appends the literal of a cell of a column; `is_exact`: for a comparison of bytes, so that text is hexadecimal too. An error may leave a
/// part of it:
///
/// - `PartialUpdate`: the cell has partial updates of a JSON document.
/// - `Document`: it is a JSON document with a value that JSON text doesn't have.
/// - `Row`: it is a JSON document or a decimal that can't be read.
/// - `Float`: it is a float that isn't finite.
/// - `Memory`: out of memory.
#[tactic(auto, unfolding(crate::specs::NoStatements::HasNoLiteral, crate::specs::SqlLiterals::IsLiteral))]
pub fn put_literal(
    column: &SqlColumn,
    cell: CellRef<'_>,
    is_exact: bool,
    scratch: &mut Scratch,
    out: &mut TextBuffer<Global>,
) -> Result<(), NoStatement>
    ensures text { OnOk result (AppendsSuch (IsLiteral column.now.shown column.now.padded_len is_exact cell.entry) (text_in out.old) (text_in out.new)) }
    ensures err { IfErr result (IsMemoryOr (HasNoLiteral cell.entry)) }
{
    match cell {
        CellRef::Null => out.put_text(b"NULL")?,
        CellRef::Int(number) => put_int(column, number, out)?,
        CellRef::UInt(number) => out.put_number(number)?,
        CellRef::Float(bits) => return put_float(bits, out),
        CellRef::Double(bits) => return put_double(bits, out),
        CellRef::Bytes(bytes) => put_bytes(column, bytes, is_exact, &mut scratch.decoded, out)?,
        CellRef::Year(years) => put_year(years, out)?,
        CellRef::NewDate(bits) => put_date(day_of(bits), out)?,
        CellRef::OldTime(digits) => {
            let (is_negative, clock) = old_time_parts(digits);
            put_duration(is_negative, clock, out)?;
        }
        CellRef::OldDatetime(digits) => {
            let (day, clock) = old_datetime_parts(digits);
            put_datetime(day, clock, out)?;
        }
        CellRef::Timestamp(seconds, micros) => put_timestamp(seconds, micros, out)?,
        CellRef::Datetime(packed) => {
            let (day, clock) = datetime_parts(packed);
            put_datetime(day, clock, out)?;
        }
        CellRef::Time(packed) => {
            let (is_negative, clock) = time_parts(packed);
            put_duration(is_negative, clock, out)?;
        }
        CellRef::Decimal(precision, scale, bytes) => {
            return put_decimal(precision, scale, bytes, out);
        }
        CellRef::Json(bytes) => return put_json(scratch.alloc, bytes, &mut scratch.text, out),
        CellRef::JsonDiffs(_) => return Err(NoStatement::PartialUpdate),
    }
    Ok(())
}
