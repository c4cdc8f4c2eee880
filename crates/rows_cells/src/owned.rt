//! Conversion of borrowed cells to owned values.

ghost use Rattle.std.specs.Prelude.{◌≡◌, ◌≤◌, ◌+◌, ◌++◌, ◌⊎◌, IfOk, IfErr, OnOk, Some, None};
ghost use Rattle.std.specs.Fmt.{decimal};
ghost use Rattle.rows_values.specs.TimeTexts.{padded_decimal};
ghost use Rattle.rows_values.specs.Unpacked.{packed_text};
ghost use Rattle.rows_cells.specs.CellValues.{new_date as new_date_value, old_time as old_time_value, old_datetime as old_datetime_value, timestamp_text as timestamp_text_of, cell_micros_text};
ghost use Rattle.rows_cells.specs.CellViews.{cell_value, cell_value_of, Holds, HasNoValue, IsReadable};
ghost use Rattle.rows_errors.specs.declared.fault.RowsError.TheVariants.{Memory, Decimal as BadDecimal};

use crate::binlog_value::BinlogValue;
use crate::cell::CellRef;
use itoa::Buffer;
use rows_errors::RowsError;
use rows_jsonb::{Value as JsonbValue, json_diffs};
use rows_values::{Value, datetime_from_packed, put_decimal_text, time_from_packed};
use std::alloc::{AllocError, Global};
use wire_buf::ParseBuf;

impl<'a> CellRef<'a> {
    /// Returns the value with bytes of its own; a JSON document stays borrowed.
    ///
    /// - `Memory`: out of memory; the only error for a cell that was read from bytes.
    /// - `Decimal`: the cell was built from bytes that pack no decimal.
    /// - `Jsonb`: the cell was built from bytes that aren't a JSON document or JSON diffs.
    pub fn to_value(self, alloc: Global) -> Result<BinlogValue<'a>, RowsError>
        ensures ok { IfOk result (λ v. Holds (cell_value self.entry) v) }
        ensures readable { IfOk result (λ v. IsReadable self.entry) }
        ensures err { IfErr result (λ e. e ≡ Memory ⊎ HasNoValue self.entry e) }
    {
        let value = match self {
            CellRef::Null => Value::NULL,
            CellRef::Int(number) => Value::Int(number),
            CellRef::UInt(number) => Value::UInt(number),
            CellRef::Float(bits) => Value::Float(bits),
            CellRef::Double(bits) => Value::Double(bits),
            CellRef::Bytes(bytes) => Value::Bytes(Vec::from_slice(alloc, bytes)?),
            CellRef::Year(years) => Value::Bytes(year_text(alloc, years)?),
            CellRef::NewDate(bits) => new_date(bits),
            CellRef::OldTime(digits) => old_time(digits),
            CellRef::OldDatetime(digits) => old_datetime(digits),
            CellRef::Timestamp(seconds, micros) => {
                Value::Bytes(timestamp_text(alloc, seconds, micros)?)
            }
            CellRef::Datetime(packed) => datetime_from_packed(packed),
            CellRef::Time(packed) => time_from_packed(packed),
            CellRef::Decimal(precision, scale, bytes) => {
                Value::Bytes(decimal_text(alloc, precision, scale, bytes)?)
            }
            CellRef::Json(bytes) => {
                let document = JsonbValue::read_document(&mut ParseBuf(bytes))?;
                return Ok(BinlogValue::Jsonb(document));
            }
            CellRef::JsonDiffs(bytes) => {
                return Ok(BinlogValue::JsonDiff(json_diffs(alloc, bytes)?));
            }
        };
        Ok(BinlogValue::Value(value))
    }
}

/// Returns a year in decimal.
fn year_text(alloc: Global, years: u8) -> Result<Vec<u8>, AllocError>
    ensures { IfOk result (λ text. text.items ≡ decimal (1900 + years)) }
{
    let mut buffer = Buffer::new();
    let text = buffer.format(1900 + u64::from(years));
    Vec::from_slice(alloc, text.as_bytes())
}

/// Converts a NEWDATE, a date of three bytes.
fn new_date(bits: u32) -> Value
    ensures { cell_value_of result ≡ new_date_value bits }
{
    let (year, month, day) = (bits / 512 % 65_536, bits / 32 % 16, bits % 32);
    Value::Date(year as u16, month as u8, day as u8, 0, 0, 0, 0)
}

/// Converts an old-format TIME of three bytes.
fn old_time(digits: i32) -> Value
    ensures { cell_value_of result ≡ old_time_value digits }
{
    let size = digits.unsigned_abs();
    let (hours, minutes, seconds) = (size / 10_000, size / 100 % 100, size % 100);
    let (days, hours) = (hours / 24, hours % 24);
    Value::Time(
        digits < 0,
        days,
        hours as u8,
        minutes as u8,
        seconds as u8,
        0,
    )
}

/// Converts an old-format DATETIME of eight bytes.
fn old_datetime(digits: u64) -> Value
    ensures { cell_value_of result ≡ old_datetime_value digits }
{
    Value::Date(
        (digits / 10_000_000_000 % 65_536) as u16,
        (digits / 100_000_000 % 100) as u8,
        (digits / 1_000_000 % 100) as u8,
        (digits / 10_000 % 100) as u8,
        (digits / 100 % 100) as u8,
        (digits % 100) as u8,
        0,
    )
}

/// Returns the seconds, and a point and the microseconds if these aren't zero.
#[tactic(auto, unfolding(crate::specs::CellValues::timestamp_text))]
fn timestamp_text(alloc: Global, seconds: i32, micros: i32) -> Result<Vec<u8>, AllocError>
    ensures { IfOk result (λ text. text.items ≡ timestamp_text_of (seconds, micros)) }
{
    let mut buffer = Buffer::new();
    let mut text = Vec::from_slice(alloc, buffer.format(seconds).as_bytes())?;
    append_micros(micros, &mut text)?;
    Ok(text)
}

/// Appends a point and the microseconds, if they aren't zero, padded with zeros to six characters, which include a sign.
fn append_micros(micros: i32, text: &mut Vec<u8>) -> Result<(), AllocError>
    ensures { OnOk result (text.new.items ≡ text.old.items ++ cell_micros_text micros) }
{
    let size = micros.unsigned_abs();
    if size == 0 {
        return Ok(());
    }
    if micros < 0 {
        text.extend_from_slice(b".-")?;
        return append_padded(5, size, text);
    }
    text.push(b'.')?;
    append_padded(6, size, text)
}

/// Appends a number, padded with zeros to a minimum width.
#[tactic(auto, unfolding(rows_values::specs::TimeTexts::padded_decimal))]
fn append_padded(width: usize, number: u32, text: &mut Vec<u8>) -> Result<(), AllocError>
    requires { width ≤ 20 }
    ensures { OnOk result (text.new.items ≡ text.old.items ++ padded_decimal width number) }
{
    let mut buffer = Buffer::new();
    let digits = buffer.format(number);
    text.resize(text.len() + width.saturating_sub(digits.len()), b'0')?;
    text.extend_from_slice(digits.as_bytes())?;
    Ok(())
}

/// Returns the text of a packed decimal.
fn decimal_text(alloc: Global, precision: u8, scale: u8, bytes: &[u8]) -> Result<Vec<u8>, RowsError>
    ensures ok { IfOk result (λ text. packed_text precision scale bytes.now ≡ Some text.items) }
    ensures err { IfErr result (λ e. e ≡ Memory ⊎ ((e ≡ BadDecimal) × (packed_text precision scale bytes.now ≡ None))) }
{
    let (precision, scale) = (usize::from(precision), usize::from(scale));
    let mut text = Vec::new(alloc);
    text.resize(precision + 3, 0)?;
    let Some(end) = put_decimal_text(text.as_mut_slice(), 0, precision, scale, bytes) else {
        return Err(RowsError::Decimal);
    };
    text.truncate(end);
    Ok(text)
}
