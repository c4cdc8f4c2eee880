//! Cells whose text has a maximum length by their format alone: floats, decimals, dates and times.

ghost use Rattle.std.specs.Prelude.{◌≡◌, ◌≤◌, ◌+◌, ◌++◌, length, take};
ghost use Rattle.rows_cells.specs.declared.format.CellFormat.TheVariants.{Float, Double, Year, NewDate, OldTime, OldDatetime, Timestamp2, Datetime2, Time2, Decimal};
ghost use Rattle.rows_cells.specs.CellValues.{cell_date, cell_time, date, new_date, old_datetime, old_time};
ghost use Rattle.changes_tables.specs.ShownColumns.{ColumnView};
ghost use Rattle.changes_cells.specs.CellJson.{year_json, IsCellJson};
ghost use Rattle.changes_cells.specs.FieldJson.{IsFixed, WritesOrFails, WritesSuch};

use crate::decimals::put_quoted_decimal;
use crate::readings::{
    read_date, read_double, read_float, read_old_datetime, read_old_time, read_timestamp, read_year,
};
use crate::times::{
    datetime_parts, put_instant, put_shown_datetime, put_shown_duration, time_parts,
};
use changes_writers::{put_date, put_double, put_float};
use feed_writers::{Clock, Day, put_number};
use rows_cells::{CellFormat, read_datetime, read_time, split_decimal};
use rows_errors::RowsError;

/// Writes a FLOAT.
#[inline(always)]
#[tactic(auto, unfolding(crate::specs::CellJson::IsCellJson))]
fn put_float_field<'a>(
    text: &mut [u8],
    at: usize,
    bytes: &'a [u8],
) -> Result<(usize, &'a [u8]), RowsError>
    requires { at + 400 ≤ length text.old }
    ensures { WritesOrFails Float bytes.now at text.old text.new result }
{
    match read_float(bytes) {
        Ok((bits, rest)) => Ok((put_float(text, at, bits), rest)),
        Err(fault) => Err(fault),
    }
}

/// Writes a DOUBLE.
#[inline(always)]
#[tactic(auto, unfolding(crate::specs::CellJson::IsCellJson))]
fn put_double_field<'a>(
    text: &mut [u8],
    at: usize,
    bytes: &'a [u8],
) -> Result<(usize, &'a [u8]), RowsError>
    requires { at + 400 ≤ length text.old }
    ensures { WritesOrFails Double bytes.now at text.old text.new result }
{
    match read_double(bytes) {
        Ok((bits, rest)) => Ok((put_double(text, at, bits), rest)),
        Err(fault) => Err(fault),
    }
}

/// Writes the year of a byte that counts from 1900: 0 for 0.
#[inline(always)]
fn put_year(text: &mut [u8], at: usize, years: u8) -> usize
    requires { at + 20 ≤ length text.old }
    ensures most { result ≤ at + 20 }
    ensures text { take result text.new ≡ take at text.old ++ year_json years }
{
    if years == 0 {
        return put_number(text, at, 0);
    }
    put_number(text, at, 1900 + u64::from(years))
}

/// Writes a YEAR.
#[inline(always)]
#[tactic(auto, unfolding(crate::specs::CellJson::IsCellJson, crate::specs::CellJson::IsBytesJson))]
fn put_year_field<'a>(
    text: &mut [u8],
    at: usize,
    bytes: &'a [u8],
) -> Result<(usize, &'a [u8]), RowsError>
    requires { at + 400 ≤ length text.old }
    ensures { WritesOrFails Year bytes.now at text.old text.new result }
{
    match read_year(bytes) {
        Ok((years, rest)) => Ok((put_year(text, at, years), rest)),
        Err(fault) => Err(fault),
    }
}

/// The date of the bits of a DATE: the day in the lowest five, the month in the next four, the year above them.
fn day_of(bits: u32) -> Day
    ensures { new_date bits ≡ date result.year result.month result.day 0 0 0 0 }
{
    Day {
        year: bits / 512 % 65_536,
        month: bits / 32 % 16,
        day: bits % 32,
    }
}

/// Writes a DATE of three bytes.
#[inline(always)]
#[tactic(auto, unfolding(crate::specs::CellJson::IsCellJson, crate::specs::CellJson::date_shown))]
fn put_date_field<'a>(
    text: &mut [u8],
    at: usize,
    bytes: &'a [u8],
) -> Result<(usize, &'a [u8]), RowsError>
    requires { at + 400 ≤ length text.old }
    ensures { WritesOrFails NewDate bytes.now at text.old text.new result }
{
    match read_date(bytes) {
        Ok((bits, rest)) => Ok((put_date(text, at, day_of(bits)), rest)),
        Err(fault) => Err(fault),
    }
}

/// Writes the digits `hhmmss` of a TIME.
#[tactic(auto, unfolding(crate::specs::CellJson::IsCellJson))]
fn put_old_time(text: &mut [u8], at: usize, digits: i32) -> usize
    requires { at + 400 ≤ length text.old }
    ensures { (c : ColumnView) → WritesSuch (IsCellJson c OldTime (old_time digits)) at text.old text.new result }
{
    let size = digits.unsigned_abs();
    let clock = Clock {
        hour: size / 10_000,
        minute: size / 100 % 100,
        second: size % 100,
        micros: 0,
    };
    put_shown_duration(text, at, digits < 0, clock, 0)
}

/// Writes a TIME of three bytes, without fraction.
fn put_old_time_field<'a>(
    text: &mut [u8],
    at: usize,
    bytes: &'a [u8],
) -> Result<(usize, &'a [u8]), RowsError>
    requires { at + 400 ≤ length text.old }
    ensures { WritesOrFails OldTime bytes.now at text.old text.new result }
{
    match read_old_time(bytes) {
        Ok((digits, rest)) => Ok((put_old_time(text, at, digits), rest)),
        Err(fault) => Err(fault),
    }
}

/// Writes the digits `YYYYMMDDhhmmss` of a DATETIME.
#[tactic(auto, unfolding(crate::specs::CellJson::IsCellJson, crate::specs::CellJson::date_shown))]
fn put_old_datetime(text: &mut [u8], at: usize, digits: u64) -> usize
    requires { at + 400 ≤ length text.old }
    ensures { (c : ColumnView) → WritesSuch (IsCellJson c OldDatetime (old_datetime digits)) at text.old text.new result }
{
    let day = Day {
        year: (digits / 10_000_000_000 % 65_536) as u32,
        month: (digits / 100_000_000 % 100) as u32,
        day: (digits / 1_000_000 % 100) as u32,
    };
    let clock = Clock {
        hour: (digits / 10_000 % 100) as u32,
        minute: (digits / 100 % 100) as u32,
        second: (digits % 100) as u32,
        micros: 0,
    };
    put_shown_datetime(text, at, day, clock, 0)
}

/// Writes a DATETIME of eight bytes, without fraction.
fn put_old_datetime_field<'a>(
    text: &mut [u8],
    at: usize,
    bytes: &'a [u8],
) -> Result<(usize, &'a [u8]), RowsError>
    requires { at + 400 ≤ length text.old }
    ensures { WritesOrFails OldDatetime bytes.now at text.old text.new result }
{
    match read_old_datetime(bytes) {
        Ok((digits, rest)) => Ok((put_old_datetime(text, at, digits), rest)),
        Err(fault) => Err(fault),
    }
}

/// Writes a packed date and time.
#[inline(always)]
#[tactic(auto, unfolding(crate::specs::CellJson::IsCellJson, crate::specs::CellJson::date_shown))]
fn put_packed_datetime(text: &mut [u8], at: usize, packed: i64, digits: u8) -> usize
    requires { at + 400 ≤ length text.old }
    ensures { (c : ColumnView) → WritesSuch (IsCellJson c (Datetime2 digits) (cell_date packed)) at text.old text.new result }
{
    let (day, clock) = datetime_parts(packed);
    put_shown_datetime(text, at, day, clock, digits)
}

/// Writes a DATETIME.
#[inline(always)]
fn put_datetime_field<'a>(
    text: &mut [u8],
    at: usize,
    bytes: &'a [u8],
    digits: u8,
) -> Result<(usize, &'a [u8]), RowsError>
    requires { at + 400 ≤ length text.old }
    ensures { WritesOrFails (Datetime2 digits) bytes.now at text.old text.new result }
{
    match read_datetime(bytes, digits) {
        Ok((packed, rest)) => Ok((put_packed_datetime(text, at, packed, digits), rest)),
        Err(fault) => Err(fault),
    }
}

/// Writes a packed TIME.
#[inline(always)]
#[tactic(auto, unfolding(crate::specs::CellJson::IsCellJson))]
fn put_packed_time(text: &mut [u8], at: usize, packed: i64, digits: u8) -> usize
    requires { at + 400 ≤ length text.old }
    ensures { (c : ColumnView) → WritesSuch (IsCellJson c (Time2 digits) (cell_time packed)) at text.old text.new result }
{
    let (is_negative, clock) = time_parts(packed);
    put_shown_duration(text, at, is_negative, clock, digits)
}

/// Writes a TIME.
#[inline(always)]
fn put_time_field<'a>(
    text: &mut [u8],
    at: usize,
    bytes: &'a [u8],
    digits: u8,
) -> Result<(usize, &'a [u8]), RowsError>
    requires { at + 400 ≤ length text.old }
    ensures { WritesOrFails (Time2 digits) bytes.now at text.old text.new result }
{
    match read_time(bytes, digits) {
        Ok((packed, rest)) => Ok((put_packed_time(text, at, packed, digits), rest)),
        Err(fault) => Err(fault),
    }
}

/// Writes a TIMESTAMP.
#[inline(always)]
#[tactic(auto, unfolding(crate::specs::CellJson::IsCellJson, crate::specs::CellJson::IsBytesJson))]
fn put_timestamp_field<'a>(
    text: &mut [u8],
    at: usize,
    bytes: &'a [u8],
    digits: u8,
) -> Result<(usize, &'a [u8]), RowsError>
    requires { at + 400 ≤ length text.old }
    ensures { WritesOrFails (Timestamp2 digits) bytes.now at text.old text.new result }
{
    match read_timestamp(bytes, digits) {
        Ok(((seconds, micros), rest)) => {
            let end = put_instant(text, at, seconds.cast_unsigned(), micros, digits);
            Ok((end, rest))
        }
        Err(fault) => Err(fault),
    }
}

/// Writes a decimal in quotes.
#[inline(always)]
#[tactic(auto, unfolding(crate::specs::CellJson::IsCellJson, crate::specs::CellJson::IsBytesJson, rows_cells::specs::Cells::cell_at))]
fn put_decimal_field<'a>(
    text: &mut [u8],
    at: usize,
    bytes: &'a [u8],
    precision: u8,
    scale: u8,
) -> Result<(usize, &'a [u8]), RowsError>
    requires { at + 400 ≤ length text.old }
    ensures { WritesOrFails (Decimal precision scale) bytes.now at text.old text.new result }
{
    match split_decimal(bytes, precision, scale) {
        Ok((content, rest)) => {
            let (precision, scale) = (usize::from(precision), usize::from(scale));
            match put_quoted_decimal(text, at, precision, scale, content) {
                Some(end) => Ok((end, rest)),
                None => Err(RowsError::Decimal),
            }
        }
        Err(fault) => Err(fault),
    }
}

/// Writes the cell that the bytes begin with, if its format is one of these; other formats give no text.
#[inline(always)]
pub(crate) fn put_fixed_field<'a>(
    text: &mut [u8],
    at: usize,
    format: CellFormat,
    bytes: &'a [u8],
) -> Result<(usize, &'a [u8]), RowsError>
    requires room { at + 400 ≤ length text.old }
    requires fixed { IsFixed format }
    ensures { WritesOrFails format bytes.now at text.old text.new result }
{
    match format {
        CellFormat::Float => put_float_field(text, at, bytes),
        CellFormat::Double => put_double_field(text, at, bytes),
        CellFormat::Year => put_year_field(text, at, bytes),
        CellFormat::NewDate => put_date_field(text, at, bytes),
        CellFormat::OldTime => put_old_time_field(text, at, bytes),
        CellFormat::OldDatetime => put_old_datetime_field(text, at, bytes),
        CellFormat::Timestamp2(digits) => put_timestamp_field(text, at, bytes, digits),
        CellFormat::Datetime2(digits) => put_datetime_field(text, at, bytes, digits),
        CellFormat::Time2(digits) => put_time_field(text, at, bytes, digits),
        CellFormat::Decimal(precision, scale) => {
            put_decimal_field(text, at, bytes, precision, scale)
        }
        CellFormat::NoMetadata => Err(RowsError::Metadata),
        _ => Err(RowsError::Cell),
    }
}
