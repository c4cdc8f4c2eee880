//! The text of the cell at the start of the bytes, written directly into a buffer with room for it.
//!
//! These functions return `None` for a cell that can't be read, and for one whose text may be long; others write those.

ghost use Rattle.std.specs.Prelude.{◌≡◌, ◌≤◌, ◌+◌, ◌*◌, ◌++◌, ◌∷◌, IfNone, IfSome, length, take, false};
ghost use Rattle.std.specs.Fmt.{decimal, signed_decimal};
ghost use Rattle.rows_cells.specs.CellValues.{cell_date, cell_time};
ghost use Rattle.rows_cells.specs.declared.format.Width.TheVariants.{One, Four};
ghost use Rattle.rows_cells.specs.declared.format.CellFormat.TheVariants.{Signed, Unsigned, Counted, Datetime2, Time2, Decimal};
ghost use Rattle.feed_writers.specs.Quoting.{quoted};
ghost use Rattle.feed_text.specs.FieldText.{Advances, WritesField, WritesNext, WritesOrNone, WritesValue};

use crate::parts::{datetime_parts, time_parts};
use crate::short::{put_date, put_span};
use crate::short_decimals::put_short_decimal;
use feed_writers::{put_byte, put_bytes, put_few_quoted, put_number, put_quoted, put_signed};
use rows_cells::{
    CellFormat, CellRef, ImageField, Width, read_bytes, read_datetime, read_few_bytes, read_signed,
    read_time, read_unsigned, split_decimal,
};

/// The maximum length of the text of a field that is written here, in bytes.
pub(crate) const VALUE_LEN_MAX: usize = 194;

/// The maximum number of bytes whose quoted text is written here.
const VALUE_BYTES_MAX: usize = 64;

/// Writes the text of a field. The code here is that of the usual formats; another field takes one call.
#[inline(always)]
pub(crate) fn put_field<'a>(
    text: &mut [u8],
    at: usize,
    field: ImageField<'a>,
) -> Option<(usize, &'a [u8])>
    requires { at + 194 ≤ length text.old }
    ensures { WritesOrNone field.entry.is_null field.entry.format field.entry.bytes.now at text.old text.new result }
{
    if field.is_null {
        return Some((put_bytes(text, at, b"NULL"), field.bytes));
    }
    if let CellFormat::Signed(Width::Four) = field.format {
        return put_int_field(text, at, field.bytes);
    }
    match field.format {
        CellFormat::Signed(width) => put_signed_field(text, at, field.bytes, width),
        CellFormat::Counted(Width::One) => put_string_field(text, at, field.bytes),
        CellFormat::Datetime2(decimals) => put_datetime_field(text, at, field.bytes, decimals),
        CellFormat::Decimal(precision, scale) => {
            put_decimal_field(text, at, field.bytes, precision, scale)
        }
        format => put_other_field(text, at, field.bytes, format),
    }
}

/// Writes the text of a field by a call, whose result is in registers.
#[inline(always)]
fn put_other_field<'a>(
    text: &mut [u8],
    at: usize,
    bytes: &'a [u8],
    format: CellFormat,
) -> Option<(usize, &'a [u8])>
    requires { at + 194 ≤ length text.old }
    ensures { WritesOrNone false format bytes.now at text.old text.new result }
{
    let mut rest = bytes;
    match put_next_field(text, at, &mut rest, format) {
        Some(end) => Some((end, rest)),
        None => None,
    }
}

/// Writes the text of the field that `rest` begins with, and advances `rest` past it.
#[inline(never)]
fn put_next_field<'a>(
    text: &mut [u8],
    at: usize,
    rest: &mut &'a [u8],
    format: CellFormat,
) -> Option<usize>
    requires { at + 194 ≤ length text.old }
    ensures { WritesNext format rest.old.now rest.new.now at text.old text.new result }
{
    match format {
        CellFormat::Unsigned(width) => {
            let written = put_unsigned_field(text, at, *rest, width);
            advance(rest, written)
        }
        CellFormat::Counted(width) => {
            let written = put_bytes_field(text, at, *rest, width);
            advance(rest, written)
        }
        CellFormat::Time2(decimals) => {
            let written = put_time_field(text, at, *rest, decimals);
            advance(rest, written)
        }
        _ => None,
    }
}

/// Advances `rest` past a field that was written, and returns the offset of its end.
#[inline(always)]
fn advance<'a>(rest: &mut &'a [u8], written: Option<(usize, &'a [u8])>) -> Option<usize>
    ensures { Advances written.entry rest.new.now result }
{
    match written {
        Some((end, after)) => {
            *rest = after;
            Some(end)
        }
        None => None,
    }
}

/// Writes the text of an INT.
#[inline(always)]
#[tactic(auto, unfolding(crate::specs::CellText::cell_value_text))]
fn put_int_field<'a>(text: &mut [u8], at: usize, bytes: &'a [u8]) -> Option<(usize, &'a [u8])>
    requires { at + 76 ≤ length text.old }
    ensures { WritesOrNone false (Signed Four) bytes.now at text.old text.new result }
{
    match read_signed(bytes, Width::Four) {
        Ok((number, rest)) => Some((put_signed(text, at, number), rest)),
        Err(_) => None,
    }
}

/// Writes the text of a signed number.
#[inline(always)]
#[tactic(auto, unfolding(crate::specs::CellText::cell_value_text))]
fn put_signed_field<'a>(
    text: &mut [u8],
    at: usize,
    bytes: &'a [u8],
    width: Width,
) -> Option<(usize, &'a [u8])>
    requires { at + 76 ≤ length text.old }
    ensures { WritesOrNone false (Signed width) bytes.now at text.old text.new result }
{
    match read_signed(bytes, width) {
        Ok((number, rest)) => Some((put_any_signed(text, at, number), rest)),
        Err(_) => None,
    }
}

/// The same as [`put_signed`], as a call.
#[inline(never)]
fn put_any_signed(text: &mut [u8], at: usize, number: i64) -> usize
    requires { at + 21 ≤ length text.old }
    ensures most { result ≤ at + 21 }
    ensures text { take result text.new ≡ take at text.old ++ signed_decimal number }
{
    put_signed(text, at, number)
}

/// Writes the text of an unsigned number.
#[inline(always)]
#[tactic(auto, unfolding(crate::specs::CellText::cell_value_text))]
fn put_unsigned_field<'a>(
    text: &mut [u8],
    at: usize,
    bytes: &'a [u8],
    width: Width,
) -> Option<(usize, &'a [u8])>
    requires { at + 76 ≤ length text.old }
    ensures { WritesOrNone false (Unsigned width) bytes.now at text.old text.new result }
{
    match read_unsigned(bytes, width) {
        Ok((CellRef::Int(number), rest)) => Some((put_signed(text, at, number), rest)),
        Ok((CellRef::UInt(number), rest)) => Some((put_unsigned(text, at, number), rest)),
        _ => None,
    }
}

/// Writes `u` and a number.
#[inline(always)]
fn put_unsigned(text: &mut [u8], at: usize, number: u64) -> usize
    requires { at + 21 ≤ length text.old }
    ensures most { result ≤ at + 21 }
    ensures text { take result text.new ≡ take at text.old ++ 117 ∷ decimal number }
{
    let start = put_byte(text, at, b'u');
    put_number(text, start, number)
}

/// Writes the text of bytes after a length of one byte.
#[inline(always)]
fn put_string_field<'a>(text: &mut [u8], at: usize, bytes: &'a [u8]) -> Option<(usize, &'a [u8])>
    requires { at + 194 ≤ length text.old }
    ensures { WritesOrNone false (Counted One) bytes.now at text.old text.new result }
{
    match put_few_field(text, at, bytes) {
        Some(written) => Some(written),
        None => put_other_field(text, at, bytes, CellFormat::Counted(Width::One)),
    }
}

/// Writes the text of at most 16 bytes after a length of one byte, if sixteen bytes follow the length; else leaves the text
/// unchanged.
#[inline(always)]
#[tactic(auto, unfolding(crate::specs::CellText::cell_value_text))]
fn put_few_field<'a>(text: &mut [u8], at: usize, bytes: &'a [u8]) -> Option<(usize, &'a [u8])>
    requires { at + 194 ≤ length text.old }
    ensures none { IfNone result (text.new ≡ text.old) }
    ensures some { IfSome result (λ r. WritesField false (Counted One) bytes.now at text.old text.new r.0 r.1.now) }
{
    match read_few_bytes(bytes) {
        Some((window, len, rest)) => Some((put_few_bytes(text, at, window, len), rest)),
        None => None,
    }
}

/// The same as [`put_few_quoted`], as a call.
#[inline(never)]
fn put_few_bytes(text: &mut [u8], at: usize, bytes: &[u8], len: usize) -> usize
    requires few { len ≤ 16 }
    requires sixteen { 16 ≤ length bytes.now }
    requires room { at + 66 ≤ length text.old }
    ensures most { result ≤ at + (3 * len + 2) }
    ensures text { take result text.new ≡ take at text.old ++ quoted (take len bytes.now) }
{
    put_few_quoted(text, at, bytes, len)
}

/// Writes the text of bytes, if there are few.
#[inline(always)]
#[tactic(auto, unfolding(crate::specs::CellText::cell_value_text))]
fn put_bytes_field<'a>(
    text: &mut [u8],
    at: usize,
    bytes: &'a [u8],
    width: Width,
) -> Option<(usize, &'a [u8])>
    requires { at + 194 ≤ length text.old }
    ensures { WritesOrNone false (Counted width) bytes.now at text.old text.new result }
{
    match read_bytes(bytes, width) {
        Ok((content, rest)) => {
            if content.len() > VALUE_BYTES_MAX {
                return None;
            }
            Some((put_quoted(text, at, content), rest))
        }
        Err(_) => None,
    }
}

/// Writes the text of a DATETIME.
#[inline(always)]
#[tactic(auto, unfolding(crate::specs::CellText::cell_value_text, crate::specs::ShortTexts::short_text))]
fn put_datetime_field<'a>(
    text: &mut [u8],
    at: usize,
    bytes: &'a [u8],
    decimals: u8,
) -> Option<(usize, &'a [u8])>
    requires { at + 76 ≤ length text.old }
    ensures { WritesOrNone false (Datetime2 decimals) bytes.now at text.old text.new result }
{
    match read_datetime(bytes, decimals) {
        Ok((packed, rest)) => Some((put_datetime(text, at, packed), rest)),
        Err(_) => None,
    }
}

/// Writes a packed date and time.
#[inline(never)]
fn put_datetime(text: &mut [u8], at: usize, packed: i64) -> usize
    requires { at + 76 ≤ length text.old }
    ensures { WritesValue (cell_date packed) at text.old text.new result }
{
    let (day, clock) = datetime_parts(packed);
    if day.year >= 10_000 || clock.micros >= 1_000_000 {
        return put_long_datetime(text, at, packed);
    }
    put_date(text, at, day, clock)
}

/// The same for a year of five digits or microseconds of seven.
#[inline(never)]
fn put_long_datetime(text: &mut [u8], at: usize, packed: i64) -> usize
    requires { at + 76 ≤ length text.old }
    ensures { WritesValue (cell_date packed) at text.old text.new result }
{
    let (day, clock) = datetime_parts(packed);
    put_date(text, at, day, clock)
}

/// Writes the text of a TIME.
#[inline(always)]
#[tactic(auto, unfolding(crate::specs::CellText::cell_value_text, crate::specs::ShortTexts::short_text))]
fn put_time_field<'a>(
    text: &mut [u8],
    at: usize,
    bytes: &'a [u8],
    decimals: u8,
) -> Option<(usize, &'a [u8])>
    requires { at + 76 ≤ length text.old }
    ensures { WritesOrNone false (Time2 decimals) bytes.now at text.old text.new result }
{
    match read_time(bytes, decimals) {
        Ok((packed, rest)) => Some((put_time(text, at, packed), rest)),
        Err(_) => None,
    }
}

/// Writes a packed time.
#[inline(always)]
fn put_time(text: &mut [u8], at: usize, packed: i64) -> usize
    requires { at + 76 ≤ length text.old }
    ensures { WritesValue (cell_time packed) at text.old text.new result }
{
    let (is_negative, days, clock) = time_parts(packed);
    put_span(text, at, is_negative, days, clock)
}

/// Writes the text of a decimal with few digits by a call, whose result is in registers.
#[inline(always)]
fn put_decimal_field<'a>(
    text: &mut [u8],
    at: usize,
    bytes: &'a [u8],
    precision: u8,
    scale: u8,
) -> Option<(usize, &'a [u8])>
    requires { at + 76 ≤ length text.old }
    ensures { WritesOrNone false (Decimal precision scale) bytes.now at text.old text.new result }
{
    let mut rest = bytes;
    match put_next_decimal(text, at, &mut rest, precision, scale) {
        Some(end) => Some((end, rest)),
        None => None,
    }
}

/// Writes the text of the decimal that `rest` begins with, and advances `rest` past it.
#[inline(never)]
fn put_next_decimal<'a>(
    text: &mut [u8],
    at: usize,
    rest: &mut &'a [u8],
    precision: u8,
    scale: u8,
) -> Option<usize>
    requires { at + 76 ≤ length text.old }
    ensures { WritesNext (Decimal precision scale) rest.old.now rest.new.now at text.old text.new result }
{
    let written = put_decimal(text, at, *rest, precision, scale);
    advance(rest, written)
}

/// Writes the text of a decimal with few digits.
#[inline(always)]
fn put_decimal<'a>(
    text: &mut [u8],
    at: usize,
    bytes: &'a [u8],
    precision: u8,
    scale: u8,
) -> Option<(usize, &'a [u8])>
    requires { at + 76 ≤ length text.old }
    ensures { WritesOrNone false (Decimal precision scale) bytes.now at text.old text.new result }
{
    match split_decimal(bytes, precision, scale) {
        Ok((content, rest)) => {
            match put_short_decimal(text, at, bytes, content.len(), precision, scale) {
                Some(end) => Some((end, rest)),
                None => None,
            }
        }
        Err(_) => None,
    }
}
