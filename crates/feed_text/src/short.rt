//! Values with a short text, for which room is reserved once.

ghost use Rattle.std.specs.Prelude.{◌≡◌, ◌≤◌, ◌+◌, ◌++◌, length, take};
ghost use Rattle.std.specs.Fmt.{decimal};
ghost use Rattle.rows_cells.specs.CellValues.{timestamp_text, cell_micros_text};
ghost use Rattle.feed_writers.specs.Quoting.{quoted};
ghost use Rattle.feed_text.specs.Times.{date_text, span_text};
ghost use Rattle.feed_text.specs.ShortTexts.{short_text};

use feed_writers::{
    Clock, Day, put_byte, put_bytes, put_clock, put_day, put_hexadecimal, put_number, put_padded,
    put_signed,
};

/// The maximum length of a short text in bytes.
pub(crate) const SHORT_LEN_MAX: usize = 76;

/// The maximum number of bytes whose quoted text is short.
pub(crate) const SHORT_BYTES_MAX: usize = 24;

/// The maximum number of digits of a decimal whose quoted text is short.
pub(crate) const FEW_DIGITS: u8 = 71;

/// A value with a short text.
#[derive(Clone, Copy)]
pub(crate) enum Short {
    Null,
    Int(i64),
    UInt(u64),
    /// The bits of a float.
    Float(u32),
    /// The bits of a double.
    Double(u64),
    /// Years since 1900.
    Year(u8),
    Date(Day, Clock),
    /// Whether it is negative, its days, and the rest of it.
    Span(bool, u32, Clock),
    /// Seconds since 1970, and microseconds.
    Timestamp(i32, i32),
}

/// Writes a short text, and returns the offset of its end.
#[inline(always)]
#[tactic(auto, unfolding(crate::specs::ShortTexts::short_text))]
pub(crate) fn put_short(text: &mut [u8], at: usize, short: Short) -> usize
    requires { at + 76 ≤ length text.old }
    ensures most { result ≤ at + 76 }
    ensures text { take result text.new ≡ take at text.old ++ short_text short }
{
    match short {
        Short::Int(number) => put_signed(text, at, number),
        Short::UInt(number) => {
            let end = put_byte(text, at, b'u');
            put_number(text, end, number)
        }
        Short::Null => put_bytes(text, at, b"NULL"),
        Short::Date(day, clock) => put_date(text, at, day, clock),
        Short::Span(is_negative, days, clock) => put_span(text, at, is_negative, days, clock),
        Short::Timestamp(seconds, micros) => put_timestamp(text, at, seconds, micros),
        Short::Year(years) => put_year(text, at, years),
        Short::Float(bits) => {
            let end = put_byte(text, at, b'f');
            put_hexadecimal(text, end, &bits.to_be_bytes())
        }
        Short::Double(bits) => {
            let end = put_byte(text, at, b'd');
            put_hexadecimal(text, end, &bits.to_be_bytes())
        }
    }
}

/// Writes a date, `T` and a time of day.
#[inline(always)]
#[tactic(auto, unfolding(crate::specs::Times::date_text))]
pub(crate) fn put_date(text: &mut [u8], at: usize, day: Day, clock: Clock) -> usize
    requires { at + 76 ≤ length text.old }
    ensures most { result ≤ at + 76 }
    ensures text { take result text.new ≡ take at text.old ++ date_text day clock }
{
    let end = put_day(text, at, day);
    let end = put_byte(text, end, b'T');
    put_clock(text, end, clock)
}

/// Writes a `-` if it is negative, days, `d` and the rest of the time.
#[inline(always)]
#[tactic(auto, unfolding(crate::specs::Times::span_text))]
pub(crate) fn put_span(
    text: &mut [u8],
    at: usize,
    is_negative: bool,
    days: u32,
    clock: Clock,
) -> usize
    requires { at + 76 ≤ length text.old }
    ensures most { result ≤ at + 76 }
    ensures text { take result text.new ≡ take at text.old ++ span_text is_negative days clock }
{
    let start = if is_negative {
        put_byte(text, at, b'-')
    } else {
        at
    };
    let end = put_number(text, start, u64::from(days));
    let end = put_byte(text, end, b'd');
    put_clock(text, end, clock)
}

/// Writes a quoted year, given in years since 1900.
#[inline(always)]
fn put_year(text: &mut [u8], at: usize, years: u8) -> usize
    requires { at + 76 ≤ length text.old }
    ensures most { result ≤ at + 76 }
    ensures text { take result text.new ≡ take at text.old ++ quoted (decimal (1900 + years)) }
{
    let end = put_byte(text, at, b'\'');
    let end = put_number(text, end, 1900 + u64::from(years));
    put_byte(text, end, b'\'')
}

/// Writes quoted seconds, with a point and microseconds if there are any.
#[inline(always)]
fn put_timestamp(text: &mut [u8], at: usize, seconds: i32, micros: i32) -> usize
    requires { at + 76 ≤ length text.old }
    ensures most { result ≤ at + 76 }
    ensures text { take result text.new ≡ take at text.old ++ quoted (timestamp_text (seconds, micros)) }
{
    let end = put_byte(text, at, b'\'');
    let end = put_seconds(text, end, seconds, micros);
    put_byte(text, end, b'\'')
}

/// Writes seconds, with a point and microseconds if there are any.
#[inline(always)]
#[tactic(auto, unfolding(rows_cells::specs::CellValues::timestamp_text))]
fn put_seconds(text: &mut [u8], at: usize, seconds: i32, micros: i32) -> usize
    requires { at + 40 ≤ length text.old }
    ensures most { result ≤ at + 40 }
    ensures text { take result text.new ≡ take at text.old ++ timestamp_text (seconds, micros) }
{
    let end = put_signed(text, at, i64::from(seconds));
    put_micros(text, end, micros)
}

/// Writes a point and microseconds if there are any: six characters, including a sign.
#[inline(always)]
fn put_micros(text: &mut [u8], at: usize, micros: i32) -> usize
    requires { at + 12 ≤ length text.old }
    ensures most { result ≤ at + 12 }
    ensures text { take result text.new ≡ take at text.old ++ cell_micros_text micros }
{
    let size = micros.unsigned_abs();
    if size == 0 {
        return at;
    }
    let end = put_byte(text, at, b'.');
    if micros < 0 {
        let end = put_byte(text, end, b'-');
        return put_padded(text, end, 5, size);
    }
    put_padded(text, end, 6, size)
}
