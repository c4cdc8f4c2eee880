//! Dates and times, with as many digits of the fraction as their column has.

ghost use Rattle.std.specs.Prelude.{◌≡◌, ◌≤◌, ◌+◌, ◌/◌, ◌%◌, ◌++◌, pos, length, take};
ghost use Rattle.std.specs.Fmt.{sign_text};
ghost use Rattle.rows_cells.specs.CellValues.{cell_date, cell_time, date, time};
ghost use Rattle.changes_cells.specs.ShownTimes.{IsInstant, IsUtc, in_quotes, shown_digits, time_and_number, numbered_datetime, shown_datetime, shown_duration};
ghost use Rattle.changes_cells.specs.FieldJson.{WritesSuch};

use changes_writers::{put_datetime, put_duration, utc_of_seconds};
use feed_writers::{Clock, Day, put_byte, put_day, put_padded, put_signed};

/// How many microseconds make up one unit of the last of so many digits.
static UNITS: [u32; 7] = [1_000_000, 100_000, 10_000, 1_000, 100, 10, 1];

/// The microseconds of a second.
const MICROS: u32 = 1_000_000;

/// Returns how many digits of the fraction are shown: those of the column, or six if the others aren't zeros.
#[inline(always)]
fn shown_digits(digits: u8, micros: u32) -> u8
    ensures { result ≡ shown_digits digits micros }
{
    if digits >= 6 || micros % UNITS[usize::from(digits)] == 0 {
        return digits;
    }
    6
}

/// Writes `hh:mm:ss`, a point and a number.
#[tactic(auto, unfolding(crate::specs::ShownTimes::time_and_number))]
fn put_time_and_number(text: &mut [u8], at: usize, clock: Clock, number: i64) -> usize
    requires { at + 54 ≤ length text.old }
    ensures most { result ≤ at + 54 }
    ensures text { take result text.new ≡ take at text.old ++ time_and_number clock number }
{
    let end = put_padded(text, at, 2, clock.hour);
    let end = put_byte(text, end, b':');
    let end = put_padded(text, end, 2, clock.minute);
    let end = put_byte(text, end, b':');
    let end = put_padded(text, end, 2, clock.second);
    let end = put_byte(text, end, b'.');
    put_signed(text, end, number)
}

/// Writes a date and a time with a number of microseconds that a second doesn't have.
#[cold]
#[inline(never)]
fn put_numbered_datetime(text: &mut [u8], at: usize, day: Day, clock: Clock, number: i64) -> usize
    requires { at + 100 ≤ length text.old }
    ensures most { result ≤ at + 100 }
    ensures text { take result text.new ≡ take at text.old ++ numbered_datetime day clock number }
{
    let start = put_byte(text, at, b'"');
    let end = put_day(text, start, day);
    let start = put_byte(text, end, b' ');
    let end = put_time_and_number(text, start, clock, number);
    put_byte(text, end, b'"')
}

/// Writes a date and a time.
#[inline(always)]
#[tactic(auto, unfolding(crate::specs::ShownTimes::shown_datetime))]
pub(crate) fn put_shown_datetime(
    text: &mut [u8],
    at: usize,
    day: Day,
    clock: Clock,
    digits: u8,
) -> usize
    requires { at + 100 ≤ length text.old }
    ensures most { result ≤ at + 100 }
    ensures text { take result text.new ≡ take at text.old ++ shown_datetime digits day clock }
{
    if clock.micros >= MICROS {
        return put_numbered_datetime(text, at, day, clock, i64::from(clock.micros));
    }
    put_datetime(text, at, day, clock, shown_digits(digits, clock.micros))
}

/// Writes a time with a number of microseconds that a second doesn't have.
#[cold]
#[inline(never)]
fn put_numbered_duration(text: &mut [u8], at: usize, is_negative: bool, clock: Clock) -> usize
    requires { at + 100 ≤ length text.old }
    ensures most { result ≤ at + 100 }
    ensures text { take result text.new ≡ take at text.old ++ in_quotes (sign_text is_negative ++ time_and_number clock (pos clock.micros)) }
{
    let start = put_byte(text, at, b'"');
    text[start] = b'-';
    let start = start + usize::from(is_negative);
    let end = put_time_and_number(text, start, clock, i64::from(clock.micros));
    put_byte(text, end, b'"')
}

/// Writes a time.
#[inline(always)]
#[tactic(auto, unfolding(crate::specs::ShownTimes::shown_duration))]
pub(crate) fn put_shown_duration(
    text: &mut [u8],
    at: usize,
    is_negative: bool,
    clock: Clock,
    digits: u8,
) -> usize
    requires { at + 100 ≤ length text.old }
    ensures most { result ≤ at + 100 }
    ensures text { take result text.new ≡ take at text.old ++ shown_duration digits is_negative clock }
{
    if clock.micros >= MICROS {
        return put_numbered_duration(text, at, is_negative, clock);
    }
    put_duration(
        text,
        at,
        is_negative,
        clock,
        shown_digits(digits, clock.micros),
    )
}

/// Writes the date and the time in UTC of so many seconds since 1970, and microseconds.
#[inline(always)]
fn put_utc(text: &mut [u8], at: usize, seconds: u32, micros: i32, digits: u8) -> usize
    requires { at + 100 ≤ length text.old }
    ensures { WritesSuch (IsUtc digits seconds micros) at text.old text.new result }
{
    let (day, clock) = utc_of_seconds(i64::from(seconds), micros.unsigned_abs());
    if micros < 0 {
        return put_numbered_datetime(text, at, day, clock, i64::from(micros));
    }
    put_shown_datetime(text, at, day, clock, digits)
}

/// Writes a TIMESTAMP, given its seconds since 1970: all zero for 0 without a fraction.
#[inline(never)]
#[tactic(auto, unfolding(crate::specs::ShownTimes::IsInstant))]
pub(crate) fn put_instant(
    text: &mut [u8],
    at: usize,
    seconds: u32,
    micros: i32,
    digits: u8,
) -> usize
    requires { at + 100 ≤ length text.old }
    ensures { WritesSuch (IsInstant digits seconds micros) at text.old text.new result }
{
    if seconds != 0 {
        return put_utc(text, at, seconds, micros, digits);
    }
    if micros != 0 {
        return put_utc(text, at, seconds, micros, digits);
    }
    let day = Day {
        year: 0,
        month: 0,
        day: 0,
    };
    let clock = Clock {
        hour: 0,
        minute: 0,
        second: 0,
        micros: 0,
    };
    put_shown_datetime(text, at, day, clock, digits)
}

/// The date and the time of a packed DATETIME2. Its sign is ignored.
#[inline(always)]
pub(crate) fn datetime_parts(packed: i64) -> (Day, Clock)
    ensures { cell_date packed ≡ date result.0.year result.0.month result.0.day result.1.hour result.1.minute result.1.second result.1.micros }
{
    let size = packed.unsigned_abs();
    let whole = size / 16_777_216;
    let days = (whole / 131_072) as u32;
    let clock = (whole % 131_072) as u32;
    let months = days / 32;
    let day = Day {
        year: months / 13,
        month: months % 13,
        day: days % 32,
    };
    let clock = Clock {
        hour: clock / 4096,
        minute: clock / 64 % 64,
        second: clock % 64,
        micros: (size % 16_777_216) as u32,
    };
    (day, clock)
}

/// Whether a packed TIME2 is negative, and its size, with all hours.
#[inline(always)]
pub(crate) fn time_parts(packed: i64) -> (bool, Clock)
    ensures { cell_time packed ≡ time result.0 (result.1.hour / 24) (result.1.hour % 24) result.1.minute result.1.second result.1.micros }
{
    let size = packed.unsigned_abs();
    let whole = size / 16_777_216;
    let clock = Clock {
        hour: (whole / 4096 % 1024) as u32,
        minute: (whole / 64 % 64) as u32,
        second: (whole % 64) as u32,
        micros: (size % 16_777_216) as u32,
    };
    (packed < 0, clock)
}
