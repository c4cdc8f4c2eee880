//! Dates and times, with a fraction if it isn't zero.

ghost use Rattle.std.specs.Prelude.{◌≡◌, ◌≤◌, ◌+◌, ◌/◌, ◌%◌, ◌++◌, OnOk, length, take};
ghost use Rattle.feed_text.specs.Buffers.{text_in};
ghost use Rattle.changes_writers.specs.FloatTexts.{AppendsSuch};
ghost use Rattle.rows_cells.specs.CellValues.{cell_date, cell_time, date, new_date, old_datetime, old_time, time};
ghost use Rattle.changes_statements.specs.SqlTimes.{time_of_day, date_text, datetime_text, duration_text, IsInstantText, IsUtcText};

use changes_writers::utc_of_seconds;
use feed_text::TextBuffer;
use feed_writers::{Clock, Day, put_byte, put_day, put_padded};
use std::alloc::{AllocError, Global};

/// The room for a date and a time.
const TIME_ROOM: usize = 128;

/// Writes `hh:mm:ss`, and the microseconds after a point if there are any.
#[tactic(auto, unfolding(crate::specs::SqlTimes::time_of_day))]
fn put_time_of_day(text: &mut [u8], at: usize, clock: Clock) -> usize
    requires { at + 54 ≤ length text.old }
    ensures most { result ≤ at + 43 }
    ensures text { take result text.new ≡ take at text.old ++ time_of_day clock }
{
    let end = put_padded(text, at, 2, clock.hour);
    let end = put_byte(text, end, b':');
    let end = put_padded(text, end, 2, clock.minute);
    let end = put_byte(text, end, b':');
    let end = put_padded(text, end, 2, clock.second);
    if clock.micros == 0 {
        return end;
    }
    let end = put_byte(text, end, b'.');
    put_padded(text, end, 6, clock.micros)
}

/// Appends a date.
pub(crate) fn put_date(day: Day, out: &mut TextBuffer<Global>) -> Result<(), AllocError>
    ensures { OnOk result (text_in out.new ≡ text_in out.old ++ date_text day) }
{
    let mut short = [0; TIME_ROOM];
    let start = put_byte(&mut short, 0, b'\'');
    let end = put_day(&mut short, start, day);
    let end = put_byte(&mut short, end, b'\'');
    out.put_text(&short[..end])
}

/// Appends a date and a time.
pub(crate) fn put_datetime(
    day: Day,
    clock: Clock,
    out: &mut TextBuffer<Global>,
) -> Result<(), AllocError>
    ensures { OnOk result (text_in out.new ≡ text_in out.old ++ datetime_text day clock) }
{
    let mut short = [0; TIME_ROOM];
    let start = put_byte(&mut short, 0, b'\'');
    let end = put_day(&mut short, start, day);
    let start = put_byte(&mut short, end, b' ');
    let end = put_time_of_day(&mut short, start, clock);
    let end = put_byte(&mut short, end, b'\'');
    out.put_text(&short[..end])
}

/// Appends a time, which may be negative.
pub(crate) fn put_duration(
    is_negative: bool,
    clock: Clock,
    out: &mut TextBuffer<Global>,
) -> Result<(), AllocError>
    ensures { OnOk result (text_in out.new ≡ text_in out.old ++ duration_text is_negative clock) }
{
    let mut short = [0; TIME_ROOM];
    let start = put_byte(&mut short, 0, b'\'');
    short[start] = b'-';
    let start = start + usize::from(is_negative);
    let end = put_time_of_day(&mut short, start, clock);
    let end = put_byte(&mut short, end, b'\'');
    out.put_text(&short[..end])
}

/// Appends the date and the time in UTC of so many seconds since 1970, and microseconds: all zero for 0.
pub fn put_instant(
    seconds: u32,
    micros: u32,
    out: &mut TextBuffer<Global>,
) -> Result<(), AllocError>
    ensures { OnOk result (AppendsSuch (IsInstantText seconds micros) (text_in out.old) (text_in out.new)) }
{
    if seconds == 0 {
        if micros == 0 {
            return out.put_text(b"'0000-00-00 00:00:00'");
        }
    }
    put_utc(seconds, micros, out)
}

/// Appends the date and the time in UTC of so many seconds since 1970, and microseconds.
fn put_utc(seconds: u32, micros: u32, out: &mut TextBuffer<Global>) -> Result<(), AllocError>
    ensures { OnOk result (AppendsSuch (IsUtcText seconds micros) (text_in out.old) (text_in out.new)) }
{
    let (day, clock) = utc_of_seconds(i64::from(seconds), micros);
    put_datetime(day, clock, out)
}

/// The date of a NEWDATE: the day in the lowest five bits, the month in the next four, the year above them.
pub fn day_of(bits: u32) -> Day
    ensures { new_date bits ≡ date result.year result.month result.day 0 0 0 0 }
{
    Day {
        year: bits / 512 % 65_536,
        month: bits / 32 % 16,
        day: bits % 32,
    }
}

/// The date and the time of a packed DATETIME2. Its sign is ignored.
pub fn datetime_parts(packed: i64) -> (Day, Clock)
    ensures { cell_date packed ≡ date result.0.year result.0.month result.0.day result.1.hour result.1.minute result.1.second result.1.micros }
{
    let size = packed.unsigned_abs();
    let whole = size / 16_777_216;
    let days = (whole / 131_072) as u32;
    let clock = (whole % 131_072) as u32;
    let months = days / 32;
    let day = Day {
        year: months / 13,
        month: months % 13,
        day: days % 32,
    };
    let clock = Clock {
        hour: clock / 4096,
        minute: clock / 64 % 64,
        second: clock % 64,
        micros: (size % 16_777_216) as u32,
    };
    (day, clock)
}

/// Whether a packed TIME2 is negative, and its size, with all hours.
pub fn time_parts(packed: i64) -> (bool, Clock)
    ensures { cell_time packed ≡ time result.0 (result.1.hour / 24) (result.1.hour % 24) result.1.minute result.1.second result.1.micros }
{
    let size = packed.unsigned_abs();
    let whole = size / 16_777_216;
    let clock = Clock {
        hour: (whole / 4096 % 1024) as u32,
        minute: (whole / 64 % 64) as u32,
        second: (whole % 64) as u32,
        micros: (size % 16_777_216) as u32,
    };
    (packed < 0, clock)
}

/// Whether a TIME of three bytes is negative, and its size, by its digits `hhmmss`.
pub fn old_time_parts(digits: i32) -> (bool, Clock)
    ensures { old_time digits ≡ time result.0 (result.1.hour / 24) (result.1.hour % 24) result.1.minute result.1.second result.1.micros }
{
    let size = digits.unsigned_abs();
    let clock = Clock {
        hour: size / 10_000,
        minute: size / 100 % 100,
        second: size % 100,
        micros: 0,
    };
    (digits < 0, clock)
}

/// The date and the time of a DATETIME of eight bytes, by its digits `YYYYMMDDhhmmss`.
pub fn old_datetime_parts(digits: u64) -> (Day, Clock)
    ensures { old_datetime digits ≡ date result.0.year result.0.month result.0.day result.1.hour result.1.minute result.1.second result.1.micros }
{
    let day = Day {
        year: (digits / 10_000_000_000 % 65_536) as u32,
        month: (digits / 100_000_000 % 100) as u32,
        day: (digits / 1_000_000 % 100) as u32,
    };
    let clock = Clock {
        hour: (digits / 10_000 % 100) as u32,
        minute: (digits / 100 % 100) as u32,
        second: (digits % 100) as u32,
        micros: 0,
    };
    (day, clock)
}
