//! Dates and times as Maxwell and Canal have them: as MySQL prints them, with as many digits of the fraction as their column has.

ghost use Rattle.std.specs.Prelude.{◌≡◌, ◌++◌, OnOk};
ghost use Rattle.feed_text.specs.Buffers.{text_in};
ghost use Rattle.changes_writers.specs.FloatTexts.{AppendsSuch};
ghost use Rattle.changes_writers.specs.TimeStrings.{date_json, datetime_json, duration_json};
ghost use Rattle.changes_formats.specs.EpochTimes.{IsTimestampText};

use changes_writers::{put_date, put_datetime, put_duration, utc_of_seconds};
use feed_text::TextBuffer;
use feed_writers::{Clock, Day};
use std::alloc::{AllocError, Global};

/// The room for a date and a time in quotes.
const TIME_ROOM: usize = 128;

/// The date of a TIMESTAMP of 0.
const NO_DAY: Day = Day {
    year: 0,
    month: 0,
    day: 0,
};

/// Its time.
const NO_TIME: Clock = Clock {
    hour: 0,
    minute: 0,
    second: 0,
    micros: 0,
};

/// Appends a date.
pub(crate) fn put_day(day: Day, out: &mut TextBuffer<Global>) -> Result<(), AllocError>
    ensures { OnOk result (text_in out.new ≡ text_in out.old ++ date_json day) }
{
    let mut short = [0; TIME_ROOM];
    let end = put_date(&mut short, 0, day);
    out.put_text(&short[..end])
}

/// Appends a date and a time.
pub(crate) fn put_day_and_time(
    day: Day,
    clock: Clock,
    digits: u8,
    out: &mut TextBuffer<Global>,
) -> Result<(), AllocError>
    ensures { OnOk result (text_in out.new ≡ text_in out.old ++ datetime_json digits day clock) }
{
    let mut short = [0; TIME_ROOM];
    let end = put_datetime(&mut short, 0, day, clock, digits);
    out.put_text(&short[..end])
}

/// Appends a time span.
pub(crate) fn put_span(
    is_negative: bool,
    clock: Clock,
    digits: u8,
    out: &mut TextBuffer<Global>,
) -> Result<(), AllocError>
    ensures { OnOk result (text_in out.new ≡ text_in out.old ++ duration_json digits is_negative clock) }
{
    let mut short = [0; TIME_ROOM];
    let end = put_duration(&mut short, 0, is_negative, clock, digits);
    out.put_text(&short[..end])
}

/// Appends the date and the time in UTC of a TIMESTAMP: all zero for 0.
pub(crate) fn put_timestamp(
    seconds: u32,
    micros: u32,
    digits: u8,
    out: &mut TextBuffer<Global>,
) -> Result<(), AllocError>
    ensures { OnOk result (AppendsSuch (IsTimestampText digits seconds micros) (text_in out.old) (text_in out.new)) }
{
    if seconds == 0 && micros == 0 {
        return put_day_and_time(NO_DAY, NO_TIME, digits, out);
    }
    let (day, clock) = utc_of_seconds(i64::from(seconds), micros);
    put_day_and_time(day, clock, digits, out)
}
