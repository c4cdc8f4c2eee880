//! Dates and times as Debezium has them by default (`time.precision.mode=adaptive_time_microseconds`).

ghost use Rattle.std.specs.Prelude.{◌≡◌, ◌++◌, OnOk};
ghost use Rattle.feed_text.specs.Buffers.{text_in};
ghost use Rattle.changes_writers.specs.FloatTexts.{AppendsSuch};
ghost use Rattle.changes_formats.specs.EpochTimes.{IsDaysText, IsInstantText, IsZonedText, no_date, span_text, zoned};

use crate::epoch::{days_of, micros_of, span_micros};
use crate::members::content_of;
use crate::numbers::put_integer;
use changes_commands::Format;
use changes_writers::{put_duration, utc_of_seconds};
use feed_text::TextBuffer;
use feed_writers::{Clock, Day, put_day};
use std::alloc::{AllocError, Global};

/// The room for a date or a time.
const TIME_ROOM: usize = 64;

/// Up to so many digits of the fraction the time of a DATETIME is in milliseconds.
const MILLIS_DIGITS: u8 = 3;

/// Appends what is in place of a date that the calendar doesn't have: null, or 1970 in a column that may not be null.
fn put_no_date(
    may_be_null: bool,
    first: &[u8],
    out: &mut TextBuffer<Global>,
) -> Result<(), AllocError>
    ensures { OnOk result (text_in out.new ≡ text_in out.old ++ no_date may_be_null first.now) }
{
    if may_be_null {
        return out.put_text(b"null");
    }
    out.put_text(first)
}

/// Appends a DATE: its days since 1970. `may_be_null` says whether its column may be null.
pub(crate) fn put_days(
    may_be_null: bool,
    day: Day,
    out: &mut TextBuffer<Global>,
) -> Result<(), AllocError>
    ensures { OnOk result (AppendsSuch (IsDaysText may_be_null day) (text_in out.old) (text_in out.new)) }
{
    match days_of(day) {
        Some(days) => put_integer(Format::Debezium, days, out),
        None => put_no_date(may_be_null, b"0", out),
    }
}

/// Appends a DATETIME: the milliseconds since 1970, or the microseconds if its column has more than three `digits` of the
/// fraction.
pub(crate) fn put_instant(
    may_be_null: bool,
    digits: u8,
    day: Day,
    clock: Clock,
    out: &mut TextBuffer<Global>,
) -> Result<(), AllocError>
    ensures { OnOk result (AppendsSuch (IsInstantText may_be_null digits day clock) (text_in out.old) (text_in out.new)) }
{
    let Some(micros) = micros_of(day, clock) else {
        return put_no_date(may_be_null, b"0", out);
    };
    if digits > MILLIS_DIGITS {
        return put_integer(Format::Debezium, micros, out);
    }
    put_integer(Format::Debezium, micros / 1000, out)
}

/// Appends a TIME: its microseconds.
pub(crate) fn put_micros(
    is_negative: bool,
    clock: Clock,
    out: &mut TextBuffer<Global>,
) -> Result<(), AllocError>
    ensures { OnOk result (text_in out.new ≡ text_in out.old ++ span_text is_negative clock) }
{
    let micros = span_micros(clock);
    if is_negative && micros != 0 {
        out.put(b'-')?;
    }
    out.put_number(micros)
}

/// Appends a date and a time in UTC, as in ISO 8601.
fn put_iso(
    day: Day,
    clock: Clock,
    digits: u8,
    out: &mut TextBuffer<Global>,
) -> Result<(), AllocError>
    ensures { OnOk result (text_in out.new ≡ text_in out.old ++ zoned digits day clock) }
{
    let mut short = [0; TIME_ROOM];
    out.put(b'"')?;
    let end = put_day(&mut short, 0, day);
    out.put_text(&short[..end])?;
    out.put(b'T')?;
    let end = put_duration(&mut short, 0, false, clock, digits);
    out.put_text(content_of(&short[..end]))?;
    out.put_text(b"Z\"")?;
    Ok(())
}

/// Appends a TIMESTAMP: its date and its time in UTC, as in ISO 8601.
pub(crate) fn put_zoned(
    may_be_null: bool,
    digits: u8,
    seconds: u32,
    micros: u32,
    out: &mut TextBuffer<Global>,
) -> Result<(), AllocError>
    ensures { OnOk result (AppendsSuch (IsZonedText may_be_null digits seconds micros) (text_in out.old) (text_in out.new)) }
{
    if seconds == 0 && micros == 0 {
        return put_no_date(may_be_null, b"\"1970-01-01T00:00:00Z\"", out);
    }
    let (day, clock) = utc_of_seconds(i64::from(seconds), micros);
    put_iso(day, clock, digits, out)
}
