//! Dates and times as strings.

ghost use Rattle.std.specs.Prelude.{◌≡◌, ◌≤◌, ◌<◌, ◌+◌, ◌++◌, length, take};
ghost use Rattle.std.specs.Fmt.{sign_text};
ghost use Rattle.changes_writers.specs.TimeStrings.{time_digits, date_json, datetime_json, duration_json};

use feed_writers::{Clock, Day, put_byte, put_clock, put_day};

/// Writes `hh:mm:ss`, and the first `digits` of the six digits of the microseconds after a point.
#[inline(always)]
fn put_time(text: &mut [u8], at: usize, clock: Clock, digits: u8) -> usize
    requires { at + 43 ≤ length text.old }
    ensures most { result ≤ at + 43 }
    ensures text { take result text.new ≡ take at text.old ++ time_digits digits clock }
{
    let micros = clock.micros % 1_000_000;
    let end = put_clock(text, at, Clock { micros, ..clock });
    if digits == 0 {
        return end - 7;
    }
    end - 6usize.saturating_sub(usize::from(digits))
}

/// Writes `YYYY-MM-DD` as a string.
#[inline(always)]
pub fn put_date(text: &mut [u8], at: usize, day: Day) -> usize
    requires { at + 34 ≤ length text.old }
    ensures most { result ≤ at + 34 }
    ensures text { take result text.new ≡ take at text.old ++ date_json day }
{
    let start = put_byte(text, at, b'"');
    let end = put_day(text, start, day);
    put_byte(text, end, b'"')
}

/// Writes `YYYY-MM-DD hh:mm:ss` as a string, with the first `digits` of the six digits of the microseconds after a point.
#[inline(never)]
pub fn put_datetime(text: &mut [u8], at: usize, day: Day, clock: Clock, digits: u8) -> usize
    requires { at + 78 ≤ length text.old }
    ensures most { result ≤ at + 78 }
    ensures text { take result text.new ≡ take at text.old ++ datetime_json digits day clock }
{
    let start = put_byte(text, at, b'"');
    let end = put_day(text, start, day);
    let start = put_byte(text, end, b' ');
    let end = put_time(text, start, clock, digits);
    put_byte(text, end, b'"')
}

/// Writes a time as a string: `hh:mm:ss` with the first `digits` of the six digits of the microseconds after a point, and after a
/// `-` if it is negative.
#[inline(never)]
pub fn put_duration(
    text: &mut [u8],
    at: usize,
    is_negative: bool,
    clock: Clock,
    digits: u8,
) -> usize
    requires { at + 46 ≤ length text.old }
    ensures most { result ≤ at + 46 }
    ensures text { take result text.new ≡ take at text.old ++ duration_json digits is_negative clock }
{
    let start = put_byte(text, at, b'"');
    let start = put_sign(text, start, is_negative);
    let end = put_time(text, start, clock, digits);
    put_byte(text, end, b'"')
}

/// Writes a `-` for a negative time. It is stored in any case, so that there is no branch on the sign.
#[inline(always)]
fn put_sign(text: &mut [u8], at: usize, is_negative: bool) -> usize
    requires { at < length text.old }
    ensures most { result ≤ at + 1 }
    ensures text { take result text.new ≡ take at text.old ++ sign_text is_negative }
{
    text[at] = b'-';
    at + usize::from(is_negative)
}
