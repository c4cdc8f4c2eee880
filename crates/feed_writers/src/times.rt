//! Dates and times of day.

ghost use Rattle.std.specs.Prelude.{◌≡◌, ◌≤◌, ◌<◌, ◌+◌, ◌++◌, length, take};
ghost use Rattle.rows_values.specs.TimeTexts.{padded_decimal};
ghost use Rattle.feed_writers.specs.TimesOfDay.{clock_text, day_text};

use crate::digits::{put_bytes, put_padded, put_six};
use rows_values::{put_byte, put_four, put_two};

/// A time of day, or the rest of a span of time after its days.
#[derive(Clone, Copy, Debug, PartialEq, Eq)]
pub struct Clock {
    /// Hours, from 0 on.
    pub hour: u32,
    /// Minutes, from 0 on.
    pub minute: u32,
    /// Seconds, from 0 on.
    pub second: u32,
    /// Microseconds, from 0 on.
    pub micros: u32,
}

/// A date.
#[derive(Clone, Copy, Debug, PartialEq, Eq)]
pub struct Day {
    /// The year.
    pub year: u32,
    /// The month: 1 to 12 in a date of the calendar; MySQL allows 0.
    pub month: u32,
    /// The day of the month: 1 to 31 in a date of the calendar; MySQL allows 0.
    pub day: u32,
}

/// Writes a number with at least two digits.
#[inline(always)]
fn put_part(text: &mut [u8], at: usize, number: u32) -> usize
    requires { at + 10 ≤ length text.old }
    ensures most { result ≤ at + 10 }
    ensures text { take result text.new ≡ take at text.old ++ padded_decimal 2 number }
{
    if number >= 100 {
        return put_padded(text, at, 2, number);
    }
    put_two(text, at, number)
}

/// Writes a number with at least four digits.
#[inline(always)]
fn put_year(text: &mut [u8], at: usize, number: u32) -> usize
    requires { at + 10 ≤ length text.old }
    ensures most { result ≤ at + 10 }
    ensures text { take result text.new ≡ take at text.old ++ padded_decimal 4 number }
{
    if number >= 10_000 {
        return put_padded(text, at, 4, number);
    }
    put_four(text, at, number)
}

/// Writes a number with at least six digits.
#[inline(always)]
fn put_micros(text: &mut [u8], at: usize, number: u32) -> usize
    requires { at + 10 ≤ length text.old }
    ensures most { result ≤ at + 10 }
    ensures text { take result text.new ≡ take at text.old ++ padded_decimal 6 number }
{
    if number == 0 {
        return put_bytes(text, at, b"000000");
    }
    if number >= 1_000_000 {
        return put_padded(text, at, 6, number);
    }
    put_six(text, at, number)
}

/// Writes hours, minutes, seconds and microseconds as `hh:mm:ss.uuuuuu`. A field with more digits is written with all of them.
#[inline(always)]
#[tactic(auto, unfolding(crate::specs::TimesOfDay::clock_text))]
pub fn put_clock(text: &mut [u8], at: usize, clock: Clock) -> usize
    requires { at + 43 ≤ length text.old }
    ensures most { result ≤ at + 43 }
    ensures text { take result text.new ≡ take at text.old ++ clock_text clock }
{
    let end = put_part(text, at, clock.hour);
    let end = put_byte(text, end, b':');
    let end = put_part(text, end, clock.minute);
    let end = put_byte(text, end, b':');
    let end = put_part(text, end, clock.second);
    let end = put_byte(text, end, b'.');
    put_micros(text, end, clock.micros)
}

/// Writes year, month and day as `YYYY-MM-DD`. A field with more digits is written with all of them.
#[inline(always)]
#[tactic(auto, unfolding(crate::specs::TimesOfDay::day_text))]
pub fn put_day(text: &mut [u8], at: usize, day: Day) -> usize
    requires { at + 32 ≤ length text.old }
    ensures most { result ≤ at + 32 }
    ensures text { take result text.new ≡ take at text.old ++ day_text day }
{
    let end = put_year(text, at, day.year);
    let end = put_byte(text, end, b'-');
    let end = put_part(text, end, day.month);
    let end = put_byte(text, end, b'-');
    put_part(text, end, day.day)
}
