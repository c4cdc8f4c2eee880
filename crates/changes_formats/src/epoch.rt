//! Dates and times as numbers since 1970, by the Gregorian calendar.

ghost use Rattle.std.specs.Prelude.{◌≡◌, ◌≤◌, IfSome, IfNone, take};
ghost use Rattle.std.specs.List.{sum};
ghost use Rattle.changes_writers.specs.CivilDates.{day_number as day_number_of, days_before_year as days_before, is_leap as is_leap_year, month_lengths};
ghost use Rattle.changes_formats.specs.EpochTimes.{IsInstant, IsOfCalendar, days_from_1970, micros_from_1970, span_micros as micros_in};

use feed_writers::{Clock, Day};

/// The days before 1970, from the year 0 on.
const DAYS_TO_1970: i64 = 719_528;

/// The days of a year before each month, and before the next year.
static MONTHS: [u16; 13] = [0, 31, 59, 90, 120, 151, 181, 212, 243, 273, 304, 334, 365];

/// The same of a year with a 29 February.
static LEAP_MONTHS: [u16; 13] = [0, 31, 60, 91, 121, 152, 182, 213, 244, 274, 305, 335, 366];

/// The last year of a DATE.
const LAST_YEAR: u32 = 9_999;

/// The microseconds of a second, a minute, an hour and a day.
const SECOND: u32 = 1_000_000;

const MINUTE: u64 = 60_000_000;

const HOUR: u64 = 3_600_000_000;

const DAY: i64 = 86_400_000_000;

/// Whether a year has a 29 February.
fn is_leap(year: u32) -> bool
    ensures { result ≡ is_leap_year year }
{
    if year % 100 == 0 {
        return year % 400 == 0;
    }
    year % 4 == 0
}

/// The days of a year before the month that comes so many months after January.
fn days_before_month(year: u32, months: u32) -> u32
    requires { months ≤ 12 }
    ensures days { result ≡ sum (take months (month_lengths year)) }
    ensures most { result ≤ 366 }
{
    if is_leap(year) {
        return u32::from(LEAP_MONTHS[months as usize]);
    }
    u32::from(MONTHS[months as usize])
}

/// The days before a year, from the year 0 on.
fn days_before_year(year: u32) -> u32
    requires { year ≤ 9999 }
    ensures days { result ≡ days_before year }
    ensures most { result ≤ 3700000 }
{
    365 * year + (year + 3) / 4 + (year + 399) / 400 - (year + 99) / 100
}

/// The days before a date, from the year 0 on. None: the calendar doesn't have the date, or its year has more than four digits.
fn day_number(day: Day) -> Option<u32>
    ensures some { IfSome result (λ days. IsOfCalendar day × (days ≡ day_number_of day)) }
    ensures none { IfNone result (IsOfCalendar day → ⊥) }
    ensures most { IfSome result (λ days. days ≤ 3701000) }
{
    if day.year > LAST_YEAR || day.month == 0 || day.month > 12 || day.day == 0 {
        return None;
    }
    let before = days_before_month(day.year, day.month - 1);
    let end = days_before_month(day.year, day.month);
    if day.day > end - before {
        return None;
    }
    Some(days_before_year(day.year) + before + (day.day - 1))
}

/// The days from 1970 to a date. None: the calendar doesn't have the date, or its year has more than four digits.
pub(crate) fn days_of(day: Day) -> Option<i64>
    ensures some { IfSome result (λ days. IsOfCalendar day × (days ≡ days_from_1970 day)) }
    ensures none { IfNone result (IsOfCalendar day → ⊥) }
{
    match day_number(day) {
        Some(days) => Some(i64::from(days) - DAYS_TO_1970),
        None => None,
    }
}

/// The microseconds of a time span, without its sign.
pub(crate) fn span_micros(clock: Clock) -> u64
    ensures { result ≡ micros_in clock }
{
    u64::from(clock.hour) * HOUR
        + u64::from(clock.minute) * MINUTE
        + u64::from(clock.second) * u64::from(SECOND)
        + u64::from(clock.micros)
}

/// The microseconds from 1970 to a date and a time. None: there is no such date, or no such time of day.
pub(crate) fn micros_of(day: Day, clock: Clock) -> Option<i64>
    ensures some { IfSome result (λ micros. IsInstant day clock × (micros ≡ micros_from_1970 day clock)) }
    ensures none { IfNone result (IsInstant day clock → ⊥) }
{
    if clock.hour > 23 || clock.minute > 59 || clock.second > 59 || clock.micros >= SECOND {
        return None;
    }
    match day_number(day) {
        Some(days) => { Some((i64::from(days) - DAYS_TO_1970) * DAY + span_micros(clock) as i64) }
        None => None,
    }
}
