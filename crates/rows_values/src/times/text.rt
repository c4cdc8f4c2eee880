//! The text of a `MysqlTime`.

ghost use Rattle.std.specs.Prelude.{◌≡◌, Some, None, [], if◌then◌else◌};
ghost use Rattle.std.specs.Fmt.{decimal, WritesStyledOnOk, spec_precision, formatter_spec};
ghost use Rattle.rows_values.specs.TimeTexts.{padded_decimal, two_digits, micros_text, date_text, after_hour, date_and_time_text, zone_text, time_text, span_text, zone_hours};

use crate::times::{MysqlTime, MysqlTimestampType};
use itoa::Buffer;
use std::fmt;

/// The weight of each digit of the microseconds, the highest first.
const MICRO_DIGITS: [u32; 6] = [100_000, 10_000, 1_000, 100, 10, 1];

impl fmt::Display for MysqlTime {
    ghost output = { λ t. Some (time_text None t) };

    ghost styled_output = { λ t spec. Some (time_text (spec_precision spec) t) };

    /// Writes a date as `YYYY-MM-DD`, a date and time as `YYYY-MM-DD hh:mm:ss`, and a time span as `hh:mm:ss`
    /// with its sign. With a precision, that many digits of the microseconds follow, six at most. A part that
    /// is out of range is written as 00, except for the hours of a time span.
    ///
    /// A time zone follows date and time: a plus, the hours of its offset rounded toward zero, a colon and
    /// the minutes of its magnitude in two digits. The hours have at least two digits; for an offset of an
    /// hour or more below zero they have a minus and at least one digit. So five and a half hours west of UTC
    /// are `+-5:30`, and half an hour west is `+00:30`.
    fn fmt<W: fmt::Write>(&self, f: &mut fmt::Formatter<W>) -> fmt::Result {
        match self.time_type {
            MysqlTimestampType::MYSQL_TIMESTAMP_NONE | MysqlTimestampType::MYSQL_TIMESTAMP_ERROR =>
                Ok(()),
            MysqlTimestampType::MYSQL_TIMESTAMP_DATE => put_date(self, f),
            MysqlTimestampType::MYSQL_TIMESTAMP_TIME => put_span(self, f),
            MysqlTimestampType::MYSQL_TIMESTAMP_DATETIME => put_date_and_time(self, f),
            MysqlTimestampType::MYSQL_TIMESTAMP_DATETIME_TZ => {
                put_date_and_time(self, f)?;
                put_zone(self.time_zone_displacement, f)
            }
        }
    }
}

fn put_number<W: fmt::Write>(number: u32, f: &mut fmt::Formatter<W>) -> fmt::Result
    ensures { WritesStyledOnOk W.write_str_gives f.old result (decimal number) f.new }
{
    f.write_str(Buffer::new().format(number))
}

/// Writes a part as two digits; 00 from 100 on.
#[tactic(auto, unfolding(crate::specs::TimeTexts::two_digits))]
fn put_two_digits<W: fmt::Write>(part: u32, f: &mut fmt::Formatter<W>) -> fmt::Result
    ensures { WritesStyledOnOk W.write_str_gives f.old result (two_digits part) f.new }
{
    if part >= 100 {
        return f.write_str("00");
    }
    put_number(part / 10, f)?;
    put_number(part % 10, f)
}

/// Writes the text if `shown` is true.
fn put_if<W: fmt::Write>(shown: bool, text: &str, f: &mut fmt::Formatter<W>) -> fmt::Result
    ensures { WritesStyledOnOk W.write_str_gives f.old result (if shown then text.now else []) f.new }
{
    if shown { f.write_str(text) } else { Ok(()) }
}

/// Writes a number with at least two digits.
fn put_at_least_two<W: fmt::Write>(number: u32, f: &mut fmt::Formatter<W>) -> fmt::Result
    ensures { WritesStyledOnOk W.write_str_gives f.old result (padded_decimal 2 number) f.new }
{
    put_if(number < 10, "0", f)?;
    put_number(number, f)
}

#[tactic(auto, unfolding(crate::specs::TimeTexts::date_text))]
fn put_date<W: fmt::Write>(time: &MysqlTime, f: &mut fmt::Formatter<W>) -> fmt::Result
    ensures { WritesStyledOnOk W.write_str_gives f.old result (date_text time.now) f.new }
{
    put_two_digits(time.year / 100, f)?;
    put_two_digits(time.year % 100, f)?;
    f.write_str("-")?;
    put_two_digits(time.month, f)?;
    f.write_str("-")?;
    put_two_digits(time.day, f)
}

#[tactic(auto, unfolding(crate::specs::TimeTexts::span_text))]
fn put_span<W: fmt::Write>(time: &MysqlTime, f: &mut fmt::Formatter<W>) -> fmt::Result
    ensures { WritesStyledOnOk W.write_str_gives f.old result
        (span_text (spec_precision (formatter_spec f.old)) time.now) f.new }
{
    put_if(time.neg, "-", f)?;
    put_at_least_two(time.hour, f)?;
    put_after_hour(time, f)
}

#[tactic(auto, unfolding(crate::specs::TimeTexts::date_and_time_text))]
fn put_date_and_time<W: fmt::Write>(time: &MysqlTime, f: &mut fmt::Formatter<W>) -> fmt::Result
    ensures { WritesStyledOnOk W.write_str_gives f.old result
        (date_and_time_text (spec_precision (formatter_spec f.old)) time.now) f.new }
{
    put_date(time, f)?;
    f.write_str(" ")?;
    put_two_digits(time.hour, f)?;
    put_after_hour(time, f)
}

/// Writes minutes, seconds and, with a precision, the first digits of the microseconds.
#[tactic(auto, unfolding(crate::specs::TimeTexts::after_hour))]
fn put_after_hour<W: fmt::Write>(time: &MysqlTime, f: &mut fmt::Formatter<W>) -> fmt::Result
    ensures { WritesStyledOnOk W.write_str_gives f.old result
        (after_hour (spec_precision (formatter_spec f.old)) time.now) f.new }
{
    let precision = f.precision();
    f.write_str(":")?;
    put_two_digits(time.minute, f)?;
    f.write_str(":")?;
    put_two_digits(time.second, f)?;
    put_fraction(time.second_part, precision, f)
}

/// Writes a point and that many digits of the microseconds, six at most; nothing without a precision.
#[tactic(auto, unfolding(crate::specs::TimeTexts::micros_text))]
fn put_fraction<W: fmt::Write>(
    micros: u32,
    precision: Option<usize>,
    f: &mut fmt::Formatter<W>,
) -> fmt::Result
    ensures { WritesStyledOnOk W.write_str_gives f.old result (micros_text precision micros) f.new }
{
    let Some(precision) = precision else {
        return Ok(());
    };
    if precision == 0 {
        return Ok(());
    }
    f.write_str(".")?;
    for power in &MICRO_DIGITS[..precision.min(MICRO_DIGITS.len())] {
        put_number(micros / power % 10, f)?;
    }
    Ok(())
}

/// Writes the hours in a width of two, which includes a minus.
#[tactic(auto, unfolding(crate::specs::TimeTexts::zone_hours))]
fn put_zone_hours<W: fmt::Write>(
    negative: bool,
    hours: u32,
    f: &mut fmt::Formatter<W>,
) -> fmt::Result
    ensures { WritesStyledOnOk W.write_str_gives f.old result (zone_hours negative hours) f.new }
{
    if negative && hours != 0 {
        f.write_str("-")?;
        return put_number(hours, f);
    }
    put_at_least_two(hours, f)
}

/// Writes the offset as hours rounded toward zero, with the sign in their width, and minutes.
#[tactic(auto, unfolding(crate::specs::TimeTexts::zone_text))]
fn put_zone<W: fmt::Write>(seconds: i32, f: &mut fmt::Formatter<W>) -> fmt::Result
    ensures { WritesStyledOnOk W.write_str_gives f.old result (zone_text seconds) f.new }
{
    f.write_str("+")?;
    put_zone_hours(seconds < 0, seconds.unsigned_abs() / 3600, f)?;
    f.write_str(":")?;
    put_two_digits(seconds.unsigned_abs() / 60 % 60, f)
}
