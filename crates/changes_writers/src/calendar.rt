//! The date and the time in UTC of a second.

ghost use Rattle.std.specs.Prelude.{◌≡◌, ◌≤◌, ◌<◌, ◌+◌, ◌*◌, ◌+ℤ◌, ◌≤ℤ◌, ◌<ℤ◌, true, pos, negsuc};
ghost use Rattle.changes_writers.specs.CivilDates.{IsDate, IsTimeOfDay, day_number, days_before_year, is_leap, second_number};
ghost use Rattle.changes_writers.specs.MarchYears.{march_days};

use feed_writers::{Clock, Day};

/// The seconds of a day.
const DAY_LEN: u64 = 86_400;

/// The seconds from the first of March of the year 0 to 1970.
const SECONDS_TO_1970: i64 = 62_162_035_200;

/// The year that begins in March, and the days before in it, from the days after the first of March of the year 0.
#[inline(always)]
fn year_of_days(days: u32) -> (u32, u32)
    requires { days < 536870912 }
    ensures small { result.0 ≤ 2000000 }
    ensures few { result.1 ≤ 365 }
    ensures value { march_days result.0 + result.1 ≡ days }
    ensures leap { result.1 ≡ 365 → is_leap (result.0 + 1) ≡ true }
{
    let quarters = 4 * days + 3;
    let (century, of_century) = (quarters / 146_097, quarters % 146_097 / 4);
    let quarters = 4 * of_century + 3;
    (100 * century + quarters / 1_461, quarters % 1_461 / 4)
}

/// The date of a day of a year that begins in March, from the days before it.
#[inline(always)]
fn day_of_year(year: u32, of_year: u32) -> Day
    requires small { year ≤ 2000000 }
    requires few { of_year ≤ 365 }
    requires leap { of_year ≡ 365 → is_leap (year + 1) ≡ true }
    ensures date { IsDate result }
    ensures value { day_number result ≡ march_days year + of_year + 60 }
{
    let month = (5 * of_year + 2) / 153;
    let day = of_year - (153 * month + 2) / 5 + 1;
    if month < 10 {
        return Day {
            year,
            month: month + 3,
            day,
        };
    }
    Day {
        year: year + 1,
        month: month - 9,
        day,
    }
}

/// The date and the time of so many seconds after the first of March of the year 0.
#[inline(always)]
fn utc_of(seconds: u64, micros: u32) -> (Day, Clock)
    requires { seconds < 137438953472 }
    ensures date { IsDate result.0 }
    ensures time { IsTimeOfDay result.1 }
    ensures value { second_number result.0 result.1 ≡ seconds + 86400 * 60 }
    ensures micros { result.1.micros ≡ micros }
{
    let second = (seconds % DAY_LEN) as u32;
    let (year, of_year) = year_of_days((seconds / DAY_LEN) as u32);
    let clock = Clock {
        hour: second / 3_600,
        minute: second / 60 % 60,
        second: second % 60,
        micros,
    };
    (day_of_year(year, of_year), clock)
}

/// The date and the time in UTC, so many seconds after 1970, from -2^31 to 2^32 - 1; and microseconds, unchanged.
pub fn utc_of_seconds(seconds: i64, micros: u32) -> (Day, Clock)
    requires low { negsuc 2147483647 ≤ℤ seconds }
    requires high { seconds <ℤ pos 4294967296 }
    ensures date { IsDate result.0 }
    ensures time { IsTimeOfDay result.1 }
    ensures value { pos (second_number result.0 result.1) ≡ pos (86400 * days_before_year 1970) +ℤ seconds }
    ensures micros { result.1.micros ≡ micros }
{
    utc_of((seconds + SECONDS_TO_1970) as u64, micros)
}
