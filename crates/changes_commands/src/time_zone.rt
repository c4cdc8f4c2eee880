//! The time zone of the times that options give.

ghost use Rattle.std.specs.Prelude.{◌≡◌, ◌≤◌, ◌<◌, IfNone, IfSome};
ghost use Rattle.std.specs.List.{list_all};
ghost use Rattle.changes_commands.specs.TimeZones.{clock_seconds, digit, is_of_name, is_table_name, offset_seconds, seconds_since_1970, two_digits};

use jiff::civil::DateTime;
use jiff::tz::{Offset, TimeZone, Tzif};
use jiff::{Error, Timestamp};
use std::fs;
use std::io::Read;
use std::rt::Files;

/// Where systems keep the tables of time zones, one in a file.
const FOLDER: &str = "/usr/share/zoneinfo/";

/// The maximum size of such a file. It has a few kilobytes.
const TABLE_LEN_MAX: u64 = 1 << 20;

/// A time zone.
#[derive(Drop)]
pub(crate) enum Zone {
    /// One offset from UTC at all times.
    Fixed(Offset),
    /// A table of the system.
    Table(Tzif),
}

/// The value of a digit.
fn digit(byte: u8) -> Option<u32>
    ensures value { result ≡ digit byte }
    ensures most { IfSome result (λ value. value ≤ 9) }
{
    if !byte.is_ascii_digit() {
        return None;
    }
    Some(u32::from(byte - b'0'))
}

/// The number of two digits.
fn two_digits(tens: u8, ones: u8) -> Option<u32>
    ensures value { result ≡ two_digits tens ones }
    ensures most { IfSome result (λ number. number ≤ 99) }
{
    let tens = digit(tens)?;
    let ones = digit(ones)?;
    Some(tens * 10 + ones)
}

/// The seconds of hours and minutes such as `02:00`, less than 24 hours.
fn clock_seconds(text: &[u8]) -> Option<u32>
    ensures value { result ≡ clock_seconds text.now }
    ensures most { IfSome result (λ seconds. seconds < 86400) }
{
    let [hour_tens, hour_ones, colon, tens, ones] = text else {
        return None;
    };
    let hours = two_digits(*hour_tens, *hour_ones)?;
    let minutes = two_digits(*tens, *ones)?;
    if *colon != b':' || hours > 23 || minutes > 59 {
        return None;
    }
    Some(hours * 3600 + minutes * 60)
}

/// The seconds of an offset such as `+02:00`: less than 24 hours in either direction.
fn offset_seconds(text: &[u8]) -> Option<i32>
    ensures { result ≡ offset_seconds text.now }
{
    let (sign, clock) = text.split_first()?;
    let seconds = clock_seconds(clock)? as i32;
    match sign {
        b'+' => Some(seconds),
        b'-' => Some(-seconds),
        _ => None,
    }
}

/// Whether the name of a table may have this byte. Without points it leads to no other folder.
fn is_of_name(byte: u8) -> bool
    ensures { result ≡ is_of_name byte }
{
    byte.is_ascii_alphanumeric() || matches!(byte, b'/' | b'_' | b'-' | b'+')
}

/// Whether these may be the bytes of a table's name.
fn are_of_name(bytes: &[u8]) -> bool
    ensures { result ≡ list_all is_of_name bytes.now }
{
    bytes.iter().all(|byte| is_of_name(*byte))
}

/// Whether a table may have this name.
fn is_table_name(name: &[u8]) -> bool
    ensures { result ≡ is_table_name name.now }
{
    !name.is_empty() && are_of_name(name)
}

/// The bytes of a table of the system.
///
/// - `OutOfMemory`: out of memory.
/// - Another error: there is no such file, or it can't be read.
fn read_table<R: Files + AllocGlobal>(rt: &R, name: &str) -> Result<Vec<u8>, Error> {
    let path = format!(in rt.alloc(); "{FOLDER}{name}")?;
    if !fs::metadata(rt, &path)?.is_file() {
        return Err(Error::TimeZoneNotFound);
    }
    let mut bytes = Vec::new(rt.alloc());
    let mut file = fs::open(rt, &path)?.take(TABLE_LEN_MAX);
    let _len = file.read_to_end(&mut bytes)?;
    Ok(bytes)
}

/// The whole seconds of an instant since 1970; 0 for an earlier one.
fn seconds_since_1970(instant: Timestamp) -> u64
    ensures { result ≡ seconds_since_1970 instant.nanosecond }
{
    u64::try_from(instant.as_second()).unwrap_or(0)
}

impl Zone {
    ghost use Rattle.jiff.specs.Words.{IsTimestampNanos};
    ghost use Rattle.changes_commands.specs.TimeZones.{instant_in, IsNamed, IsSecondsOf, IsTableNamed};

    /// UTC.
    pub(crate) const UTC: Zone = Zone::Fixed(Offset::UTC);

    /// The table of the system with this name.
    ///
    /// - `TimeZoneNotFound`: no table may have this name.
    /// - `OutOfMemory`: out of memory.
    /// - Another error: there is no such file, it can't be read, or it is no table.
    fn table<R: Files + AllocGlobal>(rt: &R, name: &str) -> Result<Zone, Error>
        ensures { IsTableNamed name.now result }
    {
        if !is_table_name(name.as_bytes()) {
            return Err(Error::TimeZoneNotFound);
        }
        let bytes = read_table(rt, name)?;
        Ok(Zone::Table(Tzif::parse(rt.alloc(), Some(name), &bytes)?))
    }

    /// The time zone with this name: UTC, an offset such as `+02:00`, or a table of the system, such as `Europe/Berlin`.
    ///
    /// - `OutOfMemory`: out of memory; only where a table is read.
    /// - Another error: it is neither UTC nor an offset, and no table could be read.
    pub(crate) fn named<R: Files + AllocGlobal>(rt: &R, name: &str) -> Result<Zone, Error>
        ensures { IsNamed name.now result }
    {
        if name == "UTC" {
            return Ok(Zone::UTC);
        }
        match offset_seconds(name.as_bytes()) {
            Some(seconds) => Ok(Zone::Fixed(Offset::from_seconds(seconds)?)),
            None => Zone::table(rt, name),
        }
    }

    /// The instant at which clocks in this zone show a time. None if it isn't in the years -9999 to 9999.
    fn instant_of(&self, time: DateTime) -> Option<Timestamp>
        ensures some { IfSome result (λ t. t.nanosecond ≡ instant_in self.now time) }
        ensures none { IfNone result (IsTimestampNanos (instant_in self.now time) → ⊥) }
    {
        match self {
            Zone::Fixed(offset) => offset.to_timestamp(time).ok(),
            Zone::Table(table) => TimeZone::tzif(table).to_timestamp(time).ok(),
        }
    }

    /// The seconds since 1970 of a time in this zone: `2026-11-27 10:00:00`, or a date alone; 0 for an earlier one. Of two times with
    /// the same name, at the end of summer time, it is the earlier; a time that is left out, at its beginning, is as much later. None
    /// if the text is no time, or the time isn't in the years -9999 to 9999.
    pub(crate) fn seconds_of(&self, text: &str) -> Option<u64>
        ensures { IsSecondsOf self.now text.now result }
    {
        let time: DateTime = text.parse().ok()?;
        let timestamp = self.instant_of(time)?;
        Some(seconds_since_1970(timestamp))
    }
}
