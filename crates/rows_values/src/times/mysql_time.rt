//! MySQL's `MYSQL_TIME`, and its text.

ghost use Rattle.std.specs.Prelude.{◌≡◌};
ghost use Rattle.rows_values.specs.declared.times.mysql_time.MysqlTimestampType.TheVariants.{MYSQL_TIMESTAMP_DATE, MYSQL_TIMESTAMP_DATETIME};
ghost use Rattle.rows_values.specs.TimeFields.{packed_whole, packed_micros, span_fields, date_fields};

/// A date, a time of day or a time span, as MySQL's `MYSQL_TIME`. `Display` gives its text.
#[derive(Clone, Copy, Debug, PartialEq)]
pub struct MysqlTime {
    /// The year.
    pub year: u32,
    /// The month, from 1 on; 0 if the date has none.
    pub month: u32,
    /// The day of the month, from 1 on; 0 if the date has none.
    pub day: u32,
    /// The hours; a time span may have more than 23.
    pub hour: u32,
    /// The minutes.
    pub minute: u32,
    /// The seconds.
    pub second: u32,
    /// The microseconds.
    pub second_part: u32,
    /// Whether the time span is negative.
    pub neg: bool,
    /// Which of the fields are used.
    pub time_type: MysqlTimestampType,
    /// The time zone's offset in seconds; positive is east of UTC.
    pub time_zone_displacement: i32,
}

/// Which fields of a [`MysqlTime`] are used. MySQL's source: `enum_mysql_timestamp_type`.
#[derive(Clone, Copy, Debug, PartialEq)]
pub enum MysqlTimestampType {
    /// None; the text is empty.
    MYSQL_TIMESTAMP_NONE = -2,
    /// None, because the value was out of range; the text is empty.
    MYSQL_TIMESTAMP_ERROR = -1,
    /// Those of a date.
    MYSQL_TIMESTAMP_DATE = 0,
    /// Those of a date and a time of day.
    MYSQL_TIMESTAMP_DATETIME = 1,
    /// Those of a time span.
    MYSQL_TIMESTAMP_TIME = 2,
    /// Those of a date and a time of day, and the time zone.
    MYSQL_TIMESTAMP_DATETIME_TZ = 3,
}

impl MysqlTime {
    /// Returns the time span of a packed value: 10 bits of hours, 6 of minutes, 6 of seconds, 24 of
    /// microseconds.
    pub fn from_int64_time_packed(packed_value: i64) -> MysqlTime
        ensures { result ≡ span_fields packed_value }
    {
        let (packed_whole, packed_micros) = split(packed_value);
        MysqlTime {
            year: 0,
            month: 0,
            day: 0,
            hour: (packed_whole / 0x1000 % 0x400) as u32,
            minute: (packed_whole / 0x40 % 0x40) as u32,
            second: (packed_whole % 0x40) as u32,
            second_part: packed_micros,
            neg: packed_value < 0,
            time_type: MysqlTimestampType::MYSQL_TIMESTAMP_TIME,
            time_zone_displacement: 0,
        }
    }

    /// Returns the date of a packed value: as [`MysqlTime::from_int64_datetime_packed`], with the type of a
    /// date.
    pub fn from_int64_date_packed(packed_value: i64) -> MysqlTime
        ensures { result ≡ date_fields MYSQL_TIMESTAMP_DATE packed_value }
    {
        MysqlTime {
            time_type: MysqlTimestampType::MYSQL_TIMESTAMP_DATE,
            ..MysqlTime::from_int64_datetime_packed(packed_value)
        }
    }

    /// Returns the date and time of a packed value: 13 times the year plus the month, 5 bits of days, 5 of
    /// hours, 6 of minutes, 6 of seconds, 24 of microseconds.
    pub fn from_int64_datetime_packed(packed_value: i64) -> MysqlTime
        ensures { result ≡ date_fields MYSQL_TIMESTAMP_DATETIME packed_value }
    {
        let (packed_whole, packed_micros) = split(packed_value);
        let date = packed_whole / 0x2_0000;
        let clock = packed_whole % 0x2_0000;
        let months = date / 0x20;
        MysqlTime {
            year: (months / 13) as u32,
            month: (months % 13) as u32,
            day: (date % 0x20) as u32,
            hour: (clock / 0x1000) as u32,
            minute: (clock / 0x40 % 0x40) as u32,
            second: (clock % 0x40) as u32,
            second_part: packed_micros,
            neg: packed_value < 0,
            time_type: MysqlTimestampType::MYSQL_TIMESTAMP_DATETIME,
            time_zone_displacement: 0,
        }
    }
}

/// Returns the whole part of a packed time's magnitude, and its microseconds.
fn split(packed_value: i64) -> (u64, u32)
    ensures whole { result.0 ≡ packed_whole packed_value }
    ensures micros { result.1 ≡ packed_micros packed_value }
{
    let size = packed_value.unsigned_abs();
    (size / 0x100_0000, (size % 0x100_0000) as u32)
}
