//! The value of a cell.

ghost use Rattle.std.specs.Prelude.{◌≡◌, IfOk};
ghost use Rattle.rows_values.specs.Values.{SameValue, span_value, date_value};

use crate::MysqlTime;
use std::alloc::{AllocError, Global};

/// The value of a cell. Floats are stored and compared as their bits.
#[derive(Debug, PartialEq, Drop)]
pub enum Value {
    /// SQL's NULL.
    NULL,
    /// Bytes, text, or a decimal number as text.
    Bytes(Vec<u8>),
    /// An integer of up to 8 bytes, or an unsigned one of up to 4.
    Int(i64),
    /// An unsigned integer of 8 bytes.
    UInt(u64),
    /// The bits of a 4-byte float.
    Float(u32),
    /// The bits of an 8-byte float.
    Double(u64),
    /// Year, month, day, hour, minutes, seconds and microseconds.
    Date(u16, u8, u8, u8, u8, u8, u32),
    /// Whether the time is negative; days, hours, minutes, seconds and microseconds.
    Time(bool, u32, u8, u8, u8, u32),
}

impl Value {
    /// Returns an owned copy of the value. The error is out of memory.
    pub fn clone(&self, alloc: Global) -> Result<Value, AllocError>
        ensures { IfOk result (λ copy. SameValue self.now copy) }
    {
        Ok(match self {
            Value::NULL => Value::NULL,
            Value::Bytes(bytes) => Value::Bytes(Vec::from_slice(alloc, bytes)?),
            Value::Int(number) => Value::Int(*number),
            Value::UInt(number) => Value::UInt(*number),
            Value::Float(bits) => Value::Float(*bits),
            Value::Double(bits) => Value::Double(*bits),
            Value::Date(year, month, day, hour, minute, second, micros) => {
                Value::Date(*year, *month, *day, *hour, *minute, *second, *micros)
            }
            Value::Time(neg, days, hours, minutes, seconds, micros) => {
                Value::Time(*neg, *days, *hours, *minutes, *seconds, *micros)
            }
        })
    }
}

/// Returns the time span of a packed value, with its hours split into days and hours.
pub fn time_from_packed(packed: i64) -> Value
    ensures { result ≡ span_value packed }
{
    let time = MysqlTime::from_int64_time_packed(packed);
    Value::Time(
        time.neg,
        time.hour / 24,
        (time.hour % 24) as u8,
        time.minute as u8,
        time.second as u8,
        time.second_part,
    )
}

/// Returns the date and time of a packed value. A sign is dropped.
pub fn datetime_from_packed(packed: i64) -> Value
    ensures { result ≡ date_value packed }
{
    let time = MysqlTime::from_int64_datetime_packed(packed);
    Value::Date(
        time.year as u16,
        time.month as u8,
        time.day as u8,
        time.hour as u8,
        time.minute as u8,
        time.second as u8,
        time.second_part,
    )
}
