//! The text of one value.

ghost use Rattle.std.specs.Prelude.{◌≡◌, ◌++◌, OnOk, IfErr};
ghost use Rattle.feed_text.specs.TextPieces.{IsAppendError};
ghost use Rattle.feed_text.specs.ShortTexts.{short_text};
ghost use Rattle.feed_text.specs.ValueText.{value_text};

use crate::quoting::quote;
use crate::short::{SHORT_LEN_MAX, Short, put_short};
use feed_writers::{Clock, Day};
use rows_errors::RowsError;
use rows_values::Value;
use std::alloc::Allocator;

/// Appends the text of a value: `NULL`; an integer in decimal, an unsigned one after `u`; `f` or `d` and the hexadecimal digits
/// of a float's or double's bits; bytes quoted; a date as `YYYY-MM-DDThh:mm:ss.uuuuuu`; a time as `-` if it is negative, days,
/// `d` and `hh:mm:ss.uuuuuu`. `Memory`: out of memory; nothing is appended.
#[tactic(auto, unfolding(crate::specs::ValueText::value_text, crate::specs::ShortTexts::short_text))]
pub fn put_value<A: Allocator>(value: &Value, out: &mut Vec<u8, A>) -> Result<(), RowsError>
    ensures ok { OnOk result (out.new.items ≡ out.old.items ++ value_text value.now) }
    ensures err { IfErr result (λ e. IsAppendError e out.old.items out.new.items) }
{
    match value {
        Value::NULL => append_short(Short::Null, out),
        Value::Bytes(bytes) => quote(bytes, out),
        Value::Int(number) => append_short(Short::Int(*number), out),
        Value::UInt(number) => append_short(Short::UInt(*number), out),
        Value::Float(bits) => append_short(Short::Float(*bits), out),
        Value::Double(bits) => append_short(Short::Double(*bits), out),
        Value::Date(year, month, day, hour, minute, second, micros) => {
            let day = Day {
                year: u32::from(*year),
                month: u32::from(*month),
                day: u32::from(*day),
            };
            append_short(
                Short::Date(day, clock(*hour, *minute, *second, *micros)),
                out,
            )
        }
        Value::Time(is_negative, days, hours, minutes, seconds, micros) => {
            let clock = clock(*hours, *minutes, *seconds, *micros);
            append_short(Short::Span(*is_negative, *days, clock), out)
        }
    }
}

/// A time of day.
fn clock(hour: u8, minute: u8, second: u8, micros: u32) -> Clock
    ensures { result ≡ record { hour = hour; minute = minute; second = second; micros = micros } }
{
    Clock {
        hour: u32::from(hour),
        minute: u32::from(minute),
        second: u32::from(second),
        micros,
    }
}

/// Appends a short text, or nothing.
fn append_short<A: Allocator>(short: Short, out: &mut Vec<u8, A>) -> Result<(), RowsError>
    ensures ok { OnOk result (out.new.items ≡ out.old.items ++ short_text short) }
    ensures err { IfErr result (λ e. IsAppendError e out.old.items out.new.items) }
{
    let start = out.len();
    out.resize(start + SHORT_LEN_MAX, 0)?;
    let end = put_short(out.as_mut_slice(), start, short);
    out.truncate(end);
    Ok(())
}
