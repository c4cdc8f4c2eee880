//! Numbers.

ghost use Rattle.std.specs.Prelude.{◌≡◌, ◌≤◌, ◌*◌, ◌++◌, OnOk, IfErr, IsTrue, length};
ghost use Rattle.std.specs.Float.{binary32, binary64, float_is_finite};
ghost use Rattle.std.specs.Fmt.{signed_decimal};
ghost use Rattle.feed_text.specs.Buffers.{text_in};
ghost use Rattle.changes_writers.specs.FloatTexts.{AppendsSuch};
ghost use Rattle.changes_statements.specs.NoStatements.{IsMemoryOr, IsNotFinite};
ghost use Rattle.changes_statements.specs.SqlNumbers.{IsNumberText, IsDoubleText, IsFloatText, bits_text, year_text};

use crate::no_statement::NoStatement;
use feed_text::TextBuffer;
use feed_writers::put_signed;
use ryu::raw::{LEN, format};
use std::alloc::{AllocError, Global};
use std::num::{f32_from_bits_with_nan, f64_from_bits_with_nan};

/// The room for a number.
const NUMBER_ROOM: usize = 32;

/// The bits of the zero with a minus, in 8 bytes and in 4.
const MINUS_ZERO: u64 = 1 << 63;

const SHORT_MINUS_ZERO: u32 = 1 << 31;

/// Appends a signed number.
pub(crate) fn put_integer(number: i64, out: &mut TextBuffer<Global>) -> Result<(), AllocError>
    ensures { OnOk result (text_in out.new ≡ text_in out.old ++ signed_decimal number) }
{
    let mut short = [0; NUMBER_ROOM];
    let end = put_signed(&mut short, 0, number);
    out.put_text(&short[..end])
}

/// Appends a finite number: the shortest digits that read back as it.
fn put_number(number: f64, out: &mut TextBuffer<Global>) -> Result<(), AllocError>
    requires { IsTrue (float_is_finite number) }
    ensures { OnOk result (AppendsSuch (IsNumberText number) (text_in out.old) (text_in out.new)) }
{
    let mut digits = [0; LEN];
    let len = format(number, &mut digits);
    out.put_text(&digits[..len])
}

/// Appends a float of 8 bytes, by its bits.
///
/// - `Float`: it isn't finite.
/// - `Memory`: out of memory.
pub(crate) fn put_double(bits: u64, out: &mut TextBuffer<Global>) -> Result<(), NoStatement>
    ensures text { OnOk result (AppendsSuch (IsDoubleText bits) (text_in out.old) (text_in out.new)) }
    ensures err { IfErr result (IsMemoryOr (IsNotFinite binary64 bits)) }
{
    if bits == MINUS_ZERO {
        out.put_text(b"-0e0")?;
        return Ok(());
    }
    let number = f64_from_bits_with_nan(bits);
    if !number.is_finite() {
        return Err(NoStatement::Float);
    }
    put_number(number, out)?;
    Ok(())
}

/// Appends a float of 4 bytes, by its bits, with the digits of the same float of 8 bytes, so that comparisons with it hold too.
///
/// - `Float`: it isn't finite.
/// - `Memory`: out of memory.
pub(crate) fn put_float(bits: u32, out: &mut TextBuffer<Global>) -> Result<(), NoStatement>
    ensures text { OnOk result (AppendsSuch (IsFloatText bits) (text_in out.old) (text_in out.new)) }
    ensures err { IfErr result (IsMemoryOr (IsNotFinite binary32 bits)) }
{
    if bits == SHORT_MINUS_ZERO {
        out.put_text(b"-0e0")?;
        return Ok(());
    }
    let number = f32_from_bits_with_nan(bits);
    if !number.is_finite() {
        return Err(NoStatement::Float);
    }
    put_number(f64::from(number), out)?;
    Ok(())
}

/// Appends a number of so many bits, at most 64, the highest first.
pub(crate) fn put_bits(
    count: u32,
    number: u64,
    out: &mut TextBuffer<Global>,
) -> Result<(), AllocError>
    requires { count ≤ 64 }
    ensures { OnOk result (text_in out.new ≡ text_in out.old ++ bits_text count number) }
{
    out.put_text(b"b'")?;
    for index in 0..count {
        let bit = (number >> (count - 1 - index)) % 2;
        out.put(b'0' + bit as u8)?;
    }
    out.put(b'\'')
}

/// Appends a year, which counts from 1900: 0 for 0.
pub(crate) fn put_year(years: u8, out: &mut TextBuffer<Global>) -> Result<(), AllocError>
    ensures { OnOk result (text_in out.new ≡ text_in out.old ++ year_text years) }
{
    if years == 0 {
        return out.put_number(0);
    }
    out.put_number(1900 + u64::from(years))
}
