//! Numbers: Canal has them in quotes.

ghost use Rattle.std.specs.Prelude.{◌≡◌, ◌++◌, OnOk, IfErr, Some, from_bits, true};
ghost use Rattle.std.specs.Float.{binary32, binary64, float_is_finite};
ghost use Rattle.std.specs.Fmt.{decimal, signed_decimal};
ghost use Rattle.rows_values.specs.Unpacked.{packed_text};
ghost use Rattle.feed_text.specs.Buffers.{text_in};
ghost use Rattle.changes_writers.specs.FloatTexts.{IsDoubleJson, IsFloatJson};
ghost use Rattle.changes_statements.specs.NoStatements.{IsMemoryOr, IsNotFinite, PacksNoDecimal};
ghost use Rattle.changes_statements.specs.SqlNumbers.{year_text};
ghost use Rattle.changes_formats.specs.EnvelopeNumbers.{AppendsNumber, number_in, unsigned_in};

use changes_commands::Format;
use changes_statements::NoStatement;
use changes_writers::{put_double, put_float, put_signed_integer};
use feed_text::TextBuffer;
use feed_writers::put_number;
use rows_values::put_decimal_text;
use std::alloc::{AllocError, Global};
use std::num::{f32_from_bits_with_nan, f64_from_bits_with_nan};

/// The room for an integer or a float.
const NUMBER_ROOM: usize = 32;

/// The room for a decimal: 255 digits, a minus, a zero and a point.
pub(crate) const DECIMAL_ROOM: usize = 258;

/// Appends the text of a number.
fn put_digits(format: Format, digits: &[u8], out: &mut TextBuffer<Global>) -> Result<(), AllocError>
    ensures { OnOk result (text_in out.new ≡ text_in out.old ++ number_in format digits.now) }
{
    match format {
        Format::Canal => {
            out.put(b'"')?;
            out.put_text(digits)?;
            out.put(b'"')
        }
        Format::Maxwell | Format::Debezium => out.put_text(digits),
    }
}

/// Appends a signed integer.
pub(crate) fn put_integer(
    format: Format,
    number: i64,
    out: &mut TextBuffer<Global>,
) -> Result<(), AllocError>
    ensures { OnOk result (text_in out.new ≡ text_in out.old ++ number_in format (signed_decimal number)) }
{
    let mut short = [0; NUMBER_ROOM];
    let end = put_signed_integer(&mut short, 0, number);
    put_digits(format, &short[..end], out)
}

/// Appends an integer that isn't negative.
fn put_natural(format: Format, number: u64, out: &mut TextBuffer<Global>) -> Result<(), AllocError>
    ensures { OnOk result (text_in out.new ≡ text_in out.old ++ number_in format (decimal number)) }
{
    let mut short = [0; NUMBER_ROOM];
    let end = put_number(&mut short, 0, number);
    put_digits(format, &short[..end], out)
}

/// Appends an unsigned integer. Debezium has the signed integer with the same 64 bits.
pub(crate) fn put_unsigned(
    format: Format,
    number: u64,
    out: &mut TextBuffer<Global>,
) -> Result<(), AllocError>
    ensures { OnOk result (text_in out.new ≡ text_in out.old ++ unsigned_in format number) }
{
    match format {
        Format::Debezium => put_integer(format, number.cast_signed(), out),
        Format::Maxwell | Format::Canal => put_natural(format, number, out),
    }
}

/// Appends a float of 4 bytes, by its bits.
///
/// - `Float`: it isn't finite.
/// - `Memory`: out of memory.
pub(crate) fn put_short_float(
    format: Format,
    bits: u32,
    out: &mut TextBuffer<Global>,
) -> Result<(), NoStatement>
    ensures text { OnOk result (AppendsNumber format (IsFloatJson bits) (text_in out.old) (text_in out.new)) }
    ensures finite { OnOk result (float_is_finite (from_bits binary32 bits) ≡ true) }
    ensures err { IfErr result (IsMemoryOr (IsNotFinite binary32 bits)) }
{
    if !f32_from_bits_with_nan(bits).is_finite() {
        return Err(NoStatement::Float);
    }
    let mut short = [0; NUMBER_ROOM];
    let end = put_float(&mut short, 0, bits);
    put_digits(format, &short[..end], out)?;
    Ok(())
}

/// Appends a float of 8 bytes, by its bits.
///
/// - `Float`: it isn't finite.
/// - `Memory`: out of memory.
pub(crate) fn put_long_float(
    format: Format,
    bits: u64,
    out: &mut TextBuffer<Global>,
) -> Result<(), NoStatement>
    ensures text { OnOk result (AppendsNumber format (IsDoubleJson bits) (text_in out.old) (text_in out.new)) }
    ensures finite { OnOk result (float_is_finite (from_bits binary64 bits) ≡ true) }
    ensures err { IfErr result (IsMemoryOr (IsNotFinite binary64 bits)) }
{
    if !f64_from_bits_with_nan(bits).is_finite() {
        return Err(NoStatement::Float);
    }
    let mut short = [0; NUMBER_ROOM];
    let end = put_double(&mut short, 0, bits);
    put_digits(format, &short[..end], out)?;
    Ok(())
}

/// Appends the digits of a decimal.
///
/// - `Row`: the bytes pack no decimal.
/// - `Memory`: out of memory.
pub(crate) fn put_decimal(
    format: Format,
    precision: u8,
    scale: u8,
    bytes: &[u8],
    out: &mut TextBuffer<Global>,
) -> Result<(), NoStatement>
    ensures text { OnOk result (AppendsNumber format (λ digits. packed_text precision scale bytes.now ≡ Some digits) (text_in out.old) (text_in out.new)) }
    ensures err { IfErr result (IsMemoryOr (PacksNoDecimal precision scale bytes.now)) }
{
    let mut short = [0; DECIMAL_ROOM];
    let (precision, scale) = (usize::from(precision), usize::from(scale));
    let Some(end) = put_decimal_text(&mut short, 0, precision, scale, bytes) else {
        return Err(NoStatement::Row);
    };
    put_digits(format, &short[..end], out)?;
    Ok(())
}

/// Appends a year, which counts from 1900: 0 for 0.
pub(crate) fn put_year(
    format: Format,
    years: u8,
    out: &mut TextBuffer<Global>,
) -> Result<(), AllocError>
    ensures { OnOk result (text_in out.new ≡ text_in out.old ++ number_in format (year_text years)) }
{
    if years == 0 {
        return put_natural(format, 0, out);
    }
    put_natural(format, 1900 + u64::from(years), out)
}
