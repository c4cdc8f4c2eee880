//! Displays a decimal.

ghost use Rattle.std.specs.Prelude.{◌≡◌, ◌≤◌, ◌==◌, Some, length};
ghost use Rattle.std.specs.Fmt.{WritesStyledOnOk};
ghost use Rattle.rows_values.specs.Digits.{AreDigits};
ghost use Rattle.rows_values.specs.Decimals.{decimal_parts};
ghost use Rattle.rows_values.specs.PrintedDecimals.{decimal_text, sign_text, glyphs, whole_text, fraction_text, significant as significant_of};

use crate::digits::leading;
use crate::fields::Decimal;
use std::{fmt, str};

/// The number of characters that are written at once: that of MySQL's longest decimals.
const RUN: usize = 65;

impl fmt::Display for Decimal {
    ghost output = { λ d. Some (decimal_text (decimal_parts d)) };

    ghost styled_output = { λ d _. Some (decimal_text (decimal_parts d)) };

    /// Writes a minus if the decimal is negative, the digits before the point without leading zeros, or `0`,
    /// and a point and the digits after it, if there are any. Flags and widths are ignored.
    fn fmt<W: fmt::Write>(&self, f: &mut fmt::Formatter<W>) -> fmt::Result {
        put_sign(self.negative, f)?;
        put_whole(&self.before, f)?;
        put_fraction(&self.after, f)
    }
}

/// Writes a minus if `negative`.
fn put_sign<W: fmt::Write>(negative: bool, f: &mut fmt::Formatter<W>) -> fmt::Result
    ensures { WritesStyledOnOk W.write_str_gives f.old result (sign_text negative) f.new }
{
    f.write_str(if negative { "-" } else { "" })
}

/// Writes the digits before the point without leading zeros, or a zero.
fn put_whole<W: fmt::Write>(digits: &[u8], f: &mut fmt::Formatter<W>) -> fmt::Result
    requires { AreDigits digits.now }
    ensures { WritesStyledOnOk W.write_str_gives f.old result (whole_text digits.now) f.new }
{
    let shown = significant(digits);
    if shown.is_empty() {
        return f.write_str("0");
    }
    put_glyphs(shown, f)
}

/// Writes a point and the digits, if there are any.
fn put_fraction<W: fmt::Write>(digits: &[u8], f: &mut fmt::Formatter<W>) -> fmt::Result
    requires { AreDigits digits.now }
    ensures { WritesStyledOnOk W.write_str_gives f.old result (fraction_text digits.now) f.new }
{
    if digits.is_empty() {
        return Ok(());
    }
    f.write_str(".")?;
    put_glyphs(digits, f)
}

/// Writes digits as characters.
fn put_glyphs<W: fmt::Write>(digits: &[u8], f: &mut fmt::Formatter<W>) -> fmt::Result
    requires { AreDigits digits.now }
    ensures { WritesStyledOnOk W.write_str_gives f.old result (glyphs digits.now) f.new }
{
    let mut rest = digits;
    while !rest.is_empty() {
        let (run, more) = rest.split_at(rest.len().min(RUN));
        put_run(run, f)?;
        rest = more;
    }
    Ok(())
}

/// Writes at most `RUN` digits as characters.
fn put_run<W: fmt::Write>(digits: &[u8], f: &mut fmt::Formatter<W>) -> fmt::Result
    requires few { length digits.now ≤ 65 }
    requires are { AreDigits digits.now }
    ensures { WritesStyledOnOk W.write_str_gives f.old result (glyphs digits.now) f.new }
{
    let mut buffer = [b'0'; RUN];
    let text = &mut buffer[..digits.len()];
    write_glyphs(digits, text);
    match str::from_utf8(text) {
        Ok(text) => f.write_str(text),
        Err(_) => Err(fmt::Error),
    }
}

/// Writes the characters of digits over `text`.
fn write_glyphs(digits: &[u8], text: &mut [u8])
    requires size { length digits.now ≡ length text.old }
    requires are { AreDigits digits.now }
    ensures { text.new ≡ glyphs digits.now }
{
    for i in 0..digits.len() {
        text[i] = b'0' + digits[i];
    }
}

/// Returns the digits without leading zeros.
pub(crate) fn significant(digits: &[u8]) -> &[u8]
    requires { AreDigits digits.now }
    ensures value { result.now ≡ significant_of digits.now }
    ensures digits { AreDigits result.now }
{
    &digits[leading(digits, 0)..]
}
