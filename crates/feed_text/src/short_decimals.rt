//! The quoted text of decimals with few digits, from the numbers before and after the point.

ghost use Rattle.std.specs.Prelude.{◌≡◌, ◌≤◌, ◌<◌, ◌+◌, ◌-◌, ◌^◌, ◌++◌, ◌∷◌, [], length, take};
ghost use Rattle.std.specs.Fmt.{decimal};
ghost use Rattle.rows_values.specs.Decimals.{packed_size};
ghost use Rattle.rows_values.specs.PackedTexts.{PutsOrNone};
ghost use Rattle.feed_text.specs.DecimalText.{quoted_decimal, PutsShort, numbers_sign, micros_places_text, numbers_text};

use crate::decimals::write_quoted;
use crate::short::FEW_DIGITS;
use crate::word_decimals::word_numbers;
use feed_writers::{put_byte, put_fixed_digits, put_number};
use rows_values::{DecimalNumbers, decimal_numbers};

/// Writes the quoted text of the packed decimal in the first `size` bytes, if it has few digits.
#[inline(always)]
pub(crate) fn put_short_decimal(
    text: &mut [u8],
    at: usize,
    bytes: &[u8],
    size: usize,
    precision: u8,
    scale: u8,
) -> Option<usize>
    requires ordered { scale ≤ precision }
    requires size { size ≡ packed_size (precision - scale) scale }
    requires within { size ≤ length bytes.now }
    requires room { at + 76 ≤ length text.old }
    ensures { PutsShort (quoted_decimal precision scale (take size bytes.now)) at text.old text.new result }
{
    match word_numbers(usize::from(precision), usize::from(scale), bytes, size) {
        Some(numbers) if numbers.before < 100_000_000 => {
            Some(put_quoted_numbers(text, at, usize::from(scale), numbers))
        }
        _ => put_other_decimal(text, at, &bytes[..size], precision, scale),
    }
}

/// The same for any decimal.
#[inline(never)]
fn put_other_decimal(
    text: &mut [u8],
    at: usize,
    bytes: &[u8],
    precision: u8,
    scale: u8,
) -> Option<usize>
    requires room { at + 76 ≤ length text.old }
    ensures { PutsShort (quoted_decimal precision scale bytes.now) at text.old text.new result }
{
    if precision > FEW_DIGITS {
        return None;
    }
    write_few_quoted(text, at, usize::from(precision), usize::from(scale), bytes)
}

/// Does the same as [`write_quoted`], with more room. A decimal with at most 16 digits before the point and 8 after it is written
/// from its numbers.
#[inline(always)]
fn write_few_quoted(
    text: &mut [u8],
    at: usize,
    precision: usize,
    scale: usize,
    bytes: &[u8],
) -> Option<usize>
    requires few { precision ≤ 71 }
    requires room { at + 76 ≤ length text.old }
    ensures { PutsOrNone (quoted_decimal precision scale bytes.now) (precision + 5) at text.old text.new result }
{
    match decimal_numbers(precision, scale, bytes) {
        Some(numbers) => Some(put_quoted_numbers(text, at, scale, numbers)),
        None => write_quoted(text, at, precision, scale, bytes),
    }
}

/// Writes the quoted text of a sign and two numbers.
#[inline(always)]
fn put_quoted_numbers(text: &mut [u8], at: usize, scale: usize, numbers: DecimalNumbers) -> usize
    requires few { scale ≤ 8 }
    requires small { numbers.after < 10 ^ scale }
    requires room { at + 76 ≤ length text.old }
    ensures end { result ≡ at + (length (numbers_text scale numbers) + 2) }
    ensures text { take result text.new ≡ take at text.old ++ (39 ∷ numbers_text scale numbers ++ 39 ∷ []) }
{
    let end = put_byte(text, at, b'\'');
    let end = put_sign(text, end, scale, numbers);
    let end = put_number(text, end, numbers.before);
    let end = put_fraction(text, end, scale, numbers.after);
    put_byte(text, end, b'\'')
}

/// Writes a `-` if the decimal is negative, except for a zero without digits after the point. The byte is stored in any case, so
/// that only the offset of the end depends on the sign.
#[inline(always)]
fn put_sign(text: &mut [u8], at: usize, scale: usize, numbers: DecimalNumbers) -> usize
    requires { at < length text.old }
    ensures end { result ≡ at + length (numbers_sign scale numbers) }
    ensures most { result ≤ at + 1 }
    ensures text { take result text.new ≡ take at text.old ++ numbers_sign scale numbers }
{
    text[at] = b'-';
    if scale == 0 && numbers.before == 0 {
        return at;
    }
    at + usize::from(numbers.negative)
}

/// Writes a point and `scale` digits of a number, if `scale` isn't 0.
#[inline(always)]
fn put_fraction(text: &mut [u8], at: usize, scale: usize, number: u32) -> usize
    requires few { scale ≤ 8 }
    requires small { number < 10 ^ scale }
    requires room { at + 9 ≤ length text.old }
    ensures end { result ≡ at + length (micros_places_text scale number) }
    ensures most { result ≤ at + 9 }
    ensures text { take result text.new ≡ take at text.old ++ micros_places_text scale number }
{
    if scale == 0 {
        return at;
    }
    let end = put_byte(text, at, b'.');
    put_fixed_digits(text, end, scale, number)
}
