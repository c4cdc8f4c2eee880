//! Decimals in quotes.

ghost use Rattle.std.specs.Prelude.{◌≡◌, ◌≤◌, ◌<◌, ◌+◌, ◌^◌, ◌++◌, length, take};
ghost use Rattle.std.specs.Option.{option_map};
ghost use Rattle.rows_values.specs.PackedTexts.{PutsOrNone};
ghost use Rattle.rows_values.specs.Unpacked.{packed_text};
ghost use Rattle.feed_text.specs.DecimalText.{numbers_sign, micros_places_text, numbers_text};
ghost use Rattle.changes_cells.specs.ShownTimes.{in_quotes};

use feed_writers::{put_byte, put_fixed_digits, put_number};
use rows_values::{DecimalNumbers, decimal_numbers, put_decimal_text};

/// Writes a `-` if the decimal is negative, except for a zero without digits after the point. The byte is stored in any case, so
/// that only the offset of the end depends on the sign.
#[inline(always)]
fn put_sign(text: &mut [u8], at: usize, scale: usize, numbers: DecimalNumbers) -> usize
    requires { at < length text.old }
    ensures end { result ≡ at + length (numbers_sign scale numbers) }
    ensures most { result ≤ at + 1 }
    ensures text { take result text.new ≡ take at text.old ++ numbers_sign scale numbers }
{
    text[at] = b'-';
    if scale == 0 && numbers.before == 0 {
        return at;
    }
    at + usize::from(numbers.negative)
}

/// Writes a point and `scale` digits of a number, if `scale` isn't 0.
#[inline(always)]
fn put_fraction(text: &mut [u8], at: usize, scale: usize, number: u32) -> usize
    requires few { scale ≤ 8 }
    requires small { number < 10 ^ scale }
    requires room { at + 9 ≤ length text.old }
    ensures end { result ≡ at + length (micros_places_text scale number) }
    ensures most { result ≤ at + 9 }
    ensures text { take result text.new ≡ take at text.old ++ micros_places_text scale number }
{
    if scale == 0 {
        return at;
    }
    let end = put_byte(text, at, b'.');
    put_fixed_digits(text, end, scale, number)
}

/// Writes a sign and two numbers in quotes.
#[inline(always)]
fn put_numbers(text: &mut [u8], at: usize, scale: usize, numbers: DecimalNumbers) -> usize
    requires few { scale ≤ 8 }
    requires small { numbers.after < 10 ^ scale }
    requires room { at + 40 ≤ length text.old }
    ensures end { result ≡ at + (length (numbers_text scale numbers) + 2) }
    ensures text { take result text.new ≡ take at text.old ++ in_quotes (numbers_text scale numbers) }
{
    let end = put_byte(text, at, b'"');
    let end = put_sign(text, end, scale, numbers);
    let end = put_number(text, end, numbers.before);
    let end = put_fraction(text, end, scale, numbers.after);
    put_byte(text, end, b'"')
}

/// Writes any decimal in quotes, one group of digits at a time.
#[inline(never)]
fn put_groups(
    text: &mut [u8],
    at: usize,
    precision: usize,
    scale: usize,
    bytes: &[u8],
) -> Option<usize>
    requires few { precision ≤ 255 }
    requires room { at + 400 ≤ length text.old }
    ensures { PutsOrNone (option_map in_quotes (packed_text precision scale bytes.now)) (precision + 5) at text.old text.new result }
{
    let start = put_byte(text, at, b'"');
    match put_decimal_text(text, start, precision, scale, bytes) {
        Some(end) => Some(put_byte(text, end, b'"')),
        None => None,
    }
}

/// Writes the decimal that the bytes pack in quotes; `None` if they pack none. One with at most 16 digits before the point and 8 after
/// it is written from its numbers.
#[inline(always)]
pub(crate) fn put_quoted_decimal(
    text: &mut [u8],
    at: usize,
    precision: usize,
    scale: usize,
    bytes: &[u8],
) -> Option<usize>
    requires few { precision ≤ 255 }
    requires room { at + 400 ≤ length text.old }
    ensures { PutsOrNone (option_map in_quotes (packed_text precision scale bytes.now)) (precision + 5) at text.old text.new result }
{
    match decimal_numbers(precision, scale, bytes) {
        Some(numbers) => Some(put_numbers(text, at, scale, numbers)),
        None => put_groups(text, at, precision, scale, bytes),
    }
}
