//! Bytes and decimal numbers.

ghost use Rattle.std.specs.Prelude.{◌≡◌, ◌≤◌, ◌<◌, ◌^◌, ◌+◌, ◌-◌, ◌*◌, ◌/◌, ◌%◌, ◌==◌, ◌++◌, ◌∷◌, [], length, min, take, take_while, drop, All};
ghost use Rattle.std.specs.Fmt.{decimal, signed_decimal};
ghost use Rattle.rows_values.specs.TimeTexts.{padded_decimal};

use itoa::write_digits;
use rows_values::{PAIRS, put_byte, put_four, put_two};

/// Writes bytes, unchanged.
#[inline(always)]
pub fn put_bytes(text: &mut [u8], at: usize, bytes: &[u8]) -> usize
    requires { at + length bytes.now ≤ length text.old }
    ensures end { result ≡ at + length bytes.now }
    ensures text { take result text.new ≡ take at text.old ++ bytes.now }
{
    let end = at + bytes.len();
    text[at..end].copy_from_slice(bytes);
    end
}

/// Writes a number below 1,000,000 with six digits.
#[inline(always)]
pub(crate) fn put_six(text: &mut [u8], at: usize, number: u32) -> usize
    requires small { number < 1000000 }
    requires room { at + 6 ≤ length text.old }
    ensures end { result ≡ at + 6 }
    ensures text { take result text.new ≡ take at text.old ++ padded_decimal 6 number }
{
    let end = put_four(text, at, number / 100);
    put_two(text, end, number % 100)
}

/// The number of digits of a number below 10,000.
#[inline(always)]
fn short_count(number: u64) -> usize
    requires { number < 10000 }
    ensures value { result ≡ length (decimal number) }
    ensures most { result ≤ 4 }
{
    if number < 100 {
        if number < 10 { 1 } else { 2 }
    } else if number < 1000 {
        3
    } else {
        4
    }
}

/// The number of digits of a number.
#[inline(always)]
fn digit_count(number: u64) -> usize
    ensures value { result ≡ length (decimal number) }
    ensures most { result ≤ 20 }
{
    if number < 10_000 {
        short_count(number)
    } else if number < 100_000_000 {
        4 + short_count(number / 10_000)
    } else if number < 1_000_000_000_000 {
        8 + short_count(number / 100_000_000)
    } else if number < 10_000_000_000_000_000 {
        12 + short_count(number / 1_000_000_000_000)
    } else {
        16 + short_count(number / 10_000_000_000_000_000)
    }
}

/// Writes a number with its `count` digits.
#[inline(always)]
fn put_counted(text: &mut [u8], at: usize, count: usize, number: u64) -> usize
    requires count { count ≡ length (decimal number) }
    requires room { at + count ≤ length text.old }
    ensures end { result ≡ at + count }
    ensures text { take result text.new ≡ take at text.old ++ decimal number }
{
    let end = at + count;
    let _start = write_digits(number, text, end);
    end
}

/// Writes a number below 10,000 in decimal.
#[inline(always)]
fn put_short(text: &mut [u8], at: usize, number: u32) -> usize
    requires small { number < 10000 }
    requires room { at + 4 ≤ length text.old }
    ensures end { result ≡ at + length (decimal number) }
    ensures most { result ≤ at + 4 }
    ensures text { take result text.new ≡ take at text.old ++ decimal number }
{
    if number < 1000 {
        return put_below_thousand(text, at, number);
    }
    put_four(text, at, number)
}

/// Writes a number below 1,000 in decimal.
#[inline(always)]
fn put_below_thousand(text: &mut [u8], at: usize, number: u32) -> usize
    requires small { number < 1000 }
    requires room { at + 3 ≤ length text.old }
    ensures end { result ≡ at + length (decimal number) }
    ensures most { result ≤ at + 3 }
    ensures text { take result text.new ≡ take at text.old ++ decimal number }
{
    if number < 10 {
        return put_byte(text, at, b'0' + number as u8);
    }
    if number < 100 {
        return put_two(text, at, number);
    }
    put_three(text, at, number)
}

/// Writes a number of three digits in decimal.
#[inline(always)]
fn put_three(text: &mut [u8], at: usize, number: u32) -> usize
    requires long { 100 ≤ number }
    requires small { number < 1000 }
    requires room { at + 3 ≤ length text.old }
    ensures end { result ≡ at + length (decimal number) }
    ensures most { result ≤ at + 3 }
    ensures text { take result text.new ≡ take at text.old ++ decimal number }
{
    let hundreds = number / 100;
    let end = put_byte(text, at, b'0' + hundreds as u8);
    put_two(text, end, number - 100 * hundreds)
}

/// Writes a number below 100,000,000 in decimal. Its eight digits are shifted as one number until the leading zeros are dropped,
/// so that only the offset of the end depends on their number.
#[inline(always)]
fn put_middle(text: &mut [u8], at: usize, number: u32) -> usize
    requires small { number < 100000000 }
    requires room { at + 8 ≤ length text.old }
    ensures end { result ≡ at + length (decimal number) }
    ensures most { result ≤ at + 8 }
    ensures text { take result text.new ≡ take at text.old ++ decimal number }
{
    let digits = eight_digits(number);
    let count = 8 - leading_zeros(digits);
    put_bytes(text, at, &last_bytes_first(digits, count));
    at + count
}

/// The two digits of a number below 100, as the bytes of a number in little-endian order.
#[inline(always)]
fn two_digits(number: u32) -> u32
    requires { number < 100 }
    ensures { result ≡ 48 + number / 10 + 256 * (48 + number % 10) }
{
    let from = number as usize * 2;
    u32::from(u16::from_le_bytes([PAIRS[from], PAIRS[from + 1]]))
}

/// The same for the four digits of a number below 10,000.
#[inline(always)]
fn four_digits(number: u32) -> u32
    requires { number < 10000 }
    ensures { result ≡ 48 + number / 1000 + 256 * (48 + number / 100 % 10) + 65536 * (48 + number / 10 % 10) + 16777216 * (48 + number % 10) }
{
    let hundreds = number / 100;
    two_digits(hundreds) + 65_536 * two_digits(number - 100 * hundreds)
}

/// The eight digits of a number below 100,000,000. They are computed as the bytes of one number, so that none goes through memory.
#[inline(always)]
fn eight_digits(number: u32) -> [u8; 8]
    requires { number < 100000000 }
    ensures { result ≡ padded_decimal 4 (number / 10000) ++ padded_decimal 4 (number % 10000) }
{
    let high = number / 10_000;
    let (first, second) = (four_digits(high), four_digits(number - 10_000 * high));
    (u64::from(first) + 4_294_967_296 * u64::from(second)).to_le_bytes()
}

/// Eight digits 0, as the bytes of a number.
const ZEROS: u64 = 0x3030_3030_3030_3030;

/// The highest bit of a number. It stops the count at the last of eight digits.
const TOP_BIT: u64 = 0x8000_0000_0000_0000;

/// The number of leading zeros of eight digits, at most seven: those before the digit with the lowest set bit of their values.
#[inline(always)]
fn leading_zeros(digits: [u8; 8]) -> usize
    requires { All (λ d. (48 ≤ d) × (d ≤ 57)) digits }
    ensures { result ≡ min (length (take_while (λ d. d == 48) digits)) 7 }
{
    let values = u64::from_le_bytes(digits) - ZEROS;
    (values + TOP_BIT).trailing_zeros() as usize / 8
}

/// Writes a number with `count` digits, at most eight.
#[inline(always)]
pub fn put_fixed_digits(text: &mut [u8], at: usize, count: usize, number: u32) -> usize
    requires some { 1 ≤ count }
    requires few { count ≤ 8 }
    requires small { number < 10 ^ count }
    requires room { at + 8 ≤ length text.old }
    ensures end { result ≡ at + count }
    ensures text { take result text.new ≡ take at text.old ++ padded_decimal count number }
{
    match count {
        2 => put_two(text, at, number),
        4 => put_four(text, at, number),
        _ => put_last_of_eight(text, at, count, number),
    }
}

/// The same, by way of the last of eight digits.
#[inline(always)]
fn put_last_of_eight(text: &mut [u8], at: usize, count: usize, number: u32) -> usize
    requires some { 1 ≤ count }
    requires few { count ≤ 8 }
    requires small { number < 10 ^ count }
    requires room { at + 8 ≤ length text.old }
    ensures end { result ≡ at + count }
    ensures text { take result text.new ≡ take at text.old ++ padded_decimal count number }
{
    put_bytes(text, at, &last_bytes_first(eight_digits(number), count));
    at + count
}

/// Moves the last `count` of eight bytes to the start.
#[inline(always)]
fn last_bytes_first(bytes: [u8; 8], count: usize) -> [u8; 8]
    requires some { 1 ≤ count }
    requires most { count ≤ 8 }
    ensures { take count result ≡ drop (8 - count) bytes }
{
    let shifted = u64::from_le_bytes(bytes) >> (64 - 8 * count);
    shifted.to_le_bytes()
}

/// 1 if a number is at least `least`, else 0.
#[inline(always)]
pub(crate) fn at_least(number: u32, least: u32) -> usize
    ensures most { result ≤ 1 }
    ensures from { least ≤ number → result ≡ 1 }
    ensures below { number < least → result ≡ 0 }
{
    usize::from(number >= least)
}

/// Writes a number below 100,000,000 with eight digits.
#[inline(always)]
fn put_eight_bytes(text: &mut [u8], at: usize, number: u32) -> usize
    requires small { number < 100000000 }
    requires room { at + 8 ≤ length text.old }
    ensures end { result ≡ at + 8 }
    ensures text { take result text.new ≡ take at text.old ++ (padded_decimal 4 (number / 10000) ++ padded_decimal 4 (number % 10000)) }
{
    put_bytes(text, at, &eight_digits(number))
}

/// Writes a number in decimal.
#[inline(always)]
pub fn put_number(text: &mut [u8], at: usize, number: u64) -> usize
    requires { at + 20 ≤ length text.old }
    ensures end { result ≡ at + length (decimal number) }
    ensures most { result ≤ at + 20 }
    ensures text { take result text.new ≡ take at text.old ++ decimal number }
{
    if number < 100_000_000 {
        return put_middle(text, at, number as u32);
    }
    put_long(text, at, number)
}

/// Writes a number below 100 in decimal. Both digits are stored in any case, so that there is no branch.
#[inline(always)]
fn put_below_hundred(text: &mut [u8], at: usize, number: u32) -> usize
    requires small { number < 100 }
    requires room { at + 2 ≤ length text.old }
    ensures end { result ≡ at + length (decimal number) }
    ensures most { result ≤ at + 2 }
    ensures text { take result text.new ≡ take at text.old ++ decimal number }
{
    let from = number as usize * 2;
    let _end = put_byte(text, at, PAIRS[from]);
    put_byte(text, at + at_least(number, 10), PAIRS[from + 1])
}

/// Writes a number of nine digits or more in decimal.
#[inline(never)]
fn put_long(text: &mut [u8], at: usize, number: u64) -> usize
    requires long { 100000000 ≤ number }
    requires room { at + 20 ≤ length text.old }
    ensures end { result ≡ at + length (decimal number) }
    ensures most { result ≤ at + 20 }
    ensures text { take result text.new ≡ take at text.old ++ decimal number }
{
    let prefix = number / 100_000_000;
    if prefix >= 100 {
        return put_longer(text, at, number);
    }
    let end = put_below_hundred(text, at, prefix as u32);
    put_eight_bytes(text, end, (number % 100_000_000) as u32)
}

/// The same for a number that may have more than ten digits.
#[inline(never)]
fn put_longer(text: &mut [u8], at: usize, number: u64) -> usize
    requires long { 100000000 ≤ number }
    requires room { at + 20 ≤ length text.old }
    ensures end { result ≡ at + length (decimal number) }
    ensures most { result ≤ at + 20 }
    ensures text { take result text.new ≡ take at text.old ++ decimal number }
{
    let prefix = number / 100_000_000;
    let last = (number % 100_000_000) as u32;
    if prefix < 100_000_000 {
        let end = put_middle(text, at, prefix as u32);
        return put_eight_bytes(text, end, last);
    }
    let end = put_short(text, at, (prefix / 100_000_000) as u32);
    let end = put_eight_bytes(text, end, (prefix % 100_000_000) as u32);
    put_eight_bytes(text, end, last)
}

/// Writes a signed number in decimal. The `-` is stored in any case, so that there is no branch on the sign.
#[inline(always)]
pub fn put_signed(text: &mut [u8], at: usize, number: i64) -> usize
    requires { at + 21 ≤ length text.old }
    ensures most { result ≤ at + 21 }
    ensures text { take result text.new ≡ take at text.old ++ signed_decimal number }
{
    text[at] = b'-';
    let start = at + usize::from(number < 0);
    put_number(text, start, number.unsigned_abs())
}

/// Writes a number with leading zeros up to a minimum width.
#[inline(never)]
pub fn put_padded(text: &mut [u8], at: usize, width: usize, number: u32) -> usize
    requires width { width ≤ 10 }
    requires room { at + 10 ≤ length text.old }
    ensures most { result ≤ at + 10 }
    ensures text { take result text.new ≡ take at text.old ++ padded_decimal width number }
{
    let number = u64::from(number);
    let count = short_digit_count(number);
    if count >= width {
        return put_counted(text, at, count, number);
    }
    let mut end = at;
    for digit in count..width {
        end = put_byte(text, end, b'0');
    }
    put_counted(text, end, count, number)
}

/// The number of digits of a 32-bit number.
fn short_digit_count(number: u64) -> usize
    requires { number < 2 ^ 32 }
    ensures value { result ≡ length (decimal number) }
    ensures most { result ≤ 10 }
{
    digit_count(number)
}
