//! The text of a decimal from its packed bytes, one group of digits at a time and without allocating.

ghost use Rattle.std.specs.Prelude.{◌≡◌, ◌≤◌, ◌<◌, ◌+◌, ◌-◌, ◌^◌, ◌++◌, ◌==◌, ◌&&◌, ◌||◌, nat_lt, length, take, true, false};
ghost use Rattle.byteorder.specs.Endian.{big_number};
ghost use Rattle.rows_values.specs.Digits.{side_size as side_size_of, digits_in};
ghost use Rattle.rows_values.specs.Unpacked.{before_digits, after_digits, packed_text};
ghost use Rattle.rows_values.specs.PrintedDecimals.{sign_text};
ghost use Rattle.rows_values.specs.PackedTexts.{flipped_back, is_shown, lead_piece, zero_piece, LeadsOrNone, FollowsOrNone, FractionOrNone, PutsOrNone};

use crate::digit_text::{digit_count, put_byte, put_last_digits};
use crate::digits::{
    DIG_PER_DEC, GROUP_BYTES, decimal_bin_size, group_size, power_of_ten, side_size,
};
use crate::group_number::{group_number, has_minus_bit, is_first};

/// Writes the text of the decimal that the bytes pack, with `precision` digits, `scale` of them after the
/// point, at offset `at`. Returns the offset of its end. The text is a minus if the decimal is negative, the
/// digits before the point without leading zeros, or `0`, and a point and the digits after it, if there are
/// any. A zero without digits after the point has no minus.
///
/// Returns None if the bytes pack no decimal: `scale` exceeds `precision`, there aren't exactly
/// `decimal_bin_size(precision, scale)` bytes, or a group of k digits is 10^k or more. The text before `at`
/// is unchanged.
#[inline]
pub fn put_decimal_text(
    text: &mut [u8],
    at: usize,
    precision: usize,
    scale: usize,
    bytes: &[u8],
) -> Option<usize>
    requires { at + (precision + 3) ≤ length text.old }
    ensures { PutsOrNone (packed_text precision scale bytes.now) (precision + 3) at text.old text.new result }
{
    if scale > precision {
        return None;
    }
    if bytes.len() != decimal_bin_size(precision, scale) {
        return None;
    }
    let before = precision - scale;
    let negative = has_minus_bit(bytes);
    let (prefix, back) = bytes.split_at(side_size(before));
    match put_before(text, at, prefix, negative, before) {
        Some((end, shown)) => {
            let end = put_zero(text, end, shown, is_minus_kept(negative, scale));
            put_fraction(text, end, back, negative, prefix.is_empty(), scale)
        }
        None => None,
    }
}

/// Writes the sign and the digits before the point without leading zeros; nothing if all are zeros. Returns
/// the offset of their end, and whether any were written.
#[inline(always)]
fn put_before(
    text: &mut [u8],
    at: usize,
    bytes: &[u8],
    negative: bool,
    count: usize,
) -> Option<(usize, bool)>
    requires size { length bytes.now ≡ side_size_of count }
    requires room { at + (count + 1) ≤ length text.old }
    ensures { LeadsOrNone negative (before_digits count (flipped_back negative true bytes.now)) count at text.old text.new result }
{
    let left = count % DIG_PER_DEC;
    let (prefix, rest) = bytes.split_at(group_size(left));
    let number = group_number(prefix, negative, true);
    if number >= power_of_ten(left) {
        return None;
    }
    let top = prefix.is_empty();
    let mut end = put_lead(text, at, negative, false, left, number);
    let mut shown = is_now_shown(false, number);
    for i in 0..count / DIG_PER_DEC {
        let group = &rest[GROUP_BYTES * i..GROUP_BYTES * i + GROUP_BYTES];
        let number = group_number(group, negative, is_first(top, i));
        if number >= 1_000_000_000 {
            return None;
        }
        end = put_lead(text, end, negative, shown, DIG_PER_DEC, number);
        shown = is_now_shown(shown, number);
    }
    Some((end, shown))
}

/// Writes one more group before the point: all its digits if digits were written before it, else the sign and
/// the digits from the first nonzero one on.
#[inline(always)]
fn put_lead(
    text: &mut [u8],
    at: usize,
    negative: bool,
    shown: bool,
    count: usize,
    number: u32,
) -> usize
    requires few { count ≤ 9 }
    requires small { number < 10 ^ count }
    requires room { at + count ≤ length text.old }
    requires more { shown ≡ false → at + (count + 1) ≤ length text.old }
    ensures from { at ≤ result }
    ensures most { result ≤ at + (count + 1) }
    ensures following { shown ≡ true → result ≡ at + count }
    ensures none { shown ≡ false → number ≡ 0 → result ≡ at }
    ensures tells { shown ≡ false → is_shown (digits_in count number) ≡ nat_lt 0 number }
    ensures text { take result text.new ≡ take at text.old ++ lead_piece negative shown count number }
{
    if shown {
        return put_last_digits(text, at, count, number);
    }
    if number == 0 {
        return at;
    }
    let end = put_minus(text, at, negative);
    put_last_digits(text, end, digit_count(number), number)
}

/// Writes a minus if `negative`.
#[inline(always)]
fn put_minus(text: &mut [u8], at: usize, negative: bool) -> usize
    requires { at < length text.old }
    ensures from { at ≤ result }
    ensures most { result ≤ at + 1 }
    ensures text { take result text.new ≡ take at text.old ++ sign_text negative }
{
    if negative {
        return put_byte(text, at, b'-');
    }
    at
}

/// Writes a zero if no digit was written, after a minus if `minus`.
#[inline(always)]
fn put_zero(text: &mut [u8], at: usize, shown: bool, minus: bool) -> usize
    requires { shown ≡ false → at + 2 ≤ length text.old }
    ensures shown { shown ≡ true → result ≡ at }
    ensures from { at ≤ result }
    ensures most { result ≤ at + 2 }
    ensures text { take result text.new ≡ take at text.old ++ zero_piece shown minus }
{
    if shown {
        return at;
    }
    let end = put_minus(text, at, minus);
    put_byte(text, end, b'0')
}

/// Writes a point and the digits after it, if there are any. Returns the offset of their end.
#[inline(always)]
fn put_fraction(
    text: &mut [u8],
    at: usize,
    bytes: &[u8],
    negative: bool,
    top: bool,
    count: usize,
) -> Option<usize>
    requires size { length bytes.now ≡ side_size_of count }
    requires room { at + (count + 1) ≤ length text.old }
    ensures { FractionOrNone (after_digits count (flipped_back negative top bytes.now)) count at text.old text.new result }
{
    if count == 0 {
        return Some(at);
    }
    let end = put_byte(text, at, b'.');
    put_after(text, end, bytes, negative, top, count)
}

/// Writes the digits after the point. Returns the offset of their end.
#[inline(always)]
fn put_after(
    text: &mut [u8],
    at: usize,
    bytes: &[u8],
    negative: bool,
    top: bool,
    count: usize,
) -> Option<usize>
    requires size { length bytes.now ≡ side_size_of count }
    requires room { at + count ≤ length text.old }
    ensures { FollowsOrNone (after_digits count (flipped_back negative top bytes.now)) count at text.old text.new result }
{
    let whole = count / DIG_PER_DEC;
    let (prefix, rest) = bytes.split_at(GROUP_BYTES * whole);
    let mut end = at;
    for i in 0..whole {
        let group = &prefix[GROUP_BYTES * i..GROUP_BYTES * i + GROUP_BYTES];
        let number = group_number(group, negative, is_first(top, i));
        if number >= 1_000_000_000 {
            return None;
        }
        end = put_last_digits(text, end, DIG_PER_DEC, number);
    }
    let left = count % DIG_PER_DEC;
    let number = group_number(rest, negative, is_first(top, whole));
    if number >= power_of_ten(left) {
        return None;
    }
    Some(put_last_digits(text, end, left, number))
}

/// Returns whether a digit is written once this number is.
#[inline(always)]
fn is_now_shown(shown: bool, number: u32) -> bool
    ensures { result ≡ (shown || nat_lt 0 number) }
{
    shown || number > 0
}

/// Returns whether a zero has a minus.
#[inline(always)]
fn is_minus_kept(negative: bool, scale: usize) -> bool
    ensures { result ≡ (negative && nat_lt 0 scale) }
{
    negative && scale > 0
}
