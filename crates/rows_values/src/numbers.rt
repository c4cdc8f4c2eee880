//! The numbers before and after the point of a decimal with few digits, from its packed bytes.

ghost use Rattle.std.specs.Prelude.{◌≡◌, ◌≤◌, length, true};
ghost use Rattle.rows_values.specs.Digits.{side_size as side_size_of};
ghost use Rattle.rows_values.specs.Unpacked.{before_digits, unpacked};
ghost use Rattle.rows_values.specs.PackedTexts.{flipped_back};
ghost use Rattle.rows_values.specs.PackedNumbers.{NumberOrNone, NumbersOrNone};

use crate::digits::{DIG_PER_DEC, decimal_bin_size, group_size, power_of_ten, side_size};
use crate::group_number::{group_number, has_minus_bit};

/// The most digits before the point of a decimal that `decimal_numbers` returns.
const MOST_BEFORE: usize = 16;

/// The most digits after the point.
const MOST_AFTER: usize = 8;

/// A decimal as its sign and two numbers.
#[derive(Clone, Copy, Debug, PartialEq, Eq)]
pub struct DecimalNumbers {
    /// Whether the sign is a minus; a zero may have one.
    pub negative: bool,
    /// The number of the digits before the point.
    pub before: u64,
    /// The number of the digits after the point.
    pub after: u32,
}

/// Returns the numbers of the decimal that the bytes pack, with `precision` digits, `scale` of them after the
/// point, if it has at most 16 digits before the point and at most 8 after it.
///
/// Returns None if there are more digits, or if the bytes pack no decimal: `scale` exceeds `precision`, there
/// aren't exactly `decimal_bin_size(precision, scale)` bytes, or a group of k digits is 10^k or more.
#[inline]
pub fn decimal_numbers(precision: usize, scale: usize, bytes: &[u8]) -> Option<DecimalNumbers>
    ensures { NumbersOrNone precision scale bytes.now result }
{
    if scale > precision {
        return None;
    }
    let count = precision - scale;
    if count > MOST_BEFORE || scale > MOST_AFTER {
        return None;
    }
    if bytes.len() != decimal_bin_size(precision, scale) {
        return None;
    }
    let negative = has_minus_bit(bytes);
    let (prefix, back) = bytes.split_at(side_size(count));
    let after = group_number(back, negative, prefix.is_empty());
    if after >= power_of_ten(scale) {
        return None;
    }
    match before_number(prefix, negative, count) {
        Some(before) => Some(DecimalNumbers {
            negative,
            before,
            after,
        }),
        None => None,
    }
}

/// Returns the number of at most 16 digits before the point, or None if a group is too large.
#[inline(always)]
fn before_number(bytes: &[u8], negative: bool, count: usize) -> Option<u64>
    requires size { length bytes.now ≡ side_size_of count }
    requires few { count ≤ 16 }
    ensures { NumberOrNone (before_digits count (flipped_back negative true bytes.now)) count result }
{
    let left = count % DIG_PER_DEC;
    let (prefix, rest) = bytes.split_at(group_size(left));
    let high = group_number(prefix, negative, true);
    if high >= power_of_ten(left) {
        return None;
    }
    if count < DIG_PER_DEC {
        return Some(u64::from(high));
    }
    let low = group_number(rest, negative, prefix.is_empty());
    if low >= 1_000_000_000 {
        return None;
    }
    Some(u64::from(high) * 1_000_000_000 + u64::from(low))
}
