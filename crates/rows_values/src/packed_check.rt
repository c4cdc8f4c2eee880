//! Checks whether bytes pack a decimal.

ghost use Rattle.std.specs.Prelude.{◌≡◌, ◌/◌, length, true};
ghost use Rattle.std.specs.Option.{is_some};
ghost use Rattle.rows_values.specs.Digits.{side_size as side_size_of};
ghost use Rattle.rows_values.specs.Unpacked.{nines_digits, before_digits, after_digits, packed_text};
ghost use Rattle.rows_values.specs.PackedTexts.{flipped_back};

use crate::digits::{
    DIG_PER_DEC, GROUP_BYTES, decimal_bin_size, group_size, power_of_ten, side_size,
};
use crate::group_number::{group_number, has_minus_bit, is_first};

/// Returns whether the bytes pack a decimal of `precision` digits, `scale` of them after the point: `scale`
/// is at most `precision`, there are exactly `decimal_bin_size(precision, scale)` bytes, and each group of k
/// digits is below 10^k.
pub fn packs_decimal(bytes: &[u8], precision: usize, scale: usize) -> bool
    ensures { result ≡ is_some (packed_text precision scale bytes.now) }
{
    if scale > precision {
        return false;
    }
    if bytes.len() != decimal_bin_size(precision, scale) {
        return false;
    }
    let before = precision - scale;
    let negative = has_minus_bit(bytes);
    let (prefix, back) = bytes.split_at(side_size(before));
    if !are_before(prefix, negative, before) {
        return false;
    }
    are_after(back, negative, prefix.is_empty(), scale)
}

/// Returns whether the bytes are `count` digits before the point.
fn are_before(bytes: &[u8], negative: bool, count: usize) -> bool
    requires { length bytes.now ≡ side_size_of count }
    ensures { result ≡ is_some (before_digits count (flipped_back negative true bytes.now)) }
{
    let left = count % DIG_PER_DEC;
    let (prefix, rest) = bytes.split_at(group_size(left));
    if group_number(prefix, negative, true) >= power_of_ten(left) {
        return false;
    }
    are_nines(rest, negative, prefix.is_empty())
}

/// Returns whether the bytes are `count` digits after the point.
fn are_after(bytes: &[u8], negative: bool, top: bool, count: usize) -> bool
    requires { length bytes.now ≡ side_size_of count }
    ensures { result ≡ is_some (after_digits count (flipped_back negative top bytes.now)) }
{
    let whole = count / DIG_PER_DEC;
    let (prefix, rest) = bytes.split_at(GROUP_BYTES * whole);
    if !are_nines(prefix, negative, top) {
        return false;
    }
    let left = count % DIG_PER_DEC;
    group_number(rest, negative, is_first(top, whole)) < power_of_ten(left)
}

/// Returns whether the bytes are groups of nine digits.
fn are_nines(groups: &[u8], negative: bool, top: bool) -> bool
    ensures { result ≡ is_some (nines_digits (length groups.now / 4) (flipped_back negative top groups.now)) }
{
    for i in 0..groups.len() / GROUP_BYTES {
        let group = &groups[GROUP_BYTES * i..GROUP_BYTES * i + GROUP_BYTES];
        let number = group_number(group, negative, is_first(top, i));
        if number >= 1_000_000_000 {
            return false;
        }
    }
    true
}
