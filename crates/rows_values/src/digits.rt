//! Groups of decimal digits, and the number of their bytes.

ghost use Rattle.std.specs.Prelude.{◌≡◌, ◌≤◌, ◌<◌, ◌+◌, ◌*◌, ◌/◌, ◌-◌, ◌^◌, ◌==◌, length};
ghost use Rattle.std.specs.List.{prefix_len};
ghost use Rattle.rows_values.specs.Digits.{group_size as group_size_of, side_size as side_size_of};
ghost use Rattle.rows_values.specs.Decimals.{packed_size};

/// The number of a group of digits, with the type that MySQL and `mysql_common` use.
pub type Digit = i32;

/// The number of decimal digits of a full group.
pub const DIG_PER_DEC: usize = 9;

/// The limit of a full group's number: 10^9.
pub const DIG_BASE: usize = 1_000_000_000;

/// The number of bytes of a group of 0 to 9 digits.
pub const DIG_TO_BYTES: [u8; 10] = [0, 1, 1, 2, 2, 3, 3, 4, 4, 4];

/// The number of bytes of a full group.
pub(crate) const GROUP_BYTES: usize = 4;

/// The powers of ten from 10^0 to 10^9.
pub const POWERS_10: [Digit; 10] = [
    1,
    10,
    100,
    1_000,
    10_000,
    100_000,
    1_000_000,
    10_000_000,
    100_000_000,
    1_000_000_000,
];

/// Returns the number of bytes of a packed decimal with `precision` digits, `scale` of them after the point.
/// `scale` must not exceed `precision`.
#[inline(always)]
pub fn decimal_bin_size(precision: usize, scale: usize) -> usize
    requires { scale ≤ precision }
    ensures { result ≡ packed_size (precision - scale) scale }
{
    side_size(precision - scale) + side_size(scale)
}

/// The number of bytes of up to 71 digits on one side of the point: more digits than MySQL's decimals have.
static SIDE_SIZES: [u8; 72] = [
    0, 1, 1, 2, 2, 3, 3, 4, 4, 4, 5, 5, 6, 6, 7, 7, 8, 8, 8, 9, 9, 10, 10, 11, 11, 12, 12, 12, 13,
    13, 14, 14, 15, 15, 16, 16, 16, 17, 17, 18, 18, 19, 19, 20, 20, 20, 21, 21, 22, 22, 23, 23, 24,
    24, 24, 25, 25, 26, 26, 27, 27, 28, 28, 28, 29, 29, 30, 30, 31, 31, 32, 32,
];

/// Returns the number of bytes of the digits on one side of the point.
#[inline(always)]
#[tactic(auto, using(crate::proofs::SideLemmas::side_at, crate::proofs::SideLemmas::side_most))]
pub(crate) fn side_size(digits: usize) -> usize
    ensures size { result ≡ side_size_of digits }
    ensures bound { result ≤ 4 * (digits / 9) + 4 }
{
    if digits < SIDE_SIZES.len() {
        return usize::from(SIDE_SIZES[digits]);
    }
    GROUP_BYTES * (digits / DIG_PER_DEC) + group_size(digits % DIG_PER_DEC)
}

/// Returns the number of bytes of a group of digits.
pub(crate) fn group_size(digits: usize) -> usize
    requires { digits ≤ 9 }
    ensures size { result ≡ group_size_of digits }
    ensures bound { result ≤ 4 }
{
    usize::from(DIG_TO_BYTES[digits])
}

/// Returns ten to the power of `digits`: the smallest number with more than `digits` digits.
#[inline(always)]
pub(crate) fn power_of_ten(digits: usize) -> u32
    requires { digits ≤ 9 }
    ensures { result ≡ 10 ^ digits }
{
    POWERS_10[digits].unsigned_abs()
}

/// Returns how many of the first bytes equal `byte`.
pub(crate) fn leading(bytes: &[u8], byte: u8) -> usize
    ensures count { result ≡ prefix_len (λ b. b == byte) bytes.now }
    ensures bound { result ≤ length bytes.now }
{
    for (i, other) in bytes.iter().enumerate() {
        if *other != byte {
            return i;
        }
    }
    bytes.len()
}
