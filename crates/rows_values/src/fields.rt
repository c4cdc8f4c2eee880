//! The fields of times, dates and decimals.

ghost use Rattle.std.specs.Prelude.{◌≤◌, ◌<◌, ◌+◌, length};
ghost use Rattle.rows_values.specs.Digits.{AreDigits};

/// A value of MySQL's type DECIMAL: a sign, and decimal digits before and after the point. A zero may be
/// negative, and leading zeros are kept.
#[derive(Debug, Drop)]
pub struct Decimal {
    /// Whether the sign is a minus.
    pub(crate) negative: bool,
    /// The digits before the point, each from 0 to 9, the highest first.
    pub(crate) before: Vec<u8>,
    /// The digits after the point.
    pub(crate) after: Vec<u8>,
    ghost before_are: { AreDigits before.items },
    ghost after_are: { AreDigits after.items },
    ghost some: { 0 < length before.items + length after.items },
}

/// An iterator over the bytes of the digit groups before and after the point.
#[derive(Drop)]
pub(crate) struct GroupBytes<'a> {
    /// The bytes of one group, right-aligned.
    pub(crate) bytes: [u8; 4],
    /// The number of bytes of the array that were read or aren't used.
    pub(crate) bytes_used: usize,
    /// The digits before the point whose bytes are still to come.
    pub(crate) before: &'a [u8],
    /// The digits after the point whose bytes are still to come.
    pub(crate) after: &'a [u8],
    ghost within: { bytes_used ≤ 4 },
    ghost before_are: { AreDigits before.now },
    ghost after_are: { AreDigits after.now },
}
