//! Numbers in decimal.

use std::str;

/// The number that these digits are; None if they aren't one of 64 bits.
pub(crate) fn number_in(digits: &[u8]) -> Option<u64> {
    str::from_utf8(digits).ok()?.parse().ok()
}

/// A number in 16 bits.
pub(crate) fn narrowed(number: u64) -> Option<u16> {
    if number > 0xffff {
        return None;
    }
    Some(number as u16)
}
