//! The number of a digit group from its packed bytes, and the sign of packed bytes.

ghost use Rattle.std.specs.Prelude.{◌≡◌, ◌≤◌, ◌==◌, ◌&&◌, length};
ghost use Rattle.byteorder.specs.Endian.{big_number};
ghost use Rattle.wire_buf.specs.Encoding.{AreBytes};
ghost use Rattle.rows_values.specs.Digits.{has_minus_bit as has_minus_bit_in};
ghost use Rattle.rows_values.specs.PackedTexts.{flipped_back};

use byteorder::{BigEndian, ByteOrder};

/// The largest number of 0 to 4 bytes.
const LARGEST: [u32; 5] = [0, 0xff, 0xffff, 0xff_ffff, 0xffff_ffff];

/// The value of the top bit of 0 to 4 bytes.
const TOPS: [u32; 5] = [0, 0x80, 0x8000, 0x80_0000, 0x8000_0000];

/// Returns whether packed bytes are those of a negative number: the top bit is clear.
pub(crate) fn has_minus_bit(bytes: &[u8]) -> bool
    ensures sign { result ≡ has_minus_bit_in bytes.now }
    ensures bytes { AreBytes bytes.now }
{
    match bytes.first() {
        Some(first) => *first < 128,
        None => false,
    }
}

/// Returns whether a group is the first of all: no bytes precede these groups, and `position` is 0.
#[inline(always)]
pub(crate) fn is_first(top: bool, position: usize) -> bool
    ensures { result ≡ (top && (position == 0)) }
{
    top && position == 0
}

/// Returns the number of a group from its packed bytes. `negative`: the decimal is negative. `top`: the group
/// has the top bit of the packed bytes.
#[inline(always)]
pub(crate) fn group_number(bytes: &[u8], negative: bool, top: bool) -> u32
    requires { length bytes.now ≤ 4 }
    ensures { result ≡ big_number (length bytes.now) (flipped_back negative top bytes.now) }
{
    let size = bytes.len();
    let packed = bytes_number(bytes);
    // (both are loaded whatever the sign, so that no branch depends on it)
    let (largest, highest) = (LARGEST[size], TOPS[size]);
    let number = if negative { largest - packed } else { packed };
    if !top {
        return number;
    }
    if number >= highest {
        number - highest
    } else {
        number + highest
    }
}

/// Returns the big-endian number of up to four bytes.
#[inline(always)]
fn bytes_number(bytes: &[u8]) -> u32
    requires { length bytes.now ≤ 4 }
    ensures { result ≡ big_number (length bytes.now) bytes.now }
{
    match bytes.len() {
        0 => 0,
        1 => u32::from(bytes[0]),
        2 => u32::from(BigEndian::read_u16(bytes)),
        3 => BigEndian::read_u24(bytes),
        _ => BigEndian::read_u32(bytes),
    }
}
