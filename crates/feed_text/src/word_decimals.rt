//! The numbers before and after the point of a decimal of at most eight bytes, which are read as one number: both inversions are undone
//! on it, and its groups are split off by shifts.

ghost use Rattle.std.specs.Prelude.{◌≡◌, ◌≤◌, ◌<◌, ◌+◌, ◌-◌, ◌*◌, ◌^◌, List, ℕ, IfSome, length, take, true};
ghost use Rattle.byteorder.specs.Endian.{big_from, big_number};
ghost use Rattle.wire_buf.specs.Encoding.{AreBytes};
ghost use Rattle.rows_values.specs.Digits.{has_minus_bit, side_size};
ghost use Rattle.rows_values.specs.Decimals.{packed_size};
ghost use Rattle.rows_values.specs.PackedNumbers.{IsNumber, PackNumbers};
ghost use Rattle.rows_values.specs.PackedTexts.{flipped_back};
ghost use Rattle.rows_values.specs.Unpacked.{before_digits};

use byteorder::{BigEndian, ByteOrder};
use rows_values::{DIG_TO_BYTES, DecimalNumbers};

/// The maximum number of bytes of a decimal that is read here.
const WORD_LEN: usize = 8;

/// The maximum number of digits before the point of a decimal that is read here.
const MOST_BEFORE: usize = 16;

/// The maximum number of digits after the point.
const MOST_AFTER: usize = 8;

/// The highest bit of a number of eight bytes.
const TOP: u64 = 0x8000_0000_0000_0000;

/// The powers of ten from 10^0 to 10^8.
const POWERS: [u64; 9] = [
    1,
    10,
    100,
    1_000,
    10_000,
    100_000,
    1_000_000,
    10_000_000,
    100_000_000,
];

/// The numbers of the decimal in the first `size` bytes, with `precision` digits, `scale` of them after the point. `None` if it
/// isn't read here: it has more than 16 digits before the point or more than 8 after it, more than eight bytes or none, or fewer
/// than eight bytes are given; or the bytes pack no decimal.
#[inline(always)]
pub(crate) fn word_numbers(
    precision: usize,
    scale: usize,
    bytes: &[u8],
    size: usize,
) -> Option<DecimalNumbers>
    requires ordered { scale ≤ precision }
    requires size { size ≡ packed_size (precision - scale) scale }
    ensures { IfSome result (λ n. PackNumbers precision scale (take size bytes.now) n) }
{
    let count = precision - scale;
    if count > MOST_BEFORE || scale > MOST_AFTER {
        return None;
    }
    if size == 0 || size > WORD_LEN || bytes.len() < WORD_LEN {
        return None;
    }
    let (negative, word) = plain_word(bytes);
    let (whole, after) = split_last(first_bytes(word, size), DIG_TO_BYTES[scale]);
    if after >= power_of_ten(scale) {
        return None;
    }
    match whole_number(count, whole) {
        Some(before) => Some(DecimalNumbers {
            negative,
            before,
            after: after as u32,
        }),
        None => None,
    }
}

/// Whether packed bytes are those of a negative number, and the number of the first eight of them, with the inversion undone.
#[inline(always)]
fn plain_word(bytes: &[u8]) -> (bool, u64)
    requires { 8 ≤ length bytes.now }
    ensures sign { result.0 ≡ has_minus_bit bytes.now }
    ensures word { result.1 ≡ big_number 8 (flipped_back result.0 true bytes.now) }
{
    let packed = BigEndian::read_u64(bytes);
    if packed < TOP {
        (true, TOP - 1 - packed)
    } else {
        (false, packed - TOP)
    }
}

/// The number of the first `size` of eight bytes, from the number of all.
#[inline(always)]
fn first_bytes(word: u64, size: usize) -> u64
    requires some { 1 ≤ size }
    requires few { size ≤ 8 }
    ensures { (xs : List ℕ) → AreBytes xs → word ≡ big_number 8 xs → result ≡ big_number size xs }
{
    word >> unused_bits(size)
}

/// The number of bits of eight bytes that `size` bytes leave.
#[inline(always)]
fn unused_bits(size: usize) -> u32
    requires some { 1 ≤ size }
    requires few { size ≤ 8 }
    ensures value { result + 8 * size ≡ 64 }
    ensures most { result < 64 }
{
    8 * (WORD_LEN - size) as u32
}

/// Splits a number of bytes into that of the bytes before the last `size`, and that of these.
#[inline(always)]
fn split_last(number: u64, size: u8) -> (u64, u64)
    requires { size ≤ 4 }
    ensures { (n : ℕ) (xs : List ℕ) → AreBytes xs → number ≡ big_from 0 (n + size) xs → (result.0 ≡ big_from 0 n xs) × (result.1 ≡ big_from n size xs) }
{
    let bits = 8 * u32::from(size);
    (number >> bits, number % (1 << bits))
}

/// The number of at most 16 digits before the point, from the number of their bytes. `None` if a group is too large.
#[inline(always)]
fn whole_number(count: usize, packed: u64) -> Option<u64>
    requires { count ≤ 16 }
    ensures { IfSome result (λ n. (xs : List ℕ) → AreBytes xs → packed ≡ big_from 0 (side_size count) xs
        → side_size count ≤ length xs → IsNumber (before_digits count (take (side_size count) xs)) count n) }
{
    if count < 9 {
        if packed >= power_of_ten(count) {
            return None;
        }
        return Some(packed);
    }
    let (high, low) = split_last(packed, 4);
    if high >= power_of_ten(count - 9) || low >= 1_000_000_000 {
        return None;
    }
    Some(high * 1_000_000_000 + low)
}

/// Ten to the power of `digits`.
#[inline(always)]
fn power_of_ten(digits: usize) -> u64
    requires { digits ≤ 8 }
    ensures value { result ≡ 10 ^ digits }
    ensures most { result ≤ 100000000 }
{
    POWERS[digits]
}
