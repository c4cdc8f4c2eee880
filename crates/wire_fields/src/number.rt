//! The numbers of the fixed-width representations, unsigned and signed.

ghost use Rattle.std.specs.Prelude.{◌≡◌, ◌≤◌, ◌<◌, ◌^◌, ℕ, length, Option, Some};
ghost use Rattle.std.proofs.Common.{rules};
ghost use Rattle.byteorder.specs.Endian.{twos_complement};
ghost use Rattle.wire_fields.specs.Ints.{unsigned_bits, signed_bits};
ghost use Rattle.wire_fields.specs.Bits.{unsigned_bits-suffix, signed_bits-suffix};

use byteorder::ByteOrder;

/// An integer in memory that is read from and written as a number of bytes.
pub trait Number: Copy {
    /// The largest number of bytes.
    ghost WIDTH: { ℕ };

    /// `value_of n b` is the number that `n` bytes with the bits `b` encode.
    ghost value_of: { ℕ → ℕ → Self };

    /// `bits_of n v` is the bits of `v` in `n` bytes, or None if `v` doesn't fit.
    ghost bits_of: { ℕ → Self → Option ℕ };

    /// Reads a number from the first `size` bytes of `buf`.
    fn read<O: ByteOrder>(buf: &[u8], size: usize) -> Self
        requires low { 1 ≤ size }
        requires high { size ≤ WIDTH }
        requires room { size ≤ length buf.now }
        ensures { result ≡ value_of size (O.number_of size buf.now) };

    /// Returns the number's bits in `size` bytes, or None if it doesn't fit.
    fn bits(self, size: usize) -> Option<u128>
        requires low { 1 ≤ size }
        requires high { size ≤ WIDTH }
        ensures { result ≡ bits_of size self };

    /// No number has more than sixteen bytes.
    ghost narrow: { WIDTH ≤ 16 };

    /// A number that fits is read back from its bits.
    ghost bits_back: { (n b : ℕ) (v : Self) → 1 ≤ n → bits_of n v ≡ Some b → (b < 256 ^ n) × (v ≡ value_of n b) };
}

/// A number without a sign.
pub trait Unsigned: Number {}

/// Returns the bits of an unsigned number in `size` bytes, or None if it doesn't fit.
fn unsigned_bits_of(value: u128, size: usize) -> Option<u128>
    requires { size ≤ 16 }
    ensures { result ≡ unsigned_bits size value }
{
    if size == 16 {
        return Some(value);
    }
    if value >= 1u128 << (8 * size) {
        return None;
    }
    Some(value)
}

/// Returns the bits of a signed number in `size` bytes of two's complement, or None if it doesn't fit.
fn signed_bits_of(value: i128, size: usize) -> Option<u128>
    requires low { 1 ≤ size }
    requires high { size ≤ 16 }
    ensures { result ≡ signed_bits size value }
{
    if size == 16 {
        return Some(value.cast_unsigned());
    }
    let half = 1i128 << (8 * size - 1);
    if value < -half || value >= half {
        return None;
    }
    if value < 0 {
        return Some((value + half + half) as u128);
    }
    Some(value as u128)
}

impl Number for u16 {
    ghost WIDTH = { 2 };

    ghost value_of = { λ n b. b };

    ghost bits_of = { unsigned_bits };

    fn read<O: ByteOrder>(buf: &[u8], size: usize) -> u16 {
        O::read_uint(buf, size) as u16
    }

    fn bits(self, size: usize) -> Option<u128> {
        unsigned_bits_of(u128::from(self), size)
    }

    ghost narrow = { Prim.search rules };

    ghost bits_back = { λ n b v h e. unsigned_bits-suffix n b v e };
}

impl Number for i16 {
    ghost WIDTH = { 2 };

    ghost value_of = { twos_complement };

    ghost bits_of = { signed_bits };

    fn read<O: ByteOrder>(buf: &[u8], size: usize) -> i16 {
        O::read_int(buf, size) as i16
    }

    fn bits(self, size: usize) -> Option<u128> {
        signed_bits_of(i128::from(self), size)
    }

    ghost narrow = { Prim.search rules };

    ghost bits_back = { λ n b v h e. signed_bits-suffix n b v h e };
}

impl Number for u32 {
    ghost WIDTH = { 4 };

    ghost value_of = { λ n b. b };

    ghost bits_of = { unsigned_bits };

    fn read<O: ByteOrder>(buf: &[u8], size: usize) -> u32 {
        O::read_uint(buf, size) as u32
    }

    fn bits(self, size: usize) -> Option<u128> {
        unsigned_bits_of(u128::from(self), size)
    }

    ghost narrow = { Prim.search rules };

    ghost bits_back = { λ n b v h e. unsigned_bits-suffix n b v e };
}

impl Number for i32 {
    ghost WIDTH = { 4 };

    ghost value_of = { twos_complement };

    ghost bits_of = { signed_bits };

    fn read<O: ByteOrder>(buf: &[u8], size: usize) -> i32 {
        O::read_int(buf, size) as i32
    }

    fn bits(self, size: usize) -> Option<u128> {
        signed_bits_of(i128::from(self), size)
    }

    ghost narrow = { Prim.search rules };

    ghost bits_back = { λ n b v h e. signed_bits-suffix n b v h e };
}

impl Number for u64 {
    ghost WIDTH = { 8 };

    ghost value_of = { λ n b. b };

    ghost bits_of = { unsigned_bits };

    fn read<O: ByteOrder>(buf: &[u8], size: usize) -> u64 {
        O::read_uint(buf, size)
    }

    fn bits(self, size: usize) -> Option<u128> {
        unsigned_bits_of(u128::from(self), size)
    }

    ghost narrow = { Prim.search rules };

    ghost bits_back = { λ n b v h e. unsigned_bits-suffix n b v e };
}

impl Number for i64 {
    ghost WIDTH = { 8 };

    ghost value_of = { twos_complement };

    ghost bits_of = { signed_bits };

    fn read<O: ByteOrder>(buf: &[u8], size: usize) -> i64 {
        O::read_int(buf, size)
    }

    fn bits(self, size: usize) -> Option<u128> {
        signed_bits_of(i128::from(self), size)
    }

    ghost narrow = { Prim.search rules };

    ghost bits_back = { λ n b v h e. signed_bits-suffix n b v h e };
}

impl Number for u128 {
    ghost WIDTH = { 16 };

    ghost value_of = { λ n b. b };

    ghost bits_of = { unsigned_bits };

    fn read<O: ByteOrder>(buf: &[u8], size: usize) -> u128 {
        O::read_uint128(buf, size)
    }

    fn bits(self, size: usize) -> Option<u128> {
        unsigned_bits_of(self, size)
    }

    ghost narrow = { Prim.search rules };

    ghost bits_back = { λ n b v h e. unsigned_bits-suffix n b v e };
}

impl Number for i128 {
    ghost WIDTH = { 16 };

    ghost value_of = { twos_complement };

    ghost bits_of = { signed_bits };

    fn read<O: ByteOrder>(buf: &[u8], size: usize) -> i128 {
        O::read_int128(buf, size)
    }

    fn bits(self, size: usize) -> Option<u128> {
        signed_bits_of(self, size)
    }

    ghost narrow = { Prim.search rules };

    ghost bits_back = { λ n b v h e. signed_bits-suffix n b v h e };
}

impl Unsigned for u16 {}

impl Unsigned for u32 {}

impl Unsigned for u64 {}

impl Unsigned for u128 {}
