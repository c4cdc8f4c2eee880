//! Integers of a fixed number of bytes, little-endian or big-endian. Writing an integer that doesn't fit
//! returns `Form`.

ghost use Rattle.std.specs.Prelude.{◌≤◌, option_map};
ghost use Rattle.std.proofs.Common.{arith, rules};
ghost use Rattle.wire_buf.specs.Encoding.{IsFixed};

use crate::int_repr::IntRepr;
use crate::number::Number;
use byteorder::{BigEndian, ByteOrder, LittleEndian};
use std::alloc::Allocator;
use std::marker::PhantomData;
use wire_buf::{FixedSize, ParseBuf, WireFault};

/// A number that can be encoded in `N` bytes.
pub trait InBytes<const N: usize>: Number {
    /// `N` is at least 1 and at most the number's width.
    ghost in_range: { (1 ≤ N) × (N ≤ Self.WIDTH) };
}

/// A number of type `P` in `N` bytes of byte order `O`; two's complement if it is signed.
pub struct Fixed<P, O, const N: usize>(PhantomData<P>, PhantomData<O>);

impl<P: InBytes<N>, O: ByteOrder, const N: usize> IntRepr for Fixed<P, O, N> {
    const SIZE: Option<usize> = Some(N);

    type Size = FixedSize<N>;

    type Primitive = P;

    ghost encodes = { IsFixed (λ bytes. P.value_of N (O.number_of N bytes)) N };

    ghost encoded = { λ v. option_map (O.bytes_of N) (P.bits_of N v) };

    fn deserialize(buf: &mut ParseBuf<'_>) -> Result<P, WireFault> {
        let value = P::read::<O>(buf.0, N);
        buf.skip(N);
        Ok(value)
    }

    fn serialize<A: Allocator>(val: P, buf: &mut Vec<u8, A>) -> Result<(), WireFault> {
        let Some(bits) = val.bits(N) else {
            return Err(WireFault::Form);
        };
        let mut bytes = [0u8; N];
        O::write_uint128(&mut bytes, bits, N);
        buf.extend_from_slice(&bytes)?;
        Ok(())
    }

    ghost sized = { λ v bytes h. h.size };
}

impl InBytes<2> for u16 {
    ghost in_range = { (Prim.search rules, Prim.search rules) };
}

impl InBytes<2> for i16 {
    ghost in_range = { (Prim.search rules, Prim.search rules) };
}

impl InBytes<3> for u32 {
    ghost in_range = { (Prim.search rules, Prim.search rules) };
}

impl InBytes<3> for i32 {
    ghost in_range = { (Prim.search rules, Prim.search rules) };
}

impl InBytes<4> for u32 {
    ghost in_range = { (Prim.search rules, Prim.search rules) };
}

impl InBytes<4> for i32 {
    ghost in_range = { (Prim.search rules, Prim.search rules) };
}

impl InBytes<5> for u64 {
    ghost in_range = { (Prim.search rules, Prim.search rules) };
}

impl InBytes<5> for i64 {
    ghost in_range = { (Prim.search rules, Prim.search rules) };
}

impl InBytes<6> for u64 {
    ghost in_range = { (Prim.search rules, Prim.search rules) };
}

impl InBytes<6> for i64 {
    ghost in_range = { (Prim.search rules, Prim.search rules) };
}

impl InBytes<7> for u64 {
    ghost in_range = { (Prim.search rules, Prim.search rules) };
}

impl InBytes<7> for i64 {
    ghost in_range = { (Prim.search rules, Prim.search rules) };
}

impl InBytes<8> for u64 {
    ghost in_range = { (Prim.search rules, Prim.search rules) };
}

impl InBytes<8> for i64 {
    ghost in_range = { (Prim.search rules, Prim.search rules) };
}

impl InBytes<16> for u128 {
    ghost in_range = { (Prim.search rules, Prim.search rules) };
}

impl InBytes<16> for i128 {
    ghost in_range = { (Prim.search rules, Prim.search rules) };
}

/// An unsigned 2-byte little-endian integer.
pub type LeU16 = Fixed<u16, LittleEndian, 2>;

/// A signed 2-byte little-endian integer.
pub type LeI16 = Fixed<i16, LittleEndian, 2>;

/// An unsigned 3-byte little-endian integer.
pub type LeU24 = Fixed<u32, LittleEndian, 3>;

/// A signed 3-byte little-endian integer.
pub type LeI24 = Fixed<i32, LittleEndian, 3>;

/// An unsigned 4-byte little-endian integer.
pub type LeU32 = Fixed<u32, LittleEndian, 4>;

/// A signed 4-byte little-endian integer.
pub type LeI32 = Fixed<i32, LittleEndian, 4>;

/// An unsigned 5-byte little-endian integer.
pub type LeU40 = Fixed<u64, LittleEndian, 5>;

/// A signed 5-byte little-endian integer.
pub type LeI40 = Fixed<i64, LittleEndian, 5>;

/// An unsigned 6-byte little-endian integer.
pub type LeU48 = Fixed<u64, LittleEndian, 6>;

/// A signed 6-byte little-endian integer.
pub type LeI48 = Fixed<i64, LittleEndian, 6>;

/// An unsigned 7-byte little-endian integer.
pub type LeU56 = Fixed<u64, LittleEndian, 7>;

/// A signed 7-byte little-endian integer.
pub type LeI56 = Fixed<i64, LittleEndian, 7>;

/// An unsigned 8-byte little-endian integer.
pub type LeU64 = Fixed<u64, LittleEndian, 8>;

/// A signed 8-byte little-endian integer.
pub type LeI64 = Fixed<i64, LittleEndian, 8>;

/// An unsigned 16-byte little-endian integer.
pub type LeU128 = Fixed<u128, LittleEndian, 16>;

/// A signed 16-byte little-endian integer.
pub type LeI128 = Fixed<i128, LittleEndian, 16>;

/// An unsigned 2-byte big-endian integer.
pub type BeU16 = Fixed<u16, BigEndian, 2>;

/// A signed 2-byte big-endian integer.
pub type BeI16 = Fixed<i16, BigEndian, 2>;

/// An unsigned 3-byte big-endian integer.
pub type BeU24 = Fixed<u32, BigEndian, 3>;

/// A signed 3-byte big-endian integer.
pub type BeI24 = Fixed<i32, BigEndian, 3>;

/// An unsigned 4-byte big-endian integer.
pub type BeU32 = Fixed<u32, BigEndian, 4>;

/// A signed 4-byte big-endian integer.
pub type BeI32 = Fixed<i32, BigEndian, 4>;

/// An unsigned 5-byte big-endian integer.
pub type BeU40 = Fixed<u64, BigEndian, 5>;

/// A signed 5-byte big-endian integer.
pub type BeI40 = Fixed<i64, BigEndian, 5>;

/// An unsigned 6-byte big-endian integer.
pub type BeU48 = Fixed<u64, BigEndian, 6>;

/// A signed 6-byte big-endian integer.
pub type BeI48 = Fixed<i64, BigEndian, 6>;

/// An unsigned 7-byte big-endian integer.
pub type BeU56 = Fixed<u64, BigEndian, 7>;

/// A signed 7-byte big-endian integer.
pub type BeI56 = Fixed<i64, BigEndian, 7>;

/// An unsigned 8-byte big-endian integer.
pub type BeU64 = Fixed<u64, BigEndian, 8>;

/// A signed 8-byte big-endian integer.
pub type BeI64 = Fixed<i64, BigEndian, 8>;

/// An unsigned 16-byte big-endian integer.
pub type BeU128 = Fixed<u128, BigEndian, 16>;

/// A signed 16-byte big-endian integer.
pub type BeI128 = Fixed<i128, BigEndian, 16>;
