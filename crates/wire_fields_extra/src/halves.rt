//! The two halves of a 32-bit integer, each in two bytes. A handshake packet sends its capability flags this
//! way, the lower half before the upper.

ghost use Rattle.wire_buf.specs.Numbers.{IsLittle};
ghost use Rattle.wire_fields.specs.Ints.{little_encoded, lower_half, upper_half, upper_half_encoded, IsUpperHalf};

use std::alloc::Allocator;
use wire_buf::{FixedSize, ParseBuf, WireFault};
use wire_fields::IntRepr;

/// The lower half of a `u32` in two bytes. Reading gives a zero upper half; writing drops the upper half.
pub struct LeU32LowerHalf;

impl IntRepr for LeU32LowerHalf {
    const SIZE: Option<usize> = Some(2);

    type Size = FixedSize<2>;

    type Primitive = u32;

    ghost encodes = { IsLittle 2 };

    ghost encoded = { little_encoded 2 };

    ghost kept = { lower_half };

    fn deserialize(buf: &mut ParseBuf<'_>) -> Result<u32, WireFault> {
        Ok(u32::from(buf.eat_u16_le()))
    }

    fn serialize<A: Allocator>(val: u32, buf: &mut Vec<u8, A>) -> Result<(), WireFault> {
        buf.extend_from_slice(&val.to_le_bytes()[..2])?;
        Ok(())
    }

    ghost sized = { λ v bytes h. h.size };
}

/// The upper half of a `u32` in two bytes. Reading gives a zero lower half; writing drops the lower half.
pub struct LeU32UpperHalf;

impl IntRepr for LeU32UpperHalf {
    const SIZE: Option<usize> = Some(2);

    type Size = FixedSize<2>;

    type Primitive = u32;

    ghost encodes = { IsUpperHalf };

    ghost encoded = { upper_half_encoded };

    ghost kept = { upper_half };

    fn deserialize(buf: &mut ParseBuf<'_>) -> Result<u32, WireFault> {
        Ok(u32::from(buf.eat_u16_le()) << 16)
    }

    fn serialize<A: Allocator>(val: u32, buf: &mut Vec<u8, A>) -> Result<(), WireFault> {
        buf.extend_from_slice(&val.to_le_bytes()[2..])?;
        Ok(())
    }

    ghost sized = { λ v bytes h. h.size };
}
