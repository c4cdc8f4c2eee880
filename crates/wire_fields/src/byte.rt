//! Integers of one byte.

ghost use Rattle.wire_buf.specs.Numbers.{IsLittle, IsSignedLittle};
ghost use Rattle.wire_fields.specs.Ints.{little_encoded, signed_little_encoded};

use crate::int_repr::IntRepr;
use std::alloc::Allocator;
use wire_buf::{FixedSize, ParseBuf, WireFault};

impl IntRepr for u8 {
    const SIZE: Option<usize> = Some(1);

    type Size = FixedSize<1>;

    type Primitive = u8;

    ghost encodes = { IsLittle 1 };

    ghost encoded = { little_encoded 1 };

    fn deserialize(buf: &mut ParseBuf<'_>) -> Result<u8, WireFault> {
        Ok(buf.eat_u8())
    }

    fn serialize<A: Allocator>(val: u8, buf: &mut Vec<u8, A>) -> Result<(), WireFault> {
        buf.extend_from_slice(&val.to_le_bytes())?;
        Ok(())
    }

    fn from_bytes(bytes: &[u8]) -> Option<&[u8]> {
        Some(bytes)
    }

    fn as_bytes(numbers: &[u8]) -> Option<&[u8]> {
        Some(numbers)
    }

    ghost sized = { λ v bytes h. h.size };
}

impl IntRepr for i8 {
    const SIZE: Option<usize> = Some(1);

    type Size = FixedSize<1>;

    type Primitive = i8;

    ghost encodes = { IsSignedLittle 1 };

    ghost encoded = { signed_little_encoded 1 };

    fn deserialize(buf: &mut ParseBuf<'_>) -> Result<i8, WireFault> {
        Ok(buf.eat_i8())
    }

    fn serialize<A: Allocator>(val: i8, buf: &mut Vec<u8, A>) -> Result<(), WireFault> {
        buf.extend_from_slice(&val.to_le_bytes())?;
        Ok(())
    }

    ghost sized = { λ v bytes h. h.size };
}
