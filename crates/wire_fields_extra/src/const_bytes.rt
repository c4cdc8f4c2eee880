//! Fields whose bytes are constant.

ghost use Rattle.std.specs.Prelude.{◌≡◌, ◌≢◌, ◌↔◌, ℕ, List, length, IsTrue, Some};
ghost use Rattle.byteorder.specs.Endian.{little_bytes};
ghost use Rattle.wire_buf.specs.Encoding.{Alone, IsBytes};
ghost use Rattle.wire_fields_extra.specs.Consts.{ConstFails};
ghost use Rattle.wire_buf.specs.Numbers.{IsLittle};
ghost use Rattle.wire_buf.specs.declared.fault.WireFault.TheVariants.{Eof};

use std::alloc::{Allocator, Global};
use std::marker::PhantomData;
use wire_buf::{FixedSize, Inner, MyDeserialize, MySerialize, ParseBuf, WireFault};

/// The byte `VALUE`. Reading another byte returns `BadConst`. `T` distinguishes such fields.
#[derive(Drop)]
#[derive_where(PartialEq, Eq, Debug)]
pub struct ConstU8<T, const VALUE: u8>(PhantomData<T>);

impl<T, const VALUE: u8> ConstU8<T, VALUE> {
    /// The field.
    pub const fn new() -> ConstU8<T, VALUE> {
        ConstU8(PhantomData)
    }

    /// Returns the byte.
    pub const fn value(&self) -> u8
        ensures { result ≡ VALUE }
    {
        VALUE
    }
}

impl<'de, T, const VALUE: u8> MyDeserialize<'de> for ConstU8<T, VALUE> {
    const SIZE: Option<usize> = Some(1);

    type Size = FixedSize<1>;

    type Ctx = ();

    type Fault = WireFault;

    ghost View = { Unit {0} };

    ghost view = { λ v. tt };

    ghost encodes = { λ ctx v. Alone (IsLittle 1) VALUE };

    ghost fails_with = { λ ctx. ConstFails (λ n. n ≢ VALUE) (IsLittle 1) (λ x. Eof) };

    fn deserialize(
        _alloc: Global,
        _ctx: (),
        buf: &mut ParseBuf<'de>,
    ) -> Result<ConstU8<T, VALUE>, WireFault> {
        if buf.eat_u8() != VALUE {
            return Err(WireFault::BadConst);
        }
        Ok(ConstU8::new())
    }

    ghost sized = { λ ctx v bytes rest h. h.size };
}

impl<T, const VALUE: u8> MySerialize for ConstU8<T, VALUE> {
    ghost View = { Unit {0} };

    ghost view = { λ v. tt };

    ghost encoding = { λ v. Alone (IsLittle 1) VALUE };

    ghost encoded = { λ v. Some (little_bytes 1 VALUE) };

    #[tactic(auto, using(crate::proofs::ConstLemmas::number_written))]
    fn serialize<A: Allocator>(&self, buf: &mut Vec<u8, A>) -> Result<(), WireFault> {
        buf.extend_from_slice(&VALUE.to_le_bytes())?;
        Ok(())
    }
}

impl<T, const VALUE: u8> Inner for ConstU8<T, VALUE> {
    ghost before_any = { λ rest. tt };
}

/// The four little-endian bytes of `VALUE`. Reading other bytes returns `BadConst`. `T` distinguishes such
/// fields.
#[derive(Drop)]
#[derive_where(PartialEq, Eq, Debug)]
pub struct ConstU32<T, const VALUE: u32>(PhantomData<T>);

impl<T, const VALUE: u32> ConstU32<T, VALUE> {
    /// The field.
    pub const fn new() -> ConstU32<T, VALUE> {
        ConstU32(PhantomData)
    }
}

impl<'de, T, const VALUE: u32> MyDeserialize<'de> for ConstU32<T, VALUE> {
    const SIZE: Option<usize> = Some(4);

    type Size = FixedSize<4>;

    type Ctx = ();

    type Fault = WireFault;

    ghost View = { Unit {0} };

    ghost view = { λ v. tt };

    ghost encodes = { λ ctx v. Alone (IsLittle 4) VALUE };

    ghost fails_with = { λ ctx. ConstFails (λ n. n ≢ VALUE) (IsLittle 4) (λ x. Eof) };

    fn deserialize(
        _alloc: Global,
        _ctx: (),
        buf: &mut ParseBuf<'de>,
    ) -> Result<ConstU32<T, VALUE>, WireFault> {
        if buf.eat_u32_le() != VALUE {
            return Err(WireFault::BadConst);
        }
        Ok(ConstU32::new())
    }

    ghost sized = { λ ctx v bytes rest h. h.size };
}

impl<T, const VALUE: u32> MySerialize for ConstU32<T, VALUE> {
    ghost View = { Unit {0} };

    ghost view = { λ v. tt };

    ghost encoding = { λ v. Alone (IsLittle 4) VALUE };

    ghost encoded = { λ v. Some (little_bytes 4 VALUE) };

    #[tactic(auto, using(crate::proofs::ConstLemmas::number_written))]
    fn serialize<A: Allocator>(&self, buf: &mut Vec<u8, A>) -> Result<(), WireFault> {
        buf.extend_from_slice(&VALUE.to_le_bytes())?;
        Ok(())
    }
}

impl<T, const VALUE: u32> Inner for ConstU32<T, VALUE> {
    ghost before_any = { λ rest. tt };
}

/// The bytes of a constant field.
pub trait ConstBytesValue<const LEN: usize> {
    /// The bytes.
    ghost bytes: { List ℕ };

    /// Returns the bytes of the field.
    fn value<'a>() -> &'a [u8]
        ensures value { result.now ≡ bytes }
        ensures size { length result.now ≡ LEN };
}

/// Exactly the bytes of `T`. Reading other bytes returns `BadConst`.
#[derive(Drop)]
#[derive_where(PartialEq, Eq, Debug)]
pub struct ConstBytes<T, const LEN: usize>(PhantomData<T>);

impl<T, const LEN: usize> ConstBytes<T, LEN> {
    /// The field.
    pub const fn new() -> ConstBytes<T, LEN> {
        ConstBytes(PhantomData)
    }
}

impl<'de, T: ConstBytesValue<LEN>, const LEN: usize> MyDeserialize<'de> for ConstBytes<T, LEN> {
    const SIZE: Option<usize> = Some(LEN);

    type Size = FixedSize<LEN>;

    type Ctx = ();

    type Fault = WireFault;

    ghost View = { Unit {0} };

    ghost view = { λ v. tt };

    ghost encodes = { λ ctx v. Alone (IsBytes LEN) T.bytes };

    ghost fails_with = { λ ctx. ConstFails (λ bytes. bytes ≢ T.bytes) (IsBytes LEN) (λ x. Eof) };

    fn deserialize(
        _alloc: Global,
        _ctx: (),
        buf: &mut ParseBuf<'de>,
    ) -> Result<ConstBytes<T, LEN>, WireFault> {
        if !are_equal(buf.eat(LEN), T::value()) {
            return Err(WireFault::BadConst);
        }
        Ok(ConstBytes::new())
    }

    ghost sized = { λ ctx v bytes rest h. h.size };
}

impl<T: ConstBytesValue<LEN>, const LEN: usize> MySerialize for ConstBytes<T, LEN> {
    ghost View = { Unit {0} };

    ghost view = { λ v. tt };

    ghost encoding = { λ v. Alone (IsBytes LEN) T.bytes };

    ghost encoded = { λ v. Some T.bytes };

    #[tactic(auto, using(crate::proofs::ConstLemmas::constant_written))]
    fn serialize<A: Allocator>(&self, buf: &mut Vec<u8, A>) -> Result<(), WireFault> {
        buf.extend_from_slice(T::value())?;
        Ok(())
    }
}

impl<T: ConstBytesValue<LEN>, const LEN: usize> Inner for ConstBytes<T, LEN> {
    ghost before_any = { λ rest. tt };
}

/// Returns whether the bytes are equal.
fn are_equal(left: &[u8], right: &[u8]) -> bool
    ensures { IsTrue result ↔ (left.now ≡ right.now) }
{
    left == right
}
