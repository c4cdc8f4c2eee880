//! Constants as their raw numbers.

ghost use Rattle.std.specs.Prelude.{◌≡◌};
ghost use Rattle.std.specs.Borrow.{Lends, sem};
ghost use Rattle.wire_fields.specs.contracts.consts.RawConst.{the_row as raw_const_row};
ghost use Rattle.wire_fields.specs.OverwrittenRawConsts.{replace_raw_number};
ghost use Rattle.wire_buf.specs.Encoding.{Alone, Lacks};

use crate::IntRepr;
use std::alloc::{Allocator, Global};
use std::marker::PhantomData;
use std::ops::{Deref, DerefMut};
use wire_buf::{Inner, MyDeserialize, MySerialize, ParseBuf, WireFault};

/// A number in the representation `T`, for a constant of type `U`. It may be one that no constant has.
#[derive(Drop)]
#[derive_where(PartialEq, Eq, Hash, Debug; T::Primitive)]
pub struct RawConst<T: IntRepr, U>(pub T::Primitive, PhantomData<U>);

impl<T: IntRepr, U> RawConst<T, U> {
    /// Returns a field that holds `number`.
    pub fn new(number: T::Primitive) -> RawConst<T, U>
        ensures { result.0 ≡ number }
    {
        RawConst(number, PhantomData)
    }

    /// Returns the constant that has the number, or the error of `U`.
    pub fn get(&self) -> Result<U, U::Error>
    where
        U: TryFrom<T::Primitive>,
        ensures { U.try_from_gives self.now.0 result }
    {
        U::try_from(self.0)
    }
}

impl<T: IntRepr, U> Deref for RawConst<T, U> {
    type Target = T::Primitive;

    ghost deref_gives = { λ raw number. number ≡ raw.0 };

    fn deref(&self) -> &T::Primitive {
        &self.0
    }
}

impl<T: IntRepr, U> DerefMut for RawConst<T, U> {
    ghost deref_mut_gives = { λ raw number. number ≡ raw.0 };

    /// Returns the number; writing through the reference replaces it.
    fn deref_mut(&mut self) -> &mut T::Primitive
        ensures* writes_back { sem 𝓛 (Lends (raw_const_row T.row U.row T.Size.row T.Primitive.row) T.Primitive.row self.entry result (replace_raw_number self.old)) }
        ensures value { result.now ≡ self.old.0 }
    {
        &mut self.0
    }
}

impl<'de, T: IntRepr, U> MyDeserialize<'de> for RawConst<T, U> {
    const SIZE: Option<usize> = T::SIZE;

    type Size = T::Size;

    type Ctx = ();

    type Fault = WireFault;

    ghost View = { T.Primitive };

    ghost view = { λ v. v.0 };

    ghost encodes = { λ ctx. Alone T.encodes };

    ghost fails_with = { λ ctx x e. Lacks (Alone T.encodes) x × (e ≡ T.fault_at x) };

    fn deserialize(
        _alloc: Global,
        _ctx: (),
        buf: &mut ParseBuf<'de>,
    ) -> Result<RawConst<T, U>, WireFault> {
        let number = T::deserialize(buf)?;
        Ok(RawConst::new(number))
    }

    ghost sized = { λ ctx v bytes rest h. T.sized v bytes h };
}

impl<T: IntRepr, U> MySerialize for RawConst<T, U> {
    ghost View = { T.Primitive };

    ghost view = { λ v. T.kept v.0 };

    ghost encoding = { Alone T.encodes };

    ghost encoded = { T.encoded };

    #[tactic(auto, using(wire_buf::proofs::WritingLemmas::writes_field))]
    fn serialize<A: Allocator>(&self, buf: &mut Vec<u8, A>) -> Result<(), WireFault> {
        T::serialize(self.0, buf)
    }
}

impl<T: IntRepr, U> Inner for RawConst<T, U> {
    ghost before_any = { λ rest. tt };
}
