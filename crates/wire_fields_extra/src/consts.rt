//! Constants as their numbers, converted when they are read.

ghost use Rattle.std.specs.Prelude.{◌≡◌, MatchOption};
ghost use Rattle.std.specs.Borrow.{Lends, sem};
ghost use Rattle.wire_fields_extra.specs.contracts.consts.Const.{the_row as const_row};
ghost use Rattle.wire_fields_extra.specs.OverwrittenConsts.{replace_value};
ghost use Rattle.wire_buf.specs.Encoding.{Alone};
ghost use Rattle.wire_fields_extra.specs.Consts.{ConstFails, IsConstant};

use std::alloc::{Allocator, Global};
use std::marker::PhantomData;
use std::ops::{Deref, DerefMut};
use wire_buf::{Inner, MyDeserialize, MySerialize, ParseBuf, WireFault};
use wire_constants::Constant;
use wire_fields::IntRepr;

/// A constant, encoded as its number in the representation `U`. Reading a number that no constant has returns
/// `BadConst`.
#[derive(Drop)]
#[derive_where(PartialEq, Eq, Hash, Debug; T)]
pub struct Const<T, U>(pub T, PhantomData<U>);

impl<T, U> Const<T, U> {
    /// Returns a field that holds `value`.
    pub fn new(value: T) -> Const<T, U>
        ensures { result.0 ≡ value }
    {
        Const(value, PhantomData)
    }
}

impl<T, U> Deref for Const<T, U> {
    type Target = T;

    ghost deref_gives = { λ c value. value ≡ c.0 };

    fn deref(&self) -> &T {
        &self.0
    }
}

impl<T, U> DerefMut for Const<T, U> {
    ghost deref_mut_gives = { λ c value. value ≡ c.0 };

    /// Returns the constant; writing through the reference replaces it.
    fn deref_mut(&mut self) -> &mut T
        ensures* writes_back { sem 𝓛 (Lends (const_row T.row U.row) T.row self.entry result (replace_value self.old)) }
        ensures value { result.now ≡ self.old.0 }
    {
        &mut self.0
    }
}

impl<'de, U: IntRepr, T: Constant<U::Primitive>> MyDeserialize<'de> for Const<T, U>
where
    <T as TryFrom<U::Primitive>>::Error: Drop,
{
    const SIZE: Option<usize> = U::SIZE;

    type Size = U::Size;

    type Ctx = ();

    type Fault = WireFault;

    ghost View = { U.Primitive };

    ghost view = { λ v. T.number v.0 };

    ghost encodes = { λ ctx. IsConstant T.number (Alone U.encodes) };

    ghost fails_with = { λ ctx. ConstFails (λ n. (v : _) → T.number v ≡ n → ⊥) U.encodes U.fault_at };

    fn deserialize(
        _alloc: Global,
        _ctx: (),
        buf: &mut ParseBuf<'de>,
    ) -> Result<Const<T, U>, WireFault> {
        let number = U::deserialize(buf)?;
        let Some(value) = constant_of(number) else {
            return Err(WireFault::BadConst);
        };
        Ok(Const::new(value))
    }

    ghost sized = { λ ctx v bytes rest h. U.sized v bytes h.encoding_is };
}

impl<U: IntRepr, T: Constant<U::Primitive>> MySerialize for Const<T, U> {
    ghost View = { U.Primitive };

    ghost view = { λ v. U.kept (T.number v.0) };

    ghost encoding = { Alone U.encodes };

    ghost encoded = { U.encoded };

    #[tactic(auto, using(wire_buf::proofs::WritingLemmas::writes_field))]
    fn serialize<A: Allocator>(&self, buf: &mut Vec<u8, A>) -> Result<(), WireFault> {
        U::serialize(self.0.to_number(), buf)
    }
}

impl<U: IntRepr, T: Constant<U::Primitive>> Inner for Const<T, U> {
    ghost before_any = { λ rest. tt };
}

/// Returns the constant that has the number, if there is one.
fn constant_of<P, T: Constant<P>>(number: P) -> Option<T>
where
    <T as TryFrom<P>>::Error: Drop,
    ensures { MatchOption result ((v : _) → T.number v ≡ number → ⊥) (λ v. T.number v ≡ number) }
{
    T::try_from(number).ok()
}
