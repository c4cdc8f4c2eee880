//! Sets of flags as fields.

ghost use Rattle.std.specs.Prelude.{◌≡◌};
ghost use Rattle.std.specs.Int.RustNames.{bit_and};
ghost use Rattle.bitflags.specs.Sets.{known_bits};
ghost use Rattle.wire_buf.specs.Encoding.{Alone, Lacks};

use crate::IntRepr;
use bitflags::Flags;
use std::alloc::{Allocator, Global};
use std::marker::PhantomData;
use wire_buf::{Inner, MyDeserialize, MySerialize, ParseBuf, WireFault};

/// A set of flags as a number in the representation `U`. Bits that no flag of `T` has are kept.
#[derive(Drop)]
#[derive_where(PartialEq, Eq, Hash, Debug; U::Primitive)]
pub struct RawFlags<T: Flags, U: IntRepr>(pub U::Primitive, PhantomData<T>);

impl<T: Flags, U: IntRepr> RawFlags<T, U> {
    /// Returns a field that holds `bits`.
    pub fn new(bits: U::Primitive) -> RawFlags<T, U>
        ensures { result.0 ≡ bits }
    {
        RawFlags(bits, PhantomData)
    }
}

impl<T: Flags<Bits = U::Primitive>, U: IntRepr> RawFlags<T, U> {
    /// Returns the set of the known flags; other bits are dropped.
    pub fn get(&self) -> T
        ensures { T.exact → T.set_of result ≡ bit_and (U.Primitive.pattern self.now.0) (known_bits T.table) }
    {
        T::from_bits_truncate(self.0)
    }
}

impl<'de, T: Flags, U: IntRepr> MyDeserialize<'de> for RawFlags<T, U> {
    const SIZE: Option<usize> = U::SIZE;

    type Size = U::Size;

    type Ctx = ();

    type Fault = WireFault;

    ghost View = { U.Primitive };

    ghost view = { λ v. v.0 };

    ghost encodes = { λ ctx. Alone U.encodes };

    ghost fails_with = { λ ctx x e. Lacks (Alone U.encodes) x × (e ≡ U.fault_at x) };

    fn deserialize(
        _alloc: Global,
        _ctx: (),
        buf: &mut ParseBuf<'de>,
    ) -> Result<RawFlags<T, U>, WireFault> {
        let bits = U::deserialize(buf)?;
        Ok(RawFlags::new(bits))
    }

    ghost sized = { λ ctx v bytes rest h. U.sized v bytes h };
}

impl<T: Flags, U: IntRepr> MySerialize for RawFlags<T, U> {
    ghost View = { U.Primitive };

    ghost view = { λ v. U.kept v.0 };

    ghost encoding = { Alone U.encodes };

    ghost encoded = { U.encoded };

    #[tactic(auto, using(wire_buf::proofs::WritingLemmas::writes_field))]
    fn serialize<A: Allocator>(&self, buf: &mut Vec<u8, A>) -> Result<(), WireFault> {
        U::serialize(self.0, buf)
    }
}

impl<T: Flags, U: IntRepr> Inner for RawFlags<T, U> {
    ghost before_any = { λ rest. tt };
}
