//! The trait of encodings of integers, and integers as fields.

ghost use Rattle.std.specs.Prelude.{◌≡◌, List, ℕ, length, OnOk, IfOk, IfErr, IfSome, Option};
ghost use Rattle.wire_buf.specs.Encoding.{Reads, Lacks, HasSize, HasRoom, Alone};
ghost use Rattle.wire_buf.specs.Writing.{Writes, WriteFails};
ghost use Rattle.wire_buf.specs.declared.fault.WireFault.TheVariants.{Eof};
ghost use Rattle.wire_buf.specs.declared.fault.WireFault.{WireFault};
ghost use Rattle.std.specs.Borrow.{Lends, sem};
ghost use Rattle.wire_fields.specs.contracts.int_repr.RawInt.{the_row as raw_int_row};
ghost use Rattle.wire_fields.specs.Bytewise.{AreBytewise, AreWrittenBytewise};
ghost use Rattle.wire_fields.specs.Raw.{replace_number};

use std::alloc::{Allocator, Global};
use std::marker::PhantomData;
use std::ops::{Deref, DerefMut};
use wire_buf::{Inner, MyDeserialize, MySerialize, ParseBuf, WireFault, WireSize};

/// An encoding of integers in bytes, as in `mysql_common`.
pub trait IntRepr {
    /// The number of bytes of every integer, or None if it varies. It equals that of `Size`.
    const SIZE: Option<usize>;

    /// The same as a type, for proofs and for generic callers.
    type Size: WireSize;

    /// The type of the integers.
    type Primitive: Copy;

    /// The bytes encode the integer.
    ghost encodes: { Self.Primitive → List ℕ → Type 0 };

    /// The bytes that are written for an integer, or None if the representation can't hold it.
    ghost encoded: { Self.Primitive → Option (List ℕ) };

    /// The part of an integer that is written: all of it, except in the representations of one half.
    ghost kept: { Self.Primitive → Self.Primitive } = { λ v. v };

    /// The error if the bytes begin with no encoded integer: `Eof` if bytes are missing, `BadNumber` if no
    /// further byte would help.
    ghost fault_at: { List ℕ → WireFault } = { λ _. Eof };

    /// Reads the one integer that `buf` begins with. If `SIZE` is given, at least so many bytes must remain.
    /// If no integer is there, returns an error: `Eof` if bytes are missing, else `BadNumber`. How many bytes
    /// an error leaves read isn't specified.
    fn deserialize(buf: &mut ParseBuf<'_>) -> Result<Self::Primitive, WireFault>
        requires { HasRoom Self.Size.SIZE (length buf.old.0.now) }
        ensures ok { IfOk result (λ v. Reads (Alone encodes) v buf.old.0.now buf.new.0.now) }
        ensures err { IfErr result
            (λ e. Lacks (Alone encodes) buf.old.0.now × (e ≡ fault_at buf.old.0.now)) };

    /// Appends the shortest encoding of `val` to `buf`, on the buffer's own allocator. An error leaves `buf`
    /// unchanged.
    ///
    /// - `Memory`: out of memory.
    /// - `Form`: the representation can't hold the integer.
    fn serialize<A: Allocator>(val: Self::Primitive, buf: &mut Vec<u8, A>) -> Result<(), WireFault>
        ensures ok { OnOk result (Writes encoded encodes (kept val) buf.old.items buf.new.items) }
        ensures err { IfErr result (λ e. WriteFails encoded (kept val) e buf.old.items buf.new.items) };

    /// Returns the bytes as integers, one byte each, if each integer of this representation is one byte; else
    /// None.
    fn from_bytes(bytes: &[u8]) -> Option<&[Self::Primitive]>
        ensures { IfSome result (λ numbers. AreBytewise encodes numbers.now bytes.now) }
    {
        let _ = bytes;
        None
    }

    /// Returns the bytes that are written for the integers, one byte each, if each integer of this
    /// representation is one byte; else None.
    fn as_bytes(numbers: &[Self::Primitive]) -> Option<&[u8]>
        ensures { IfSome result (λ bytes. AreWrittenBytewise encoded encodes kept numbers.now bytes.now) }
    {
        let _ = numbers;
        None
    }

    /// Every encoding has the size that `Size` gives.
    ghost sized: { (v : Self.Primitive) (bytes : List ℕ) → encodes v bytes → HasSize Self.Size.SIZE (length bytes) };
}

/// An integer in the representation `T`, as a field: `RawInt<LeU16>` is a `u16` in two little-endian bytes.
#[derive(Drop)]
#[derive_where(PartialEq, Eq, Hash, Debug; T::Primitive)]
pub struct RawInt<T: IntRepr>(pub T::Primitive, PhantomData<T>);

impl<T: IntRepr> RawInt<T> {
    /// Returns a field that holds `value`.
    pub fn new(value: T::Primitive) -> RawInt<T>
        ensures { result.0 ≡ value }
    {
        RawInt(value, PhantomData)
    }
}

impl<T: IntRepr> Deref for RawInt<T> {
    type Target = T::Primitive;

    ghost deref_gives = { λ raw value. value ≡ raw.0 };

    fn deref(&self) -> &T::Primitive {
        &self.0
    }
}

impl<T: IntRepr> DerefMut for RawInt<T> {
    ghost deref_mut_gives = { λ raw value. value ≡ raw.0 };

    /// Returns the integer; writing through the reference replaces it.
    fn deref_mut(&mut self) -> &mut T::Primitive
        ensures* writes_back { sem 𝓛 (Lends (raw_int_row T.row T.Size.row T.Primitive.row) T.Primitive.row self.entry result (replace_number self.old)) }
        ensures value { result.now ≡ self.old.0 }
    {
        &mut self.0
    }
}

impl<'de, T: IntRepr> MyDeserialize<'de> for RawInt<T> {
    const SIZE: Option<usize> = T::SIZE;

    type Size = T::Size;

    type Ctx = ();

    type Fault = WireFault;

    ghost View = { T.Primitive };

    ghost view = { λ v. v.0 };

    ghost encodes = { λ ctx. Alone T.encodes };

    ghost fails_with = { λ ctx x e. Lacks (Alone T.encodes) x × (e ≡ T.fault_at x) };

    fn deserialize(
        _alloc: Global,
        _ctx: (),
        buf: &mut ParseBuf<'de>,
    ) -> Result<RawInt<T>, WireFault> {
        let value = T::deserialize(buf)?;
        Ok(RawInt::new(value))
    }

    ghost sized = { λ ctx v bytes rest h. T.sized v bytes h };
}

impl<T: IntRepr> MySerialize for RawInt<T> {
    ghost View = { T.Primitive };

    ghost view = { λ v. T.kept v.0 };

    ghost encoding = { Alone T.encodes };

    ghost encoded = { T.encoded };

    #[tactic(auto, using(wire_buf::proofs::WritingLemmas::writes_field))]
    fn serialize<A: Allocator>(&self, buf: &mut Vec<u8, A>) -> Result<(), WireFault> {
        T::serialize(self.0, buf)
    }
}

impl<T: IntRepr> Inner for RawInt<T> {
    ghost before_any = { λ rest. tt };
}
