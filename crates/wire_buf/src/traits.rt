//! The traits of values that are encoded in bytes.

ghost use Rattle.std.specs.Prelude.{◌≡◌, ◌⊎◌, ⊤, List, ℕ, length, OnOk, IfOk, IfErr, Option, Some, None};
ghost use Rattle.wire_buf.specs.Encoding.{Reads, Lacks, HasSize, HasRoom};
ghost use Rattle.wire_buf.specs.Writing.{WritesField, WriteFails};
ghost use Rattle.wire_buf.specs.declared.fault.WireFault.TheVariants.{Memory};

use crate::fault::WireFault;
use crate::parse_buf::ParseBuf;
use std::alloc::{Allocator, Global};

/// The size of a type's encoding, as a type: proofs can't see the constant `SIZE` of an impl for a type with
/// a lifetime.
pub trait WireSize {
    /// The number of bytes, or None if it varies.
    const SIZE: Option<usize>;

    ghost SIZE: { Option ℕ };
}

/// Always N bytes.
pub struct FixedSize<const N: usize>;

/// A number of bytes that depends on the value and its context.
pub struct AnySize;

impl<const N: usize> WireSize for FixedSize<N> {
    const SIZE: Option<usize> = Some(N);

    ghost SIZE = { Some N };
}

impl WireSize for AnySize {
    const SIZE: Option<usize> = None;

    ghost SIZE = { None };
}

/// The error of reading a field: out of memory, or what is wrong with the bytes.
pub trait FieldFault: From<WireFault> {
    /// The error is out of memory.
    ghost is_memory: { Self → Type 0 };

    /// An error made from `WireFault::Memory` is out of memory.
    ghost from_memory: { (f : Self) → Self.from_gives Memory f → is_memory f };
}

impl FieldFault for WireFault {
    ghost is_memory = { λ e. e ≡ Memory };

    ghost from_memory = { λ f h. h };
}

/// A value that is read from bytes, as in `mysql_common`.
///
/// `deserialize` reads the one value that the bytes begin with, or returns an error if they begin with none
/// or if it is out of memory. The type's `fails_with` says which error comes when. How many bytes an error
/// leaves read isn't specified; [`ParseBuf::parse`] specifies it for types with a `SIZE`.
///
/// A pair of fields is a field: the first, then the second. So one call reads the fields of a packet or an
/// event, as nested pairs.
pub trait MyDeserialize<'de>: Sized {
    /// The number of bytes of every value, or None if it varies. It equals that of `Size`.
    const SIZE: Option<usize>;

    /// The same as a type, for proofs and for generic callers.
    type Size: WireSize;

    /// What the reader has to know beforehand, such as a length.
    type Ctx: Drop;

    /// The error of `deserialize`.
    type Fault: FieldFault;

    /// What a value is, wherever its bytes are stored: a number, a list of bytes, a record of such.
    ghost View: { Type 0 };

    ghost view: { Self → View };

    /// In this context, these bytes followed by that rest encode the view.
    ghost encodes: { Self.Ctx → View → List ℕ → List ℕ → Type 0 };

    /// In this context, reading from these bytes may return this error.
    ghost fails_with: { Self.Ctx → List ℕ → Self.Fault → Type 0 };

    /// Reads the value at the start of `buf`. If `SIZE` is given, at least so many bytes must remain.
    fn deserialize(
        alloc: Global,
        ctx: Self::Ctx,
        buf: &mut ParseBuf<'de>,
    ) -> Result<Self, Self::Fault>
        requires { HasRoom Self.Size.SIZE (length buf.old.0.now) }
        ensures ok { IfOk result (λ v. Reads (encodes ctx) (view v) buf.old.0.now buf.new.0.now) }
        ensures err { IfErr result (λ e. Self.Fault.is_memory e ⊎ Lacks (encodes ctx) buf.old.0.now) }
        ensures why { IfErr result (λ e. fails_with ctx buf.old.0.now e) };

    /// Every encoding has the size that `Size` gives.
    ghost sized: { (ctx : Self.Ctx) (v : View) (bytes rest : List ℕ) → encodes ctx v bytes rest → HasSize Self.Size.SIZE (length bytes) };
}

/// A value that is written as bytes, as in `mysql_common`.
pub trait MySerialize {
    /// The part of a value that is written.
    ghost View: { Type 0 };

    ghost view: { Self → View };

    /// These bytes followed by that rest encode the view.
    ghost encoding: { View → List ℕ → List ℕ → Type 0 };

    /// The bytes that are written, or None if the encoding can't hold the view.
    ghost encoded: { View → Option (List ℕ) };

    /// The bytes that may follow so that the written bytes encode the view.
    ghost allows_rest: { List ℕ → Type 0 } = { λ rest. ⊤ };

    /// Appends the value's shortest encoding to `buf`, on the buffer's own allocator. An error leaves `buf`
    /// unchanged.
    ///
    /// - `Memory`: out of memory.
    /// - `Form`: the encoding can't hold the value.
    fn serialize<A: Allocator>(&self, buf: &mut Vec<u8, A>) -> Result<(), WireFault>
        ensures ok { OnOk result
            (WritesField encoded encoding allows_rest (view self.now) buf.old.items buf.new.items) }
        ensures err { IfErr result
            (λ e. WriteFails encoded (view self.now) e buf.old.items buf.new.items) };
}

/// A field that others may follow: the bytes written for it encode it whatever follows.
pub trait Inner: MySerialize {
    ghost before_any: { (rest : List ℕ) → Self.allows_rest rest };
}
