//! The trait of encodings of byte strings.

ghost use Rattle.std.specs.Prelude.{◌≡◌, ⊤, List, ℕ, length, OnOk, IfOk, IfErr, Some};
ghost use Rattle.std.specs.Cow.{cow_slice_items, IsBorrowedSlice};
ghost use Rattle.wire_buf.specs.Encoding.{Reads, Lacks, HasSize, HasRoom};
ghost use Rattle.wire_buf.specs.declared.fault.WireFault.{WireFault};
ghost use Rattle.wire_buf.specs.declared.fault.WireFault.TheVariants.{Eof, Memory};
ghost use Rattle.wire_buf.specs.Writing.{WritesField};

use std::alloc::Allocator;
use std::borrow::CowSlice;
use wire_buf::{ParseBuf, WireFault, WireSize};

/// An encoding of byte strings, as in `mysql_common`.
pub trait BytesRepr {
    /// The number of bytes of every encoded string, or None if it varies. It equals that of `Size`.
    const SIZE: Option<usize>;

    /// The same as a type, for proofs and for generic callers.
    type Size: WireSize;

    /// What the reader has to know beforehand, such as a length.
    type Ctx: Drop;

    /// In this context, these bytes followed by that rest encode the string.
    ghost encodes: { Self.Ctx → List ℕ → List ℕ → List ℕ → Type 0 };

    /// The string that is written: the string itself, or the string truncated or padded.
    ghost kept: { List ℕ → List ℕ } = { λ v. v };

    /// The bytes that are written for what `kept` gives.
    ghost encoded: { List ℕ → List ℕ } = { λ v. v };

    /// The only context in which a string is read: its length, or nothing.
    ghost context: { List ℕ → Self.Ctx };

    /// The bytes that may follow so that the written bytes encode the string.
    ghost allows_rest: { List ℕ → Type 0 } = { λ rest. ⊤ };

    /// The errors at bytes that begin with no encoded string: `Eof` if bytes are missing.
    ghost is_fault: { List ℕ → WireFault → Type 0 } = { λ x fault. fault ≡ Eof };

    /// Reads the one string that `buf` begins with, as a part of the source. If `SIZE` is given, at least so
    /// many bytes must remain. Returns an error exactly if `buf` begins with no encoded string; how many
    /// bytes that leaves read isn't specified.
    fn deserialize<'de>(
        ctx: Self::Ctx,
        buf: &mut ParseBuf<'de>,
    ) -> Result<CowSlice<'de, u8>, WireFault>
        requires { HasRoom Self.Size.SIZE (length buf.old.0.now) }
        ensures ok { IfOk result
            (λ v. Reads (encodes ctx) (cow_slice_items v) buf.old.0.now buf.new.0.now) }
        ensures borrowed { IfOk result (λ v. IsBorrowedSlice v) }
        ensures err { IfErr result
            (λ e. Lacks (encodes ctx) buf.old.0.now × is_fault buf.old.0.now e) };

    /// Appends the shortest encoding of `kept` of `text`, on the buffer's own allocator. The only error is
    /// `Memory`, which leaves `buf` unchanged.
    fn serialize<A: Allocator>(text: &[u8], buf: &mut Vec<u8, A>) -> Result<(), WireFault>
        ensures ok { OnOk result (WritesField (λ v. Some (encoded v)) (λ v. encodes (context v) v) allows_rest
            (kept text.now) buf.old.items buf.new.items) }
        ensures err { IfErr result (λ e. (e ≡ Memory) × (buf.new.items ≡ buf.old.items)) };

    /// Every encoding has the size that `Size` gives.
    ghost sized: { (ctx : Self.Ctx) (v bytes rest : List ℕ) → encodes ctx v bytes rest → HasSize Self.Size.SIZE (length bytes) };

    /// A string is encoded in its own context only.
    ghost one_context: { (ctx : Self.Ctx) (v bytes rest : List ℕ) → encodes ctx v bytes rest → ctx ≡ context v };
}

/// A representation whose strings others may follow: all but `EofBytes`.
pub trait InnerBytes: BytesRepr {
    ghost before_any: { (rest : List ℕ) → Self.allows_rest rest };
}
