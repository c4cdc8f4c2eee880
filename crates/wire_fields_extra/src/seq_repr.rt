//! The trait of encodings of counts.

ghost use Rattle.std.specs.Prelude.{◌≡◌, ◌≤◌, ⊤, List, ℕ, OnOk, IfOk, IfErr, Some};
ghost use Rattle.wire_buf.specs.Encoding.{Reads, Lacks, Alone};
ghost use Rattle.wire_buf.specs.declared.fault.WireFault.TheVariants.{Eof, Memory};
ghost use Rattle.wire_buf.specs.Writing.{WritesField};

use std::alloc::Allocator;
use wire_buf::{ParseBuf, WireFault};

/// An encoding of the number of elements of a sequence, as in `mysql_common`.
pub trait SeqRepr {
    /// The largest number of elements that is written.
    const MAX_LEN: usize;

    ghost MAX_LEN: { ℕ };

    /// What the reader has to know beforehand, such as the number of elements.
    type Ctx: Drop;

    /// In this context, these bytes encode the number.
    ghost counts: { Self.Ctx → ℕ → List ℕ → Type 0 };

    /// The bytes that are written for a number.
    ghost count_encoded: { ℕ → List ℕ };

    /// The only context in which a number is read: the number itself, or nothing.
    ghost context: { ℕ → Self.Ctx };

    /// Reads the number of elements. Returns `Eof` exactly if the bytes begin with none.
    fn read_count(ctx: Self::Ctx, buf: &mut ParseBuf<'_>) -> Result<usize, WireFault>
        ensures ok { IfOk result
            (λ count. Reads (Alone (counts ctx)) count buf.old.0.now buf.new.0.now) }
        ensures err { IfErr result
            (λ e. Lacks (Alone (counts ctx)) buf.old.0.now × (e ≡ Eof)) };

    /// Appends the number of elements, at most `MAX_LEN`, in the fewest bytes. The only error is `Memory`,
    /// which leaves `buf` unchanged.
    fn write_count<A: Allocator>(count: usize, buf: &mut Vec<u8, A>) -> Result<(), WireFault>
        requires { count ≤ MAX_LEN }
        ensures ok { OnOk result (WritesField (λ n. Some (count_encoded n)) (λ n. Alone (counts (context n)) n)
            (λ rest. ⊤) count buf.old.items buf.new.items) }
        ensures err { IfErr result (λ e. (e ≡ Memory) × (buf.new.items ≡ buf.old.items)) };

    /// A number is encoded in its own context only.
    ghost one_context: { (ctx : Self.Ctx) (count : ℕ) (bytes : List ℕ) → counts ctx count bytes → ctx ≡ context count };
}
