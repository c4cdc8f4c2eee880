//! Laws of all representations of integers and of byte strings.

ghost use Rattle.std.specs.Prelude.{◌≡◌, ◌<◌, ◌^◌, ◌⊎◌, ◌∷◌, [], ◌↔◌, ℕ, ℤ, List, IfOk, IfErr, None};
ghost use Rattle.wire_buf.specs.Encoding.{IsShortest};
ghost use Rattle.wire_buf.specs.Numbers.{IsLenenc, lenenc_encoded, IsSignedLittle, IsBig};
ghost use Rattle.wire_buf.specs.declared.fault.WireFault.TheVariants.{Memory, Form, Eof, BadNumber};
ghost use Rattle.wire_fields.specs.IntFaults.{lenenc_fault, varlen_fault};
ghost use Rattle.wire_fields.specs.Sevens.{IsVarLen, varlen_encoded};
ghost use Rattle.wire_fields_extra.specs.TrailingOnes.{IsVarlenUint, varlen_uint_encoded};
ghost use Rattle.wire_fields.specs.Ints.{little_encoded, big_encoded, signed_big_encoded};

use std::alloc::Global;
use wire_buf::{ParseBuf, WireFault};
use wire_fields::{BeI24, BeU24, BytesRepr, IntRepr, LeI24, LeU24, RawInt};

/// Writes an integer and reads it back: the result is what `kept` gives. The error is `Memory`, or `Form` if
/// the representation can't hold the integer.
pub fn read_back<T: IntRepr>(alloc: Global, value: T::Primitive) -> Result<T::Primitive, WireFault>
    ensures ok { IfOk result (λ v. v ≡ T.kept value) }
    ensures err { IfErr result
        (λ e. e ≡ Memory ⊎ ((e ≡ Form) × (T.encoded (T.kept value) ≡ None))) }
{
    let mut bytes = Vec::new(alloc);
    T::serialize(value, &mut bytes)?;
    let mut buf = ParseBuf(&bytes);
    let raw = buf.parse::<RawInt<T>>(alloc, ())?;
    Ok(raw.0)
}

/// Each variable-length encoding that is written is a shortest one of its integer.
pub fn encodings_are_shortest()
    ensures length_encoded { (v : ℕ) → v < 2 ^ 64 → IsShortest IsLenenc v (lenenc_encoded v) }
    ensures seven_bits { (v : ℕ) → v < 2 ^ 32 → IsShortest IsVarLen v (varlen_encoded v) }
    ensures trailing_ones { (v : ℕ) → v < 2 ^ 64
        → IsShortest IsVarlenUint v (varlen_uint_encoded v) }
{}

/// Worked encodings.
pub fn worked_numbers()
    ensures three_bytes { lenenc_encoded 251 ≡ 252 ∷ 251 ∷ 0 ∷ [] }
    ensures no_number { lenenc_fault (251 ∷ []) ≡ BadNumber }
    ensures cut_off { lenenc_fault (252 ∷ 251 ∷ []) ≡ Eof }
    ensures longer { IsLenenc 1 (252 ∷ 1 ∷ 0 ∷ []) }
    ensures seven_bits { varlen_encoded 300 ≡ 172 ∷ 2 ∷ [] }
    ensures greatest { IsVarLen 4294967295 (255 ∷ 255 ∷ 255 ∷ 255 ∷ 15 ∷ []) }
    ensures past_the_greatest { varlen_fault (128 ∷ 128 ∷ 128 ∷ 128 ∷ 16 ∷ []) ≡ BadNumber }
    ensures one_byte { varlen_uint_encoded 1 ≡ 2 ∷ [] }
    ensures two_bytes { varlen_uint_encoded 300 ≡ 177 ∷ 4 ∷ [] }
{}

/// What the names of the fixed widths mean, for three bytes.
pub fn worked_widths()
    ensures lowest_first { (v : ℕ) → ⟦<LeU24 as IntRepr>⟧.encoded v ≡ little_encoded 3 v }
    ensures highest_first { (v : ℕ) → ⟦<BeU24 as IntRepr>⟧.encoded v ≡ big_encoded 3 v }
    ensures signed { (z : ℤ) → ⟦<BeI24 as IntRepr>⟧.encoded z ≡ signed_big_encoded 3 z }
    ensures read { (v : ℕ) (bytes : List ℕ) → ⟦<BeU24 as IntRepr>⟧.encodes v bytes ↔ IsBig 3 v bytes }
    ensures read_signed { (z : ℤ) (bytes : List ℕ) → ⟦<LeI24 as IntRepr>⟧.encodes z bytes ↔ IsSignedLittle 3 z bytes }
{}

/// Writes a string and reads it back: the result is what `kept` gives. The context must be that of the kept
/// string, and the representation must allow that nothing follows. The only error is `Memory`.
pub fn read_back_bytes<T: BytesRepr>(
    alloc: Global,
    ctx: T::Ctx,
    text: &[u8],
) -> Result<Vec<u8>, WireFault>
    requires context { ctx ≡ T.context (T.kept text.now) }
    requires alone { T.allows_rest [] }
    ensures ok { IfOk result (λ v. v.items ≡ T.kept text.now) }
    ensures err { IfErr result (λ e. e ≡ Memory) }
{
    let mut bytes = Vec::new(alloc);
    T::serialize(text, &mut bytes)?;
    let mut buf = ParseBuf(&bytes);
    let read = T::deserialize(ctx, &mut buf)?;
    let items = read.into_owned(alloc)?;
    Ok(items)
}
