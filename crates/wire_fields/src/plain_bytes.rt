//! Strings without a length prefix: to the end, or of a known length.

ghost use Rattle.std.specs.Prelude.{◌≡◌, ◌++◌, [], ◌≤◌, length, take, replicate, OnOk, IfErr};
ghost use Rattle.std.proofs.Common.{refl, sym, ap, ◌∙◌};
ghost use Rattle.wire_buf.specs.Encoding.{Alone, IsBytes};
ghost use Rattle.wire_buf.specs.declared.fault.WireFault.TheVariants.{Memory};
ghost use Rattle.wire_fields.specs.ByteStrings.{IsAll, padded_bytes};

use crate::bytes_repr::{BytesRepr, InnerBytes};
use std::alloc::Allocator;
use std::borrow::CowSlice;
use wire_buf::{AnySize, FixedSize, ParseBuf, WireFault};

/// All remaining bytes. MySQL's manual: Protocol::RestOfPacketString.
pub struct EofBytes;

/// As many bytes as the context says. Only the first `MAX` bytes of a longer string are written.
pub struct BareBytes<const MAX: usize>;

/// At most 255 bytes, as many as the context says.
pub type BareU8Bytes = BareBytes<255>;

/// At most 65,535 bytes, as many as the context says.
pub type BareU16Bytes = BareBytes<65535>;

/// Exactly `LEN` bytes. A longer string is truncated when written; a shorter one is padded with zeros, which
/// are part of the string when read. MySQL's manual: Protocol::FixedLengthString.
pub struct FixedLengthText<const LEN: usize>;

impl BytesRepr for EofBytes {
    const SIZE: Option<usize> = None;

    type Size = AnySize;

    type Ctx = ();

    ghost encodes = { λ ctx. IsAll };

    ghost context = { λ v. tt };

    ghost allows_rest = { λ rest. rest ≡ [] };

    fn deserialize<'de>(_ctx: (), buf: &mut ParseBuf<'de>) -> Result<CowSlice<'de, u8>, WireFault> {
        Ok(CowSlice::Borrowed(buf.eat_all()))
    }

    fn serialize<A: Allocator>(text: &[u8], buf: &mut Vec<u8, A>) -> Result<(), WireFault> {
        buf.extend_from_slice(text)?;
        Ok(())
    }

    ghost sized = { λ ctx v bytes rest h. tt };

    ghost one_context = { λ ctx v bytes rest h. refl };
}

impl<const MAX: usize> BytesRepr for BareBytes<MAX> {
    const SIZE: Option<usize> = None;

    type Size = AnySize;

    type Ctx = usize;

    ghost encodes = { λ ctx. Alone (IsBytes ctx) };

    ghost context = { length };

    ghost kept = { take MAX };

    fn deserialize<'de>(
        ctx: usize,
        buf: &mut ParseBuf<'de>,
    ) -> Result<CowSlice<'de, u8>, WireFault> {
        let Some(bytes) = buf.checked_eat(ctx) else {
            return Err(WireFault::Eof);
        };
        Ok(CowSlice::Borrowed(bytes))
    }

    fn serialize<A: Allocator>(text: &[u8], buf: &mut Vec<u8, A>) -> Result<(), WireFault> {
        buf.extend_from_slice(&text[..text.len().min(MAX)])?;
        Ok(())
    }

    ghost sized = { λ ctx v bytes rest h. tt };

    ghost one_context = { λ ctx v bytes rest h. sym h.size ∙ ap length (sym h.bytes_are) };
}

impl<const MAX: usize> InnerBytes for BareBytes<MAX> {
    ghost before_any = { λ rest. tt };
}

impl<const LEN: usize> BytesRepr for FixedLengthText<LEN> {
    const SIZE: Option<usize> = Some(LEN);

    type Size = FixedSize<LEN>;

    type Ctx = ();

    ghost encodes = { λ ctx. Alone (IsBytes LEN) };

    ghost context = { λ v. tt };

    ghost kept = { padded_bytes LEN };

    fn deserialize<'de>(_ctx: (), buf: &mut ParseBuf<'de>) -> Result<CowSlice<'de, u8>, WireFault> {
        Ok(CowSlice::Borrowed(buf.eat(LEN)))
    }

    fn serialize<A: Allocator>(text: &[u8], buf: &mut Vec<u8, A>) -> Result<(), WireFault> {
        buf.reserve(LEN)?;
        let end = buf.len() + LEN;
        buf.extend_from_slice(&text[..text.len().min(LEN)])?;
        buf.resize(end, 0)?;
        Ok(())
    }

    ghost sized = { λ ctx v bytes rest h. h.size };

    ghost one_context = { λ ctx v bytes rest h. refl };
}

impl<const LEN: usize> InnerBytes for FixedLengthText<LEN> {
    ghost before_any = { λ rest. tt };
}

/// Appends `n` zeros, or nothing if out of memory.
pub(crate) fn append_zeros<A: Allocator>(n: usize, buf: &mut Vec<u8, A>) -> Result<(), WireFault>
    ensures ok { OnOk result (buf.new.items ≡ buf.old.items ++ replicate n 0) }
    ensures err { IfErr result (λ e. (e ≡ Memory) × (buf.new.items ≡ buf.old.items)) }
{
    let total = buf.len().checked_add(n).ok_or(WireFault::Memory)?;
    buf.resize(total, 0)?;
    Ok(())
}
