//! Strings with a length prefix.

ghost use Rattle.std.specs.Prelude.{◌≡◌, ◌++◌, take, OnOk, IfErr};
ghost use Rattle.std.proofs.Common.{refl};
ghost use Rattle.wire_buf.specs.Encoding.{Alone};
ghost use Rattle.wire_buf.specs.Numbers.{IsCounted, IsLenenc, IsLenencString, IsShortString};
ghost use Rattle.wire_buf.specs.declared.fault.WireFault.TheVariants.{Memory};
ghost use Rattle.wire_fields.specs.Strings.{lenenc_string_encoded, counted_bytes};
ghost use Rattle.wire_fields.specs.Sevens.{IsVarLen};
ghost use Rattle.wire_fields.specs.IntFaults.{lenenc_fault, varlen_fault};
ghost use Rattle.wire_fields.specs.ByteStrings.{varlen_string_encoded, CountedFails};

use crate::bytes_repr::{BytesRepr, InnerBytes};
use crate::{IntRepr, LenEnc, VarLen, lenenc_bytes, varlen_bytes};
use std::alloc::Allocator;
use std::borrow::CowSlice;
use wire_buf::{AnySize, ParseBuf, WireFault};

/// A string after its length in one byte. Only the first 255 bytes of a longer string are written.
pub struct U8Bytes;

impl BytesRepr for U8Bytes {
    const SIZE: Option<usize> = None;

    type Size = AnySize;

    type Ctx = ();

    ghost encodes = { λ ctx. Alone IsShortString };

    ghost context = { λ v. tt };

    ghost kept = { take 255 };

    ghost encoded = { counted_bytes 1 };

    fn deserialize<'de>(_ctx: (), buf: &mut ParseBuf<'de>) -> Result<CowSlice<'de, u8>, WireFault> {
        let bytes = buf.checked_eat_u8_str().ok_or(WireFault::Eof)?;
        Ok(CowSlice::Borrowed(bytes))
    }

    fn serialize<A: Allocator>(text: &[u8], buf: &mut Vec<u8, A>) -> Result<(), WireFault> {
        let text = &text[..text.len().min(255)];
        put_counted(&[text.len() as u8], text, buf)
    }

    ghost sized = { λ ctx v bytes rest h. tt };

    ghost one_context = { λ ctx v bytes rest h. refl };
}

impl InnerBytes for U8Bytes {
    ghost before_any = { λ rest. tt };
}

/// A string after its length as a length-encoded integer. MySQL's manual: Protocol::LengthEncodedString.
impl BytesRepr for LenEnc {
    const SIZE: Option<usize> = None;

    type Size = AnySize;

    type Ctx = ();

    ghost encodes = { λ ctx. Alone IsLenencString };

    ghost context = { λ v. tt };

    ghost encoded = { lenenc_string_encoded };

    ghost is_fault = { CountedFails IsLenenc lenenc_fault };

    fn deserialize<'de>(_ctx: (), buf: &mut ParseBuf<'de>) -> Result<CowSlice<'de, u8>, WireFault> {
        let length = <LenEnc as IntRepr>::deserialize(buf)?;
        let Some(bytes) = buf.checked_eat(length as usize) else {
            return Err(WireFault::Eof);
        };
        Ok(CowSlice::Borrowed(bytes))
    }

    fn serialize<A: Allocator>(text: &[u8], buf: &mut Vec<u8, A>) -> Result<(), WireFault> {
        let (count, len) = lenenc_bytes(text.len() as u64);
        put_counted(&count[..len], text, buf)
    }

    ghost sized = { λ ctx v bytes rest h. tt };

    ghost one_context = { λ ctx v bytes rest h. refl };
}

impl InnerBytes for LenEnc {
    ghost before_any = { λ rest. tt };
}

/// A string after its length as a `VarLen` integer. Only the first 4,294,967,295 bytes of a longer string are
/// written.
impl BytesRepr for VarLen {
    const SIZE: Option<usize> = None;

    type Size = AnySize;

    type Ctx = ();

    ghost encodes = { λ ctx. Alone (IsCounted IsVarLen) };

    ghost context = { λ v. tt };

    ghost kept = { take 4294967295 };

    ghost encoded = { varlen_string_encoded };

    ghost is_fault = { CountedFails IsVarLen varlen_fault };

    fn deserialize<'de>(_ctx: (), buf: &mut ParseBuf<'de>) -> Result<CowSlice<'de, u8>, WireFault> {
        let length = <VarLen as IntRepr>::deserialize(buf)?;
        let Some(bytes) = buf.checked_eat(length as usize) else {
            return Err(WireFault::Eof);
        };
        Ok(CowSlice::Borrowed(bytes))
    }

    fn serialize<A: Allocator>(text: &[u8], buf: &mut Vec<u8, A>) -> Result<(), WireFault> {
        let text = &text[..text.len().min(0xffff_ffff)];
        let (count, len) = varlen_bytes(text.len() as u32);
        put_counted(&count[..len], text, buf)
    }

    ghost sized = { λ ctx v bytes rest h. tt };

    ghost one_context = { λ ctx v bytes rest h. refl };
}

impl InnerBytes for VarLen {
    ghost before_any = { λ rest. tt };
}

/// Appends a string after its encoded length, or nothing. The room for both is reserved first, so that the buffer grows once.
fn put_counted<A: Allocator>(
    count: &[u8],
    text: &[u8],
    buf: &mut Vec<u8, A>,
) -> Result<(), WireFault>
    ensures ok { OnOk result (buf.new.items ≡ buf.old.items ++ (count.now ++ text.now)) }
    ensures err { IfErr result (λ e. (e ≡ Memory) × (buf.new.items ≡ buf.old.items)) }
{
    buf.reserve(count.len() + text.len())?;
    buf.extend_from_slice(count)?;
    buf.extend_from_slice(text)?;
    Ok(())
}
