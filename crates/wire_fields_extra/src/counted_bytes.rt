//! Strings after their length in four bytes.

ghost use Rattle.std.specs.Prelude.{take};
ghost use Rattle.std.proofs.Common.{refl};
ghost use Rattle.wire_buf.specs.Encoding.{Alone};
ghost use Rattle.wire_buf.specs.Numbers.{IsLongString};
ghost use Rattle.wire_fields.specs.Strings.{counted_bytes};

use crate::buf_mut_ext::BufMutExt;
use std::alloc::Allocator;
use std::borrow::CowSlice;
use wire_buf::{AnySize, ParseBuf, WireFault};
use wire_fields::{BytesRepr, InnerBytes};

/// A string after its length in four little-endian bytes. Only the first 4,294,967,295 bytes of a longer
/// string are written.
pub struct U32Bytes;

impl BytesRepr for U32Bytes {
    const SIZE: Option<usize> = None;

    type Size = AnySize;

    type Ctx = ();

    ghost encodes = { λ ctx. Alone IsLongString };

    ghost context = { λ v. tt };

    ghost kept = { take 4294967295 };

    ghost encoded = { counted_bytes 4 };

    fn deserialize<'de>(_ctx: (), buf: &mut ParseBuf<'de>) -> Result<CowSlice<'de, u8>, WireFault> {
        let bytes = buf.checked_eat_u32_str().ok_or(WireFault::Eof)?;
        Ok(CowSlice::Borrowed(bytes))
    }

    fn serialize<A: Allocator>(text: &[u8], buf: &mut Vec<u8, A>) -> Result<(), WireFault> {
        buf.put_u32_str(text)
    }

    ghost sized = { λ ctx v bytes rest h. tt };

    ghost one_context = { λ ctx v bytes rest h. refl };
}

impl InnerBytes for U32Bytes {
    ghost before_any = { λ rest. tt };
}
