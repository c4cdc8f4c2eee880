//! Strings that a zero byte ends.

ghost use Rattle.std.specs.Prelude.{◌≡◌, ◌++◌, ◌∷◌, []};
ghost use Rattle.std.proofs.Common.{refl};
ghost use Rattle.wire_buf.specs.Encoding.{Alone};
ghost use Rattle.wire_fields.specs.ByteStrings.{IsNullTerminated, before_zero};

use memchr::memchr;
use std::alloc::Allocator;
use std::borrow::CowSlice;
use wire_buf::{AnySize, ParseBuf, WireFault};
use wire_fields::{BytesRepr, InnerBytes};

/// A string that a zero byte ends. Reading skips the zero, and returns `Eof` if there is none. Writing stops
/// before the string's first zero, and appends a zero. MySQL's manual: Protocol::NullTerminatedString.
pub struct NullBytes;

impl BytesRepr for NullBytes {
    const SIZE: Option<usize> = None;

    type Size = AnySize;

    type Ctx = ();

    ghost encodes = { λ ctx. Alone IsNullTerminated };

    ghost context = { λ v. tt };

    ghost kept = { before_zero };

    ghost encoded = { λ v. v ++ (0 ∷ []) };

    fn deserialize<'de>(_ctx: (), buf: &mut ParseBuf<'de>) -> Result<CowSlice<'de, u8>, WireFault> {
        let Some(at) = memchr(0, buf.0) else {
            return Err(WireFault::Eof);
        };
        let bytes = buf.eat(at);
        buf.skip(1);
        Ok(CowSlice::Borrowed(bytes))
    }

    fn serialize<A: Allocator>(text: &[u8], buf: &mut Vec<u8, A>) -> Result<(), WireFault> {
        let text = before_first_zero(text);
        buf.reserve(text.len() + 1)?;
        buf.extend_from_slice(text)?;
        buf.push(0)?;
        Ok(())
    }

    ghost sized = { λ ctx v bytes rest h. tt };

    ghost one_context = { λ ctx v bytes rest h. refl };
}

impl InnerBytes for NullBytes {
    ghost before_any = { λ rest. tt };
}

/// Returns the bytes before the first zero, or all bytes if there is none.
fn before_first_zero(text: &[u8]) -> &[u8]
    ensures { result.now ≡ before_zero text.now }
{
    match memchr(0, text) {
        Some(at) => &text[..at],
        None => text,
    }
}
