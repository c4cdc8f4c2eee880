//! Raw bytes as fields: slices and buffers of a length that the context gives, and arrays.

ghost use Rattle.std.specs.Prelude.{◌≡◌, List, ℕ, Some, length};
ghost use Rattle.wire_buf.specs.Encoding.{Alone, IsBytes};
ghost use Rattle.wire_buf.specs.ReadErrors.{EndsBefore};

use crate::fault::WireFault;
use crate::parse_buf::ParseBuf;
use crate::traits::{AnySize, FixedSize, Inner, MyDeserialize, MySerialize};
use std::alloc::{Allocator, Global};

/// The next bytes, as many as the context says, as a part of the source.
impl<'de> MyDeserialize<'de> for &'de [u8] {
    const SIZE: Option<usize> = None;

    type Size = AnySize;

    type Ctx = usize;

    type Fault = WireFault;

    ghost View = { List ℕ };

    ghost view = { λ v. v.now };

    ghost encodes = { λ ctx. Alone (IsBytes ctx) };

    ghost fails_with = { EndsBefore };

    fn deserialize(
        _alloc: Global,
        ctx: usize,
        buf: &mut ParseBuf<'de>,
    ) -> Result<&'de [u8], WireFault> {
        let Some(bytes) = buf.checked_eat(ctx) else {
            return Err(WireFault::Eof);
        };
        Ok(bytes)
    }

    ghost sized = { λ ctx v bytes rest h. tt };
}

/// The next bytes, as many as the context says, as a buffer.
impl<'de> MyDeserialize<'de> for ParseBuf<'de> {
    const SIZE: Option<usize> = None;

    type Size = AnySize;

    type Ctx = usize;

    type Fault = WireFault;

    ghost View = { List ℕ };

    ghost view = { λ v. v.0.now };

    ghost encodes = { λ ctx. Alone (IsBytes ctx) };

    ghost fails_with = { EndsBefore };

    fn deserialize(
        _alloc: Global,
        ctx: usize,
        buf: &mut ParseBuf<'de>,
    ) -> Result<ParseBuf<'de>, WireFault> {
        let Some(bytes) = buf.checked_eat(ctx) else {
            return Err(WireFault::Eof);
        };
        Ok(ParseBuf(bytes))
    }

    ghost sized = { λ ctx v bytes rest h. tt };
}

/// The next LEN bytes.
impl<'de, const LEN: usize> MyDeserialize<'de> for [u8; LEN] {
    const SIZE: Option<usize> = Some(LEN);

    type Size = FixedSize<LEN>;

    type Ctx = ();

    type Fault = WireFault;

    ghost View = { List ℕ };

    ghost view = { λ v. v };

    ghost encodes = { λ ctx. Alone (IsBytes LEN) };

    ghost fails_with = { λ ctx. EndsBefore LEN };

    fn deserialize(
        _alloc: Global,
        _ctx: (),
        buf: &mut ParseBuf<'de>,
    ) -> Result<[u8; LEN], WireFault> {
        let mut value = [0u8; LEN];
        value.copy_from_slice(buf.eat(LEN));
        Ok(value)
    }

    ghost sized = { λ ctx v bytes rest h. h.size };
}

impl<const LEN: usize> MySerialize for [u8; LEN] {
    ghost View = { List ℕ };

    ghost view = { λ v. v };

    ghost encoding = { Alone (IsBytes LEN) };

    ghost encoded = { λ v. Some v };

    fn serialize<A: Allocator>(&self, buf: &mut Vec<u8, A>) -> Result<(), WireFault> {
        buf.extend_from_slice(&self[..])?;
        Ok(())
    }
}

impl<const LEN: usize> Inner for [u8; LEN] {
    ghost before_any = { λ rest. tt };
}

/// The slice's bytes, unchanged. `mysql_common` has this for `[u8]`.
impl MySerialize for &[u8] {
    ghost View = { List ℕ };

    ghost view = { λ v. v.now };

    ghost encoding = { λ v. Alone (IsBytes (length v)) v };

    ghost encoded = { λ v. Some v };

    fn serialize<A: Allocator>(&self, buf: &mut Vec<u8, A>) -> Result<(), WireFault> {
        buf.extend_from_slice(self)?;
        Ok(())
    }
}

impl Inner for &[u8] {
    ghost before_any = { λ rest. tt };
}
