//! The extra data of rows events.

ghost use Rattle.std.specs.Prelude.{◌≡◌, List, ℕ};
ghost use Rattle.wire_buf.specs.Encoding.{Lacks};
ghost use Rattle.wire_buf.specs.declared.fault.WireFault.TheVariants.{Eof};
ghost use Rattle.wire_fields.specs.RawTexts.{raw_string};
ghost use Rattle.rows_event_body.specs.RowsEventFields.{IsExtra, extra_encoded};

use std::alloc::{Allocator, Global};
use wire_buf::{AnySize, Inner, MyDeserialize, MySerialize, ParseBuf, WireFault};
use wire_fields::{BareBytes, LeU16, RawBytes, RawInt};

/// Extra data: its size in two bytes, which counts these two, and the data. A size below 2 means no data. MySQL Internals:
/// Rows_event.
#[derive(Debug, PartialEq, Eq, Drop)]
pub struct ExtraData<'a>(pub RawBytes<'a, BareBytes<65533>>);

/// Returns `Eof` if bytes are missing.
impl<'de> MyDeserialize<'de> for ExtraData<'de> {
    const SIZE: Option<usize> = None;

    type Size = AnySize;

    type Ctx = ();

    type Fault = WireFault;

    ghost View = { List ℕ };

    ghost view = { λ v. raw_string v.0 };

    ghost encodes = { λ ctx. IsExtra };

    ghost fails_with = { λ ctx x e. e ≡ Eof };

    fn deserialize(
        alloc: Global,
        _ctx: (),
        buf: &mut ParseBuf<'de>,
    ) -> Result<ExtraData<'de>, WireFault> {
        let size = buf.parse::<RawInt<LeU16>>(alloc, ())?;
        let len = (size.0 as usize).saturating_sub(2);
        let data = buf.parse::<RawBytes<BareBytes<65533>>>(alloc, len)?;
        Ok(ExtraData(data))
    }

    ghost sized = { λ ctx v bytes rest h. tt };
}

/// Returns `Form` if there are more than 65,533 bytes of data.
impl MySerialize for ExtraData<'_> {
    ghost View = { List ℕ };

    ghost view = { λ v. raw_string v.0 };

    ghost encoding = { IsExtra };

    ghost encoded = { extra_encoded };

    fn serialize<A: Allocator>(&self, buf: &mut Vec<u8, A>) -> Result<(), WireFault> {
        let len = self.0.len();
        if len > 65533 {
            return Err(WireFault::Form);
        }
        let size = RawInt::<LeU16>::new(len as u16 + 2);
        (size, &self.0).serialize(buf)
    }
}

impl Inner for ExtraData<'_> {
    ghost before_any = { λ rest. tt };
}
