//! The ids of tables, of four or six bytes.

ghost use Rattle.std.specs.Prelude.{◌≡◌, ℕ};
ghost use Rattle.wire_buf.specs.Encoding.{Lacks};
ghost use Rattle.wire_buf.specs.declared.fault.WireFault.TheVariants.{Eof};
ghost use Rattle.rows_table_map.specs.TableMaps.{id_width, little_endian};

use std::alloc::Global;
use wire_buf::{AnySize, MyDeserialize, ParseBuf, WireFault};
use wire_fields::{LeU32, LeU48, RawInt};

/// The id of a table, by which rows events refer to it.
#[derive(Clone, Copy, Debug, PartialEq, Eq, Hash)]
pub struct TableId(pub u64);

/// Reads four bytes if the context, the post-header length of the event's type, is 6, otherwise six, in little-endian order.
/// Returns `Eof` if there are fewer bytes.
impl<'de> MyDeserialize<'de> for TableId {
    const SIZE: Option<usize> = None;

    type Size = AnySize;

    type Ctx = usize;

    type Fault = WireFault;

    ghost View = { ℕ };

    ghost view = { λ v. v.0 };

    ghost encodes = { λ ctx. little_endian (id_width ctx) };

    ghost fails_with = { λ ctx x e. Lacks (little_endian (id_width ctx)) x × (e ≡ Eof) };

    fn deserialize(
        alloc: Global,
        ctx: usize,
        buf: &mut ParseBuf<'de>,
    ) -> Result<TableId, WireFault> {
        if ctx == 6 {
            let id = buf.parse::<RawInt<LeU32>>(alloc, ())?;
            return Ok(TableId(u64::from(id.0)));
        }
        let id = buf.parse::<RawInt<LeU48>>(alloc, ())?;
        Ok(TableId(id.0))
    }

    ghost sized = { λ ctx v bytes rest h. tt };
}
