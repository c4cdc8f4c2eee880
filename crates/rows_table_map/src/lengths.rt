//! The sizes of events.

ghost use Rattle.std.specs.Prelude.{◌≡◌, sum, min};

use crate::table_map::TableMapEvent;
use wire_fields::lenenc_int_len;

/// The maximum that an event's `len` returns: with its header of 19 bytes, the size of such an event fits in 32 bits.
pub const MAX_EVENT_LEN: usize = 4_294_967_276;

/// Returns the sum of the sizes of an event's parts, at most [`MAX_EVENT_LEN`].
pub fn event_len(parts: &[usize]) -> usize
    ensures { result ≡ min (sum parts.now) MAX_EVENT_LEN }
{
    let mut len = 0usize;
    for part in parts {
        len = len.saturating_add(*part);
    }
    len.min(MAX_EVENT_LEN)
}

impl TableMapEvent<'_> {
    ghost use Rattle.rows_table_map.specs.TableMaps.{table_map_encoded, written_map};
    ghost use Rattle.rows_table_map.specs.Lengths.{IsEventLen};
    ghost use Rattle.rows_table_map.specs.MapViews.{map_of};

    /// Returns the number of bytes that `serialize` appends, at most [`MAX_EVENT_LEN`].
    pub fn len(&self) -> usize
        ensures { IsEventLen (table_map_encoded (written_map (map_of self.now))) result }
    {
        let columns = self.column_types_raw().len();
        let metadata = self.metadata_raw().len();
        event_len(&[
            8,
            1 + self.database_name_raw().len().min(255),
            1,
            1 + self.table_name_raw().len().min(255),
            1,
            lenenc_int_len(columns as u64) as usize,
            columns,
            lenenc_int_len(metadata as u64) as usize,
            metadata,
            self.null_bitmask_raw().len(),
            self.optional_metadata_raw().len(),
        ])
    }
}
