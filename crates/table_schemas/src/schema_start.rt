//! Where a schema begins.

ghost use Rattle.std.specs.Prelude.{◌≡◌, ◌≤◌, length};

use byteorder::{ByteOrder, LittleEndian};
use events_frames::log_pos;

/// Where a schema begins: of the events that end at this position or after it, with this time or a later one, it has the tables.
#[derive(Clone, Copy, Debug, PartialEq, Eq)]
pub struct SchemaStart {
    /// In seconds since 1970.
    pub time: u32,
    pub position: u32,
}

impl SchemaStart {
    ghost use Rattle.table_schemas.specs.CompletedMaps.{has_begun, start_after};

    /// Before all events.
    pub const FIRST: SchemaStart = SchemaStart {
        time: 0,
        position: 0,
    };

    /// After all events, but those with the highest time and position.
    pub const NEVER: SchemaStart = SchemaStart {
        time: u32::MAX,
        position: u32::MAX,
    };

    /// After a position.
    pub fn after(position: u32) -> SchemaStart
        ensures { result ≡ start_after position }
    {
        SchemaStart {
            time: 0,
            position: position.saturating_add(1),
        }
    }

    /// Whether an event isn't before it.
    pub(crate) fn has_begun(self, event: &[u8]) -> bool
        requires { 19 ≤ length event.now }
        ensures { result ≡ has_begun self event.now }
    {
        self.time <= LittleEndian::read_u32(event) && self.position <= log_pos(event)
    }
}
