//! The GTID of MariaDB in the body of the event that stands for a GTID_EVENT of MariaDB.

ghost use Rattle.std.specs.Prelude.{◌≡◌, option_map};
ghost use Rattle.changes_origins.specs.MariadbGtids.{mariadb_gtid};
ghost use Rattle.changes_origins.specs.MariadbViews.{mariadb_view};

use byteorder::{ByteOrder, LittleEndian};

/// The byte that such a body begins with; the body of a GTID_TAGGED_LOG_EVENT of MySQL begins with another.
const MARK: u8 = 0;

/// The length of the byte, the domain, the server and the sequence number.
const LEN: usize = 17;

/// A GTID of MariaDB.
#[derive(Clone, Copy)]
pub(crate) struct MariadbGtid {
    /// The id of the replication domain.
    pub(crate) domain: u32,
    /// The id of the server.
    pub(crate) server: u32,
    /// The sequence number.
    pub(crate) sequence: u64,
}

impl MariadbGtid {
    /// The GTID in the body of an event; None if the body has none of MariaDB.
    pub(crate) fn read(body: &[u8]) -> Option<MariadbGtid>
        ensures { option_map mariadb_view result ≡ mariadb_gtid body.now }
    {
        if body.len() < LEN || body[0] != MARK {
            return None;
        }
        Some(MariadbGtid {
            domain: LittleEndian::read_u32(&body[1..]),
            server: LittleEndian::read_u32(&body[5..]),
            sequence: LittleEndian::read_u64(&body[9..]),
        })
    }
}
