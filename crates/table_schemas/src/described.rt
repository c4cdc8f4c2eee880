//! What the newest format description says of a log.

ghost use Rattle.std.specs.Prelude.{◌≡◌, ◌≤◌, drop, length, take};
ghost use Rattle.table_schemas.specs.MysqlTableMaps.{described_after, describes_mariadb, undescribed};

use events_frames::has_type;
use events_replaced::checksums_after;
use memchr::memmem;
use rows_constants::EventType;

/// What the versions of MariaDB's servers have in them.
const MARIADB: &[u8] = b"MariaDB";

/// The offset of the server's version in a FORMAT_DESCRIPTION_EVENT, and its length.
const VERSION_OFFSET: usize = 21;

const VERSION_LEN: usize = 50;

/// What the newest format description says of a log.
#[derive(Clone, Copy)]
pub(crate) struct Described {
    /// Whether the log's events have checksums.
    pub(crate) has_checksum: bool,
    /// Whether a server of MariaDB wrote it.
    pub(crate) is_mariadb: bool,
}

/// The bytes of a format description from the server's version on.
fn from_version(description: &[u8]) -> &[u8]
    ensures { result.now ≡ drop 21 description.now }
{
    let (_, rest) = description.split_at(VERSION_OFFSET.min(description.len()));
    rest
}

/// The server's version, by the bytes from there on.
fn version_in(bytes: &[u8]) -> &[u8]
    ensures { result.now ≡ take 50 bytes.now }
{
    let (version, _) = bytes.split_at(VERSION_LEN.min(bytes.len()));
    version
}

/// Whether a format description is that of a server of MariaDB.
#[cold]
#[inline(never)]
fn describes_mariadb(description: &[u8]) -> bool
    ensures { result ≡ describes_mariadb description.now }
{
    let version = version_in(from_version(description));
    memmem::find(version, MARIADB).is_some()
}

impl Described {
    /// Nothing was said.
    pub(crate) fn nothing() -> Described
        ensures { result ≡ undescribed }
    {
        Described {
            has_checksum: false,
            is_mariadb: false,
        }
    }

    /// What is said after an event.
    #[inline(always)]
    pub(crate) fn after(self, event: &[u8]) -> Described
        requires { 19 ≤ length event.now }
        ensures { result ≡ described_after self event.now }
    {
        if !has_type(event, EventType::FORMAT_DESCRIPTION_EVENT) {
            return self;
        }
        Described {
            has_checksum: checksums_after(self.has_checksum, event),
            is_mariadb: describes_mariadb(event),
        }
    }
}
