//! Why no events stand for one of MariaDB's.

ghost use Rattle.std.specs.Prelude.{◌≡◌};
ghost use Rattle.events_replaced.specs.declared.mariadb_fault.MariadbFault.TheVariants.{Memory};

use std::alloc::AllocError;
use thiserror::Error;

/// Why no events stand for one of MariaDB's.
#[derive(Clone, Copy, Debug, PartialEq, Eq, Error)]
pub enum MariadbFault {
    /// It begins the encrypted part of a log.
    #[error("the log is encrypted")]
    Encrypted,
    /// It is too short for its fields.
    #[error("the fields of an event of MariaDB can't be read")]
    Fields,
    /// Its data is compressed in an unknown way.
    #[error("an event is compressed in an unknown way")]
    Compression,
    /// The event would be longer than the limit.
    #[error("a compressed event is longer than the limit")]
    TooLong,
    /// Its data can't be decompressed, or hasn't the stated length.
    #[error("a compressed event can't be decompressed")]
    Damaged,
    /// Out of memory.
    #[error("out of memory")]
    Memory,
}

impl From<AllocError> for MariadbFault {
    ghost from_gives = { λ e f. f ≡ Memory };

    fn from(_error: AllocError) -> MariadbFault {
        MariadbFault::Memory
    }
}
