//! Why no event stands in place of another.

ghost use Rattle.std.specs.Prelude.{◌≡◌};
ghost use Rattle.events_replaced.specs.declared.plain_fault.PlainFault.TheVariants.{Memory};

use std::alloc::AllocError;
use thiserror::Error;

/// Why no event of the same size stands in place of an event.
#[derive(Clone, Copy, Debug, PartialEq, Eq, Error)]
pub enum PlainFault {
    /// It is a compressed transaction, or a compressed event of MariaDB.
    #[error("a compressed event, which is longer without compression")]
    Compressed,
    /// It is an event of an XA transaction.
    #[error("an event of an XA transaction, which may be committed elsewhere")]
    Xa,
    /// The events after it are encrypted.
    #[error("the log is encrypted from here on")]
    Encrypted,
    /// Out of memory.
    #[error("out of memory")]
    Memory,
}

impl From<AllocError> for PlainFault {
    ghost from_gives = { λ e f. f ≡ Memory };

    fn from(_error: AllocError) -> PlainFault {
        PlainFault::Memory
    }
}
