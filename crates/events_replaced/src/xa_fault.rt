//! Why an event of an XA transaction isn't taken.

ghost use Rattle.std.specs.Prelude.{◌≡◌};
ghost use Rattle.events_replaced.specs.declared.xa_fault.XaFault.TheVariants.{Memory};

use std::alloc::AllocError;
use thiserror::Error;

/// Why an event of an XA transaction isn't taken.
#[derive(Clone, Copy, Debug, PartialEq, Eq, Error)]
pub enum XaFault {
    /// Its checksum is wrong.
    #[error("the checksum of an event of an XA transaction is wrong")]
    Checksum,
    /// It commits a transaction that wasn't prepared in the events so far.
    #[error("an XA transaction is committed that was prepared before the log began")]
    Unprepared,
    /// It is an XA statement in a place where none may be: within an XA transaction, or outside.
    #[error("an XA statement is out of place")]
    Misplaced,
    /// It is another XA statement, or an XA_PREPARE_LOG_EVENT whose fields can't be read.
    #[error("an XA statement can't be read")]
    Statement,
    /// The transaction would be longer than the limit.
    #[error("an XA transaction is longer than the limit")]
    TooLong,
    /// Out of memory.
    #[error("out of memory")]
    Memory,
}

impl From<AllocError> for XaFault {
    ghost from_gives = { λ e f. f ≡ Memory };

    fn from(_error: AllocError) -> XaFault {
        XaFault::Memory
    }
}
