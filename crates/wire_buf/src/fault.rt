//! The errors of fields.

ghost use Rattle.std.specs.Prelude.{◌≡◌};
ghost use Rattle.wire_buf.specs.declared.fault.WireFault.TheVariants.{Memory};

use std::alloc::{AllocError, AllocFailed};
use thiserror::Error;

/// Why a field can't be read or written. `mysql_common` uses `std::io::Error` for these.
#[derive(Clone, Copy, Debug, PartialEq, Eq, Hash, Error)]
pub enum WireFault {
    /// The bytes end before the value does.
    #[error("unexpected end of the bytes")]
    Eof,
    /// The bytes encode no number: a length-encoded integer that begins with 251 or 255, or a `VarLen`
    /// integer of more than 32 bits or more than five bytes.
    #[error("the bytes encode no number")]
    BadNumber,
    /// A number that no known constant has, or bytes that differ from the constant ones.
    #[error("the bytes encode no known constant")]
    BadConst,
    /// Out of memory.
    #[error("out of memory")]
    Memory,
    /// The reader failed.
    #[error("the reader failed")]
    Read,
    /// The writer failed.
    #[error("the writer failed")]
    Write,
    /// The value doesn't fit its encoding, such as a number that exceeds its field's width.
    #[error("the value doesn't fit its format")]
    Form,
}

impl From<AllocError> for WireFault {
    ghost from_gives = { λ e f. f ≡ Memory };

    fn from(_error: AllocError) -> WireFault {
        WireFault::Memory
    }
}

impl<T: Drop> From<AllocFailed<T>> for WireFault {
    ghost from_gives = { λ e f. f ≡ Memory };

    fn from(_error: AllocFailed<T>) -> WireFault {
        WireFault::Memory
    }
}
