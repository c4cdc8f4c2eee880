//! The errors of rows and of JSON documents.

ghost use Rattle.std.specs.Prelude.{◌≡◌, Some};
ghost use Rattle.rows_errors.specs.ConvertedFaults.{rows_error};
ghost use Rattle.rows_errors.specs.declared.fault.RowsError.TheVariants.{Memory, Jsonb};

use std::alloc::{AllocError, AllocFailed};
use thiserror::Error;
use wire_buf::{FieldFault, WireFault};

/// Why a table map, a row, a value or a JSON document can't be read. `mysql_common` uses `std::io::Error` for
/// these.
#[derive(Clone, Copy, Debug, PartialEq, Eq, Hash, Error)]
pub enum RowsError {
    /// The bytes end before the value does.
    #[error("unexpected end of the bytes")]
    EndOfBody,
    /// Bytes remain after the last value.
    #[error("bytes are left after the last value")]
    RemainingBytes,
    /// A number that no known constant has, or bytes that encode no number.
    #[error("the bytes encode no known number")]
    UnknownNumber,
    /// The metadata of a column is missing, or its optional metadata can't be read.
    #[error("the metadata of a column can't be read")]
    Metadata,
    /// Cells of the column's type can't be read.
    #[error("cells of this type can't be read")]
    Cell,
    /// A binary JSON document, or a change of one, can't be read; with the error if its pointers or sizes are
    /// wrong.
    #[error("the JSON document can't be read")]
    Jsonb(Option<JsonbError>),
    /// The digits of a decimal are out of range, or its scale is greater than its precision.
    #[error("the decimal can't be read")]
    Decimal,
    /// A pair of row images takes no bytes, so that there would be endlessly many.
    #[error("a row takes no bytes")]
    EmptyPair,
    /// Out of memory.
    #[error("out of memory")]
    Memory,
    /// The reader failed.
    #[error("the reader failed")]
    Read,
}

/// What is wrong with the pointers and sizes of a binary JSON document.
#[derive(Clone, Copy, Debug, PartialEq, Eq, Hash, Error)]
pub enum JsonbError {
    /// A key isn't between the header of its object and the object's end.
    #[error("a key of a JSON object lies outside the object")]
    InvalidKeyOffsetPointer,
    /// A value isn't between its entry and the end of its container.
    #[error("a value of a JSON container lies outside the container")]
    InvalidValueOffsetPointer,
    /// The header of a container, or the container, is larger than its enclosing value.
    #[error("a JSON container is larger than what holds it")]
    SizeOverflow,
}

impl From<AllocError> for RowsError {
    ghost from_gives = { λ e f. f ≡ Memory };

    /// Returns `Memory`.
    fn from(_error: AllocError) -> RowsError {
        RowsError::Memory
    }
}

impl<T: Drop> From<AllocFailed<T>> for RowsError {
    ghost from_gives = { λ e f. f ≡ Memory };

    /// Returns `Memory`; the value that couldn't be stored is dropped.
    fn from(_error: AllocFailed<T>) -> RowsError {
        RowsError::Memory
    }
}

impl From<JsonbError> for RowsError {
    ghost from_gives = { λ e f. f ≡ Jsonb (Some e) };

    /// Returns `Jsonb` with this error.
    fn from(error: JsonbError) -> RowsError {
        RowsError::Jsonb(Some(error))
    }
}

impl From<WireFault> for RowsError {
    ghost from_gives = { λ e f. f ≡ rows_error e };

    /// Returns the corresponding error. Reading returns neither `Write` nor `Form`; `Write` becomes `Read`,
    /// and `Form` becomes `UnknownNumber`.
    fn from(fault: WireFault) -> RowsError {
        match fault {
            WireFault::Eof => RowsError::EndOfBody,
            WireFault::BadNumber | WireFault::BadConst | WireFault::Form => {
                RowsError::UnknownNumber
            }
            WireFault::Memory => RowsError::Memory,
            WireFault::Read | WireFault::Write => RowsError::Read,
        }
    }
}

impl FieldFault for RowsError {
    ghost is_memory = { λ e. e ≡ Memory };

    ghost from_memory = { λ f h. h };
}
