//! Conversion of binary log rows to rows of plain values.

ghost use Rattle.std.specs.Prelude.{◌≡◌, ◌⊎◌, map, IfOk, IfErr, Ok};
ghost use Rattle.rows_values.specs.RowValues.{values_of as plain_values_of, columns_of as plain_columns_of};
ghost use Rattle.rows_event_body.specs.OwnedRows.{row_values, row_columns};
ghost use Rattle.rows_event_body.specs.PlainRows.{plain_cell, out_of_memory, IsFirstNotPlain};

use crate::binlog_row::BinlogRow;
use rows_cells::{BinlogValue, BinlogValueToValueError};
use rows_values::{Row, Value, new_row_raw};
use std::alloc::{AllocError, AllocFailed, Global};
use thiserror::Error;

/// Why a row can't be converted to a row of plain values.
#[derive(Clone, Copy, Debug, PartialEq, Eq, Error)]
#[error("Can't convert BinlogRow to Row at column offset {column_offset}: {error}")]
pub struct BinlogRowToRowError {
    /// The index of the first value that isn't plain; 0 if out of memory.
    pub column_offset: usize,
    /// Why it isn't plain.
    pub error: BinlogValueToValueError,
}

impl From<AllocError> for BinlogRowToRowError {
    ghost from_gives = { λ e fails_with. fails_with ≡ out_of_memory };

    /// Out of memory is `Memory`, at index 0.
    fn from(_error: AllocError) -> BinlogRowToRowError {
        BinlogRowToRowError {
            column_offset: 0,
            error: BinlogValueToValueError::Memory,
        }
    }
}

impl<T: Drop> From<AllocFailed<T>> for BinlogRowToRowError {
    ghost from_gives = { λ e fails_with. fails_with ≡ out_of_memory };

    /// Out of memory is `Memory`, at index 0; the value that wasn't added is dropped.
    fn from(_error: AllocFailed<T>) -> BinlogRowToRowError {
        BinlogRowToRowError::from(AllocError)
    }
}

impl BinlogRow {
    /// Returns the row with the same columns and the plain values; a value that was taken stays None.
    ///
    /// - `ToJson`, `JsonDiff`: with the index of the first value that isn't plain.
    /// - `Memory`: out of memory, with index 0.
    pub fn into_row(self, alloc: Global) -> Result<Row, BinlogRowToRowError>
        ensures values { IfOk result (λ row. map plain_cell (row_values self) ≡ map Ok (plain_values_of row)) }
        ensures columns { IfOk result (λ row. plain_columns_of row ≡ row_columns self) }
        ensures err { IfErr result (λ e. e ≡ out_of_memory ⊎ IsFirstNotPlain (row_values self) e) }
    {
        let mut plain = Vec::with_capacity(alloc, self.values.len())?;
        for value in self.values {
            match plain_of(value) {
                Ok(value) => plain.push(value)?,
                Err(error) => {
                    return Err(BinlogRowToRowError {
                        column_offset: plain.len(),
                        error,
                    });
                }
            }
        }
        Ok(new_row_raw(plain, self.columns))
    }
}

/// Returns the plain value, None for None, or the error.
fn plain_of(value: Option<BinlogValue<'static>>) -> Result<Option<Value>, BinlogValueToValueError>
    ensures { result ≡ plain_cell value.entry }
{
    match value {
        Some(value) => Ok(Some(Value::try_from(value)?)),
        None => Ok(None),
    }
}
