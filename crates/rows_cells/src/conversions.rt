//! Conversions of cell values: to values that borrow nothing, and to plain values.

ghost use Rattle.std.specs.Prelude.{◌≡◌, IfOk, map};
ghost use Rattle.rows_jsonb.specs.JsonDiffViews.{diff_view};
ghost use Rattle.rows_cells.specs.BinlogValues.{kept_view, plain_value};
ghost use Rattle.rows_cells.specs.declared.conversions.BinlogValueToValueError.TheVariants.{Memory};

use crate::binlog_value::BinlogValue;
use rows_jsonb::JsonDiff;
use rows_values::Value;
use std::alloc::{AllocError, AllocFailed, Global};
use thiserror::Error;

impl BinlogValue<'_> {
    /// Returns the same value with bytes of its own.
    pub fn into_owned(self, alloc: Global) -> Result<BinlogValue<'static>, AllocError>
        ensures { IfOk result (λ v. kept_view v ≡ kept_view self.entry) }
    {
        match self {
            BinlogValue::Value(value) => Ok(BinlogValue::Value(value)),
            BinlogValue::Jsonb(document) => Ok(BinlogValue::Jsonb(document.into_owned(alloc)?)),
            BinlogValue::JsonDiff(diffs) => Ok(BinlogValue::JsonDiff(owned_diffs(alloc, diffs)?)),
        }
    }
}

/// Returns the same diffs with bytes of their own.
fn owned_diffs(
    alloc: Global,
    diffs: Vec<JsonDiff<'_>>,
) -> Result<Vec<JsonDiff<'static>>, AllocError>
    ensures { IfOk result (λ owned. map diff_view owned.items ≡ map diff_view diffs.entry.items) }
{
    let mut owned = Vec::with_capacity(alloc, diffs.len())?;
    for diff in diffs {
        owned.push(diff.into_owned(alloc)?)?;
    }
    Ok(owned)
}

/// Why a cell value has no conversion to a plain value.
#[derive(Clone, Copy, Debug, PartialEq, Eq, Error)]
pub enum BinlogValueToValueError {
    /// The value is a JSON document.
    #[error("a JSON document is no plain value")]
    ToJson,
    /// The value consists of JSON diffs.
    #[error("changes of a JSON document are no plain value")]
    JsonDiff,
    /// Out of memory. Only the conversion of a whole row returns this, never that of a single value.
    #[error("out of memory")]
    Memory,
}

impl From<AllocError> for BinlogValueToValueError {
    ghost from_gives = { λ e f. f ≡ Memory };

    fn from(_error: AllocError) -> BinlogValueToValueError {
        BinlogValueToValueError::Memory
    }
}

impl<T: Drop> From<AllocFailed<T>> for BinlogValueToValueError {
    ghost from_gives = { λ e f. f ≡ Memory };

    fn from(_error: AllocFailed<T>) -> BinlogValueToValueError {
        BinlogValueToValueError::Memory
    }
}

impl<'a> TryFrom<BinlogValue<'a>> for Value {
    type Error = BinlogValueToValueError;

    ghost try_from_gives = { λ kept result. result ≡ plain_value kept };

    /// Returns the plain value; `ToJson` for a JSON document, `JsonDiff` for JSON diffs.
    fn try_from(kept: BinlogValue<'a>) -> Result<Value, BinlogValueToValueError> {
        match kept {
            BinlogValue::Value(value) => Ok(value),
            BinlogValue::Jsonb(_) => Err(BinlogValueToValueError::ToJson),
            BinlogValue::JsonDiff(_) => Err(BinlogValueToValueError::JsonDiff),
        }
    }
}
