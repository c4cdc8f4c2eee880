//! Three rules for JSON documents that are made to break a reader: the last of equal keys wins, each value counts, and what points
//! outside of its container has a name.

ghost use Rattle.std.specs.Prelude.{◌≡◌, ◌+◌, ◌≤◌, ◌<◌, ◌⊎◌, Some, None, OnOk, OnErr, IfErr, string_cmp};
ghost use Rattle.std.specs.BTreeMap.{insert_entry};
ghost use Rattle.rows_errors.specs.declared.fault.RowsError.TheVariants.{Jsonb, Memory};

use crate::{JsonbError, RowsError};
use std::collections::BTreeMap;
use std::ops::Range;

/// Sets the member with this key of an object; the value of an equal key is replaced. The error is `Memory`.
pub fn set_member<V: Drop>(
    members: &mut BTreeMap<String, V>,
    key: String,
    value: V,
) -> Result<(), RowsError>
    ensures ok { OnOk result (members.new.entries ≡ insert_entry string_cmp members.old.entries key value) }
    ensures err { IfErr result (λ e. e ≡ Memory) }
{
    drop(members.insert(key, value)?);
    Ok(())
}

/// Subtracts one value from the budget; a budget of 0 is an error.
pub fn take_value(budget: &mut usize) -> Result<(), RowsError>
    ensures ok { OnOk result (1 + budget.new ≡ budget.old) }
    ensures none { OnErr result (budget.old ≡ 0) }
    ensures err { IfErr result (λ e. e ≡ Jsonb None) }
{
    if *budget == 0 {
        return Err(RowsError::Jsonb(None));
    }
    *budget -= 1;
    Ok(())
}

/// Checks that a part of a container begins at `least` or later, and ends within the container, which has `size` bytes. Otherwise
/// the error is this one.
#[inline(always)]
pub fn check_place(
    part: Range<usize>,
    least: usize,
    size: usize,
    error: JsonbError,
) -> Result<(), RowsError>
    ensures begin { OnOk result (least ≤ part.start) }
    ensures end { OnOk result (part.end ≤ size) }
    ensures outside { OnErr result ((part.start < least) ⊎ (size < part.end)) }
    ensures err { IfErr result (λ e. e ≡ Jsonb (Some error)) }
{
    if part.start < least || size < part.end {
        return Err(RowsError::Jsonb(Some(error)));
    }
    Ok(())
}
