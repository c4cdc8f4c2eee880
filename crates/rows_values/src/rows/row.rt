//! A row: its columns and their values.

ghost use Rattle.std.specs.Prelude.{◌≡◌, option_copied, length, slice_get, IfOk, Option, Some, None};
ghost use Rattle.std.specs.List.{AllZip};
ghost use Rattle.std.specs.Rc.{rc_slice_items};
ghost use Rattle.rows_values.specs.RowValues.{values_of, value_at, columns_of, SameCell};

use crate::rows::{Column, Value};
use std::alloc::{AllocError, Global};
use std::rc::RcSlice;

/// A row: its columns, and a value or None for each of them.
#[derive(Debug, PartialEq, Drop)]
pub struct Row {
    values: Vec<Option<Value>>,
    columns: RcSlice<Column, Global>,
}

/// Returns a row of these values and columns.
pub fn new_row_raw(values: Vec<Option<Value>>, columns: RcSlice<Column, Global>) -> Row
    ensures values { values_of result ≡ values.items }
    ensures columns { columns_of result ≡ rc_slice_items columns }
{
    Row { values, columns }
}

impl Row {
    /// Returns the number of cells, including those without a value.
    pub fn len(&self) -> usize
        ensures { result ≡ length (values_of self.now) }
    {
        self.values.len()
    }

    /// Returns the columns of the row.
    pub fn columns_ref(&self) -> &[Column]
        ensures { result.now ≡ columns_of self.now }
    {
        self.columns.as_slice()
    }

    /// Returns the value at this index, or None if the index is out of range or the cell has no value.
    pub fn as_ref(&self, index: usize) -> Option<&Value>
        ensures { option_copied result ≡ value_at (values_of self.now) index }
    {
        self.values.get(index)?.as_ref()
    }

    /// Returns an owned copy of the values, with the columns shared by both rows. The error is out of memory.
    pub fn clone(&self, alloc: Global) -> Result<Row, AllocError>
        ensures values { IfOk result (λ copy. AllZip SameCell (values_of self.now) (values_of copy)) }
        ensures columns { IfOk result (λ copy. columns_of copy ≡ columns_of self.now) }
    {
        let mut values = Vec::new(alloc);
        for value in &self.values {
            values.push(copy_of(value, alloc)?)?;
        }
        Ok(Row {
            values,
            columns: self.columns.clone()?,
        })
    }
}

/// Returns an owned copy of the value, if there is one.
fn copy_of(value: &Option<Value>, alloc: Global) -> Result<Option<Value>, AllocError>
    ensures { IfOk result (λ copy. SameCell value.now copy) }
{
    match value {
        Some(value) => Ok(Some(value.clone(alloc)?)),
        None => Ok(None),
    }
}
