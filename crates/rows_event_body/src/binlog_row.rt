//! A row, and access to its values.

ghost use Rattle.std.specs.Prelude.{◌≡◌, ◌<◌, length, map, slice_set, option_copied, IfOk, All, IsSome, IsTrue, ◌↔◌, [], Some, None};
ghost use Rattle.std.specs.Rc.{rc_slice_items};
ghost use Rattle.rows_event_body.specs.ImageColumnIndexes.{image_items, value_count, column_at_index};

use rows_cells::{BinlogValue, ImageColumn};
use rows_values::Column;
use std::alloc::{AllocError, Global};
use std::rc::RcSlice;

/// A row of a table from a binary log: the columns in an image and their values. It borrows nothing.
#[derive(PartialEq, Drop)]
pub struct BinlogRow {
    pub(crate) values: Vec<Option<BinlogValue<'static>>>,
    pub(crate) columns: RcSlice<Column, Global>,
    image: Option<RcSlice<ImageColumn, Global>>,
    ghost image_fits: { value_count (image_items image) (length values.items) ≡ length values.items },
}

impl BinlogRow {
    ghost use Rattle.rows_event_body.specs.OwnedRows.{row_values, row_columns, image_of, row_value};

    /// Creates a row of these values and columns. The column index of each value is its index.
    pub fn new(
        values: Vec<Option<BinlogValue<'static>>>,
        columns: RcSlice<Column, Global>,
    ) -> BinlogRow
        ensures values { row_values result ≡ values.entry.items }
        ensures columns { row_columns result ≡ rc_slice_items columns }
        ensures image { image_of result ≡ None }
    {
        BinlogRow {
            values,
            columns,
            image: None,
        }
    }

    /// Creates a row of these values and columns, where each value belongs to the image's column at the same index and has that
    /// column's index in the table.
    pub fn of_image(
        values: Vec<Option<BinlogValue<'static>>>,
        columns: RcSlice<Column, Global>,
        image: RcSlice<ImageColumn, Global>,
    ) -> BinlogRow
        requires { length (rc_slice_items image) ≡ length values.items }
        ensures values { row_values result ≡ values.entry.items }
        ensures columns { row_columns result ≡ rc_slice_items columns }
        ensures image { image_of result ≡ Some (rc_slice_items image) }
    {
        BinlogRow {
            values,
            columns,
            image: Some(image),
        }
    }

    /// Returns the number of values, including those that were taken.
    pub fn len(&self) -> usize
        ensures { result ≡ length (row_values self.now) }
    {
        self.values.len()
    }

    /// Returns whether the row has no values, not even taken ones.
    pub fn is_empty(&self) -> bool
        ensures { IsTrue result ↔ (row_values self.now ≡ []) }
    {
        self.values.is_empty()
    }

    /// Returns the columns of the row.
    pub fn columns_ref(&self) -> &[Column]
        ensures { result.now ≡ row_columns self.now }
    {
        self.columns.as_slice()
    }

    /// Returns the columns of the row, shared with it, or an error if out of memory.
    pub fn columns(&self) -> Result<RcSlice<Column, Global>, AllocError>
        ensures { IfOk result (λ columns. rc_slice_items columns ≡ row_columns self.now) }
    {
        self.columns.clone()
    }

    /// Returns the value at this index; None past the last, and if it was taken.
    pub fn as_ref(&self, index: usize) -> Option<&BinlogValue<'static>>
        ensures { option_copied result ≡ row_value (row_values self.now) index }
    {
        self.values.get(index)?.as_ref()
    }

    /// Takes the value at this index out of the row and leaves None; returns None past the last, and if it was taken before.
    pub fn take(&mut self, index: usize) -> Option<BinlogValue<'static>>
        ensures taken { result ≡ row_value (row_values self.old) index }
        ensures values { row_values self.new ≡ slice_set (row_values self.old) index None }
        ensures columns { row_columns self.new ≡ row_columns self.old }
        ensures image { image_of self.new ≡ image_of self.old }
    {
        self.values.get_mut(index)?.take()
    }

    /// Returns the index in the table, from 0, of the column of the value at `index`. In a row that `new` made this is `index`
    /// itself.
    pub fn place(&self, index: usize) -> usize
        requires { index < length (row_values self.now) }
        ensures { column_at_index (image_of self.now) index ≡ Some result }
    {
        match &self.image {
            Some(image) => image[index].column as usize,
            None => index,
        }
    }

    /// Returns the values of a row from which none was taken, or an error if out of memory.
    pub fn unwrap(self, alloc: Global) -> Result<Vec<BinlogValue<'static>>, AllocError>
        requires { All IsSome (row_values self) }
        ensures { IfOk result (λ values. map Some values.items ≡ row_values self) }
    {
        let mut values = Vec::with_capacity(alloc, self.values.len())?;
        for value in self.values {
            values.push(value.unwrap())?;
        }
        Ok(values)
    }
}
