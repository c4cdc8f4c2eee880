//! The rows of a record.

ghost use Rattle.std.specs.Prelude.{◌≡◌, ◌≤◌, ◌+◌, IfOk, OnOk, vec_len};
ghost use Rattle.rows_cells.specs.ImageViews.{image_shape};
ghost use Rattle.rows_cells.specs.RowViews.{row_shape};
ghost use Rattle.feed_transactions.specs.CheckedRows.{rows_count};
ghost use Rattle.library_log.specs.RecordParts.{Appends, ReadsImage, ReadsRow};

use crate::cells::{ABSENT, put_cell};
use changes_tables::ShownColumn;
use feed_text::TextBuffer;
use rows_cells::{ImageCells, ImagePlan, RowPlan};
use rows_errors::RowsError;
use std::alloc::{AllocError, Global};

/// What rows are written by: the columns of their table.
#[derive(Clone, Copy)]
pub(crate) struct RowWriter<'w> {
    pub(crate) alloc: Global,
    pub(crate) columns: &'w [ShownColumn],
}

/// Appends a cell without a value for each column from one to another.
fn put_absent(from: usize, to: usize, out: &mut Vec<u8>) -> Result<(), AllocError>
    ensures { OnOk result (Appends out.old.items out.new.items) }
{
    for _ in from..to {
        out.push(ABSENT)?;
    }
    Ok(())
}

impl RowWriter<'_> {
    /// Appends the image that bytes begin with, and returns the bytes after it: a cell for each column of the table, up to one that the
    /// table doesn't have.
    fn put_image<'a>(
        self,
        plan: ImagePlan<'_>,
        bytes: &'a [u8],
        scratch: &mut TextBuffer<Global>,
        out: &mut Vec<u8>,
    ) -> Result<&'a [u8], RowsError>
        ensures read { IfOk result (λ rest. ReadsImage (image_shape plan.entry) bytes.now rest.now) }
        ensures appended { OnOk result (Appends out.old.items out.new.items) }
    {
        let mut cells = ImageCells::of(plan, bytes)?;
        let mut next = 0usize;
        while let Some(field) = cells.next_field() {
            let index = field.column as usize;
            let Some(column) = self.columns.get(index) else {
                return Err(RowsError::Metadata);
            };
            put_absent(next, index, out)?;
            let rest = put_cell(self.alloc, column, field, scratch, out)?;
            cells.skip_field(rest);
            next = index + 1;
        }
        put_absent(next, self.columns.len(), out)?;
        Ok(cells.rest())
    }

    /// Appends the row that bytes begin with, and returns the bytes after it.
    fn put_row<'a>(
        self,
        plan: RowPlan<'_>,
        bytes: &'a [u8],
        scratch: &mut TextBuffer<Global>,
        out: &mut Vec<u8>,
    ) -> Result<&'a [u8], RowsError>
        ensures read { IfOk result (λ rest. ReadsRow (row_shape plan.entry) bytes.now rest.now) }
        ensures appended { OnOk result (Appends out.old.items out.new.items) }
    {
        let rest = self.put_image(plan.first, bytes, scratch, out)?;
        match plan.second {
            Some(second) => self.put_image(second, rest, scratch, out),
            None => Ok(rest),
        }
    }

    /// Appends the rows of an event, and returns their number. After an error a part of them may be there.
    pub(crate) fn put_rows(
        self,
        plan: RowPlan<'_>,
        rows_data: &[u8],
        scratch: &mut TextBuffer<Global>,
        out: &mut Vec<u8>,
    ) -> Result<u64, RowsError>
        ensures count { IfOk result (λ count. count ≡ rows_count (row_shape plan.entry) rows_data.now) }
        ensures appended { OnOk result (Appends out.old.items out.new.items) }
        ensures more { IfOk result (λ count. vec_len out.old + count ≤ vec_len out.new) }
    {
        let mut rest = rows_data;
        let mut rows = 0u64;
        while !rest.is_empty() {
            let start = out.len();
            let next = self.put_row(plan, rest, scratch, out)?;
            if next.len() >= rest.len() || out.len() <= start {
                return Err(RowsError::EmptyPair);
            }
            rest = next;
            rows += 1;
        }
        Ok(rows)
    }
}
