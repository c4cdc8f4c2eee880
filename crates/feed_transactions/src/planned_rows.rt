//! The rows of an event, with their table and the columns of their images.

ghost use Rattle.std.specs.Prelude.{◌≡◌, IfErr, OnOk};
ghost use Rattle.rows_cells.specs.RowViews.{row_shape};
ghost use Rattle.rows_event_body.specs.EventColumnViews.{shapes_of};
ghost use Rattle.feed_text.specs.Buffers.{text_in};
ghost use Rattle.feed_transactions.specs.PlannedRows.{PutsPlannedRows, IsPlannedRowsError};

use crate::lines::put_lines;
use crate::tables::Table;
use feed_checks::Verdict;
use feed_text::TextBuffer;
use rows_cells::RowPlan;
use rows_event_body::RowImages;
use std::alloc::{Allocator, Global};

/// The rows of an event, at least one, of a table that knows the columns of their images.
#[derive(Clone, Copy)]
pub struct PlannedRows<'t, 'b> {
    pub(crate) images: RowImages,
    pub(crate) table: &'t Table,
    pub(crate) rows_data: &'b [u8],
}

impl<'t, 'b> PlannedRows<'t, 'b> {
    /// The images of each row.
    pub fn images(self) -> RowImages
        ensures { result ≡ self.entry.images }
    {
        self.images
    }

    /// The table.
    pub fn table(self) -> &'t Table
        ensures { result ≡ self.entry.table }
    {
        self.table
    }

    /// The columns of the images of each row.
    pub fn row_plan(self) -> RowPlan<'t>
        ensures { row_shape result ≡ shapes_of self.entry.table.now.images.columns }
    {
        self.table.images.columns.row_plan()
    }

    /// The bytes of the rows.
    pub fn rows_data(self) -> &'b [u8]
        ensures { result.now ≡ self.entry.rows_data.now }
    {
        self.rows_data
    }

    /// Appends a line for each row.
    ///
    /// - `Row`: a row can't be read, can't be printed, or takes no bytes.
    /// - `Memory`: out of memory.
    ///
    /// After an error, `text` may hold some of the lines.
    #[inline(always)]
    pub fn put<A: Allocator>(self, alloc: Global, text: &mut TextBuffer<A>) -> Result<(), Verdict>
        ensures ok { OnOk result (PutsPlannedRows self.entry (text_in text.old) (text_in text.new)) }
        ensures err { IfErr result (IsPlannedRowsError self.entry) }
    {
        let images = &self.table.images;
        let start = images.start.as_slice();
        put_lines(
            alloc,
            images.columns.row_plan(),
            start,
            self.rows_data,
            text,
        )
    }
}
