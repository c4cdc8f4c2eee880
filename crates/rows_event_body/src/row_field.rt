//! Reading a row as a field.

ghost use Rattle.std.specs.Prelude.{◌≡◌, ◌⊎◌, IfOk, IfErr, Ok, Err, map};
ghost use Rattle.std.specs.Rc.{rc_slice_items};
ghost use Rattle.wire_buf.specs.Encoding.{Alone};
ghost use Rattle.rows_values.specs.Columns.{parts_of};
ghost use Rattle.rows_errors.specs.declared.fault.RowsError.TheVariants.{Memory};
ghost use Rattle.rows_event_body.specs.RowImages.{image_read};
ghost use Rattle.rows_event_body.specs.RowFields.{RowView, row_view, image_of_ctx, definitions_of_ctx, IsRowField, RowFails};

use crate::binlog_row::BinlogRow;
use crate::plan::ColumnPlan;
use crate::row_image::RowImage;
use rows_errors::RowsError;
use rows_table_map::{Bits, TableMapEvent};
use std::alloc::Global;
use wire_buf::{AnySize, MyDeserialize, ParseBuf};

/// What a table map and a rows event have about the image of a row.
#[derive(Clone, Copy)]
pub struct BinlogRowCtx<'a> {
    /// The number of columns in the table, from the rows event.
    pub num_columns: u64,
    /// A bit for each of these columns: whether the image has it.
    pub columns: Bits<'a>,
    /// Whether the image begins with a part that its cells share, as the after image of a partial update does.
    pub has_shared_image: bool,
    /// The table map.
    pub table_map: &'a TableMapEvent<'a>,
}

impl BinlogRowCtx<'_> {
    /// Returns the reader of the image.
    ///
    /// - `Metadata`: there isn't one bit for each column.
    /// - The errors of `ColumnPlan::new` and of [`RowImage::new`].
    fn image(&self, alloc: Global) -> Result<RowImage, RowsError>
        ensures shape { IfOk result (λ image. image_of_ctx self.now ≡ Ok (image_read image)) }
        ensures definitions { IfOk result (λ image. definitions_of_ctx self.now ≡ Ok (map parts_of (rc_slice_items image.definitions))) }
        ensures err { IfErr result (λ e. e ≡ Memory ⊎ image_of_ctx self.now ≡ Err e) }
    {
        if self.columns.len() as u64 != self.num_columns {
            return Err(RowsError::Metadata);
        }
        match ColumnPlan::new(alloc, self.table_map) {
            Ok(plan) => RowImage::new(alloc, &plan, self.columns, self.has_shared_image),
            Err(_) => Err(RowsError::Memory),
        }
    }
}

/// Reads the row of the image that the context describes, as [`RowImage::read`] does. This makes a plan of the table for each
/// row; use a [`RowImage`] for many rows.
///
/// - `Metadata`: there isn't one bit for each column.
/// - The error of the first column that has no plan, or of the optional metadata.
/// - The errors of [`RowImage::read`].
/// - `Memory`: out of memory.
impl<'de> MyDeserialize<'de> for BinlogRow {
    const SIZE: Option<usize> = None;

    type Size = AnySize;

    type Ctx = BinlogRowCtx<'de>;

    type Fault = RowsError;

    ghost View = { RowView };

    ghost view = { row_view };

    ghost encodes = { λ ctx. Alone (IsRowField ctx) };

    ghost fails_with = { RowFails };

    fn deserialize(
        alloc: Global,
        ctx: BinlogRowCtx<'de>,
        buf: &mut ParseBuf<'de>,
    ) -> Result<BinlogRow, RowsError> {
        let image = match ctx.image(alloc) {
            Ok(image) => image,
            Err(fault) => return Err(fault),
        };
        match image.read(alloc, buf.0) {
            Ok((row, rest)) => {
                buf.0 = rest;
                Ok(row)
            }
            Err(fault) => Err(fault),
        }
    }

    ghost sized = { λ ctx v bytes rest h. tt };
}
