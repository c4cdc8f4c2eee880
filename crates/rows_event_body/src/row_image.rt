//! Reading images into owned rows.

ghost use Rattle.std.specs.Prelude.{◌≡◌, ◌⊎◌, ℕ, IfOk, IfErr, Ok, Err, map, List, [], length};
ghost use Rattle.std.specs.List.{AllZip};
ghost use Rattle.std.specs.Rc.{rc_slice_items};
ghost use Rattle.rows_table_map.specs.BitLists.{len_of, bit_at};
ghost use Rattle.rows_values.specs.Columns.{parts_of};
ghost use Rattle.rows_errors.specs.declared.fault.RowsError.TheVariants.{Memory};
ghost use Rattle.rows_cells.specs.CellViews.{cell_value, Holds, IsReadable};
ghost use Rattle.rows_cells.specs.Images.{image_at};
ghost use Rattle.rows_cells.specs.ImageViews.{image_shape, remaining_cells, cells_count};
ghost use Rattle.rows_event_body.specs.PlanViews.{planned};
ghost use Rattle.rows_event_body.specs.ImageShapes.{table_plan, shape_picked};
ghost use Rattle.rows_event_body.specs.PickedColumns.{picked_as, definition};
ghost use Rattle.rows_event_body.specs.RowImages.{image_read, IsReadRow, ReadsValues};

use crate::binlog_row::BinlogRow;
use crate::image_columns::ImageColumns;
use crate::plan::ColumnPlan;
use rows_cells::{BinlogValue, CellRef, ImageCells, ImageColumn, ImagePlan};
use rows_errors::RowsError;
use rows_table_map::Bits;
use rows_values::Column;
use std::alloc::Global;
use std::rc::RcSlice;

/// What the rows of an image share: its columns and their definitions.
#[derive(Drop)]
pub struct RowImage {
    columns: RcSlice<ImageColumn, Global>,
    json_columns: Option<u32>,
    definitions: RcSlice<Column, Global>,
}

impl RowImage {
    /// Creates the reader of an image with the columns whose bits are set, by the plan of their table. `is_partial` says that
    /// JSON documents may be encoded as diffs. Returns the errors of [`ImageColumns::fill`].
    pub fn new(
        alloc: Global,
        plan: &ColumnPlan,
        bits: Bits<'_>,
        is_partial: bool,
    ) -> Result<RowImage, RowsError>
        ensures shape { IfOk result (λ r. shape_picked (table_plan plan.now) (len_of bits.entry) is_partial (bit_at bits.entry) ≡ Ok (image_read r)) }
        ensures definitions { IfOk result (λ r. picked_as (definition plan.now.database.items plan.now.table.items) (bit_at bits.entry) (planned plan.now.run (len_of bits.entry)) ≡ Ok (map parts_of (rc_slice_items r.definitions))) }
        ensures err { IfErr result (λ e. e ≡ Memory ⊎ shape_picked (table_plan plan.now) (len_of bits.entry) is_partial (bit_at bits.entry) ≡ Err e) }
    {
        let mut image = ImageColumns::new(alloc);
        if let Err(fault) = image.fill(plan, bits, is_partial) {
            return Err(fault);
        }
        let definitions = match plan.definitions(alloc, bits) {
            Ok(definitions) => definitions,
            Err(fault) => return Err(fault),
        };
        let (columns, json_columns) = image.into_parts();
        Ok(RowImage {
            columns: RcSlice::from_vec(columns)?,
            json_columns,
            definitions: RcSlice::from_vec(definitions)?,
        })
    }

    /// Reads the row of the image that the bytes begin with; returns it and the bytes after the image.
    ///
    /// - The errors of [`ImageCells::of`] and of `read_cell`.
    /// - `Memory`: out of memory.
    pub fn read<'a>(
        &self,
        alloc: Global,
        bytes: &'a [u8],
    ) -> Result<(BinlogRow, &'a [u8]), RowsError>
        ensures ok { IfOk result (λ x. IsReadRow self.now bytes.entry.now x.0 x.1.now) }
        ensures err { IfErr result (λ e. e ≡ Memory ⊎ image_at (image_read self.now) bytes.entry.now ≡ Err e) }
    {
        let mut cells = match ImageCells::of(self.plan(), bytes) {
            Ok(cells) => cells,
            Err(fault) => return Err(fault),
        };
        let values = match read_values(alloc, &mut cells) {
            Ok(values) => values,
            Err(fault) => return Err(fault),
        };
        let row = BinlogRow::of_image(values, self.definitions.clone()?, self.columns.clone()?);
        Ok((row, cells.rest()))
    }

    /// Returns the layout of the image, for reading.
    fn plan(&self) -> ImagePlan<'_>
        ensures { image_shape result ≡ image_read self.now }
    {
        ImagePlan {
            columns: self.columns.as_slice(),
            json_columns: self.json_columns,
        }
    }
}

/// Returns the values of the remaining cells, owned.
fn read_values(
    alloc: Global,
    cells: &mut ImageCells<'_, '_>,
) -> Result<Vec<Option<BinlogValue<'static>>>, RowsError>
    ensures ok { IfOk result (λ values. ReadsValues cells.old values.items cells.new) }
    ensures count { IfOk result (λ values. length values.items ≡ cells_count cells.old) }
    ensures err { IfErr result (λ e. e ≡ Memory ⊎ remaining_cells cells.old ≡ Err e) }
{
    let mut values = Vec::new(alloc);
    loop {
        match cells.next_cell() {
            Ok(Some((_, cell))) => values.push(Some(owned_value(alloc, cell)?))?,
            Ok(None) => return Ok(values),
            Err(fault) => return Err(fault),
        }
    }
}

/// Returns the value of a cell, owned.
fn owned_value(alloc: Global, cell: CellRef<'_>) -> Result<BinlogValue<'static>, RowsError>
    requires { IsReadable cell }
    ensures ok { IfOk result (λ v. Holds (cell_value cell.entry) v) }
    ensures err { IfErr result (λ e. e ≡ Memory) }
{
    let value = match cell.to_value(alloc) {
        Ok(value) => value,
        Err(fault) => return Err(fault),
    };
    Ok(value.into_owned(alloc)?)
}
