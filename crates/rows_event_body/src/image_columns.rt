//! The columns of an image, for reading images.

ghost use Rattle.std.specs.Prelude.{◌≡◌, ◌⊎◌, IfOk, IfErr, OnErr, Ok, Err, Some, None, if◌then◌else◌};
ghost use Rattle.rows_errors.specs.declared.fault.RowsError.TheVariants.{Memory};
ghost use Rattle.rows_table_map.specs.BitLists.{len_of, bit_at};
ghost use Rattle.rows_cells.specs.ImageViews.{image_shape};
ghost use Rattle.rows_event_body.specs.ImageShapes.{table_plan, shape_of, shape_picked, no_columns};

use crate::plan::ColumnPlan;
use rows_cells::{ImageColumn, ImagePlan};
use rows_errors::RowsError;
use rows_table_map::Bits;
use std::alloc::Global;

/// The columns of an image. It keeps its memory from one image to the next.
#[derive(Drop)]
pub struct ImageColumns {
    columns: Vec<ImageColumn>,
    /// The number of JSON columns in the table, if JSON documents may be encoded as diffs.
    json_columns: Option<u32>,
}

impl ImageColumns {
    /// Creates it without columns.
    pub fn new(alloc: Global) -> ImageColumns
        ensures { shape_of result ≡ no_columns }
    {
        ImageColumns {
            columns: Vec::new(alloc),
            json_columns: None,
        }
    }

    /// Removes the columns, and keeps their memory.
    pub fn clear(&mut self)
        ensures { shape_of self.new ≡ no_columns }
    {
        self.columns.clear();
        self.json_columns = None;
    }

    /// Replaces the columns by those whose bits are set. `is_partial` says that JSON documents may be encoded as diffs. On an
    /// error there are no columns.
    ///
    /// - The errors of [`ColumnPlan::image_columns`].
    /// - `Memory`: also for a table of 2^32 or more JSON columns.
    pub fn fill(
        &mut self,
        plan: &ColumnPlan,
        bits: Bits<'_>,
        is_partial: bool,
    ) -> Result<(), RowsError>
        ensures ok { IfOk result (λ _. shape_picked (table_plan plan.now) (len_of bits.entry) is_partial (bit_at bits.entry) ≡ Ok (shape_of self.new)) }
        ensures err { IfErr result (λ e. e ≡ Memory ⊎ shape_picked (table_plan plan.now) (len_of bits.entry) is_partial (bit_at bits.entry) ≡ Err e) }
        ensures left { OnErr result (shape_of self.new ≡ no_columns) }
    {
        self.clear();
        let json_columns = json_columns(plan, is_partial)?;
        if let Err(fault) = plan.image_columns(bits, &mut self.columns) {
            self.columns.clear();
            return Err(fault);
        }
        self.json_columns = json_columns;
        Ok(())
    }

    /// Returns the columns in order, and the number of JSON columns in the table if JSON documents may be encoded as diffs.
    pub fn into_parts(self) -> (Vec<ImageColumn>, Option<u32>)
        ensures { record { columns = result.0.items; json_columns = result.1 } ≡ shape_of self }
    {
        (self.columns, self.json_columns)
    }

    /// Returns the layout of the image, for reading.
    pub fn plan(&self) -> ImagePlan<'_>
        ensures { image_shape result ≡ shape_of self.now }
    {
        ImagePlan {
            columns: &self.columns,
            json_columns: self.json_columns,
        }
    }
}

/// Returns the number of JSON columns in the table if JSON documents may be encoded as diffs, otherwise None.
fn json_columns(plan: &ColumnPlan, is_partial: bool) -> Result<Option<u32>, RowsError>
    ensures ok { IfOk result (λ json. json ≡ (if is_partial then Some plan.now.json_columns else None)) }
    ensures err { IfErr result (λ e. e ≡ Memory) }
{
    if !is_partial {
        return Ok(None);
    }
    match u32::try_from(plan.json_columns()) {
        Ok(json_columns) => Ok(Some(json_columns)),
        Err(_) => Err(RowsError::Memory),
    }
}
