//! The columns of the images in an event's rows.

ghost use Rattle.std.specs.Prelude.{◌≡◌, ◌⊎◌, ◌∷◌, [], IfOk, IfErr, OnErr, Ok, Err};
ghost use Rattle.rows_errors.specs.declared.fault.RowsError.TheVariants.{Memory};
ghost use Rattle.rows_cells.specs.RowViews.{row_shape, IsBetweenRows};
ghost use Rattle.rows_event_body.specs.ImageShapes.{table_plan, no_columns};
ghost use Rattle.rows_event_body.specs.EventShapes.{event_shapes};
ghost use Rattle.rows_event_body.specs.EventColumnViews.{shapes_of};
ghost use Rattle.rows_event_body.specs.Views.{body_of};

use crate::rows_event::RowsEvent;
use crate::{ColumnPlan, ImageColumns};
use rows_cells::{RowPlan, RowsCursor};
use rows_errors::RowsError;
use std::alloc::Global;

/// The columns of a rows event's images. It keeps its memory from event to event.
#[derive(Drop)]
pub struct EventColumns {
    first: ImageColumns,
    second: ImageColumns,
    has_second: bool,
}

impl EventColumns {
    /// Creates it without columns.
    pub fn new(alloc: Global) -> EventColumns
        ensures { shapes_of result ≡ no_columns ∷ [] }
    {
        EventColumns {
            first: ImageColumns::new(alloc),
            second: ImageColumns::new(alloc),
            has_second: false,
        }
    }

    /// Replaces the columns by those of this event's images, by the plan of its table. On an error there are no columns.
    ///
    /// - The error of the first column of the event that has no plan, or of the optional metadata.
    /// - `Memory`: out of memory, or a table of 2^32 or more JSON columns.
    pub fn fill(&mut self, event: &RowsEvent<'_>, plan: &ColumnPlan) -> Result<(), RowsError>
        ensures ok { IfOk result (λ _. event_shapes (body_of event.now) (table_plan plan.now) ≡ Ok (shapes_of self.new)) }
        ensures err { IfErr result (λ e. e ≡ Memory ⊎ event_shapes (body_of event.now) (table_plan plan.now) ≡ Err e) }
        ensures left { OnErr result (shapes_of self.new ≡ no_columns ∷ []) }
    {
        let is_partial = event.images().has_partial_after();
        self.has_second = false;
        match (event.columns_before_image(), event.columns_after_image()) {
            (Some(before), Some(after)) => {
                if let Err(fault) = self.first.fill(plan, before, false) {
                    return Err(fault);
                }
                if let Err(fault) = self.second.fill(plan, after, is_partial) {
                    self.first.clear();
                    return Err(fault);
                }
                self.has_second = true;
                Ok(())
            }
            (Some(before), None) => self.first.fill(plan, before, false),
            (None, Some(after)) => self.first.fill(plan, after, is_partial),
            (None, None) => {
                self.first.clear();
                Err(RowsError::EmptyPair)
            }
        }
    }

    /// Returns the images that each row of the event has.
    pub fn row_plan(&self) -> RowPlan<'_>
        ensures { row_shape result ≡ shapes_of self.now }
    {
        RowPlan {
            first: self.first.plan(),
            second: if self.has_second {
                Some(self.second.plan())
            } else {
                None
            },
        }
    }
}

impl RowsEvent<'_> {
    /// Returns a cursor over the parts of the event's rows, by the columns of its images. It takes no memory.
    pub fn cursor<'p>(&self, columns: &'p EventColumns) -> RowsCursor<'p, '_>
        ensures plan { row_shape result.plan ≡ shapes_of columns.now }
        ensures rows { IsBetweenRows result (body_of self.now).rows_data }
    {
        RowsCursor::of(columns.row_plan(), self.rows_data())
    }
}
