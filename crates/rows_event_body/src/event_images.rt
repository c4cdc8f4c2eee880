//! Reading an event's images into owned rows.

ghost use Rattle.std.specs.Prelude.{◌≡◌, ◌⊎◌, ◌<◌, length, IfOk, IfErr, Err};
ghost use Rattle.rows_errors.specs.declared.fault.RowsError.TheVariants.{Memory};
ghost use Rattle.rows_cells.specs.EventRows.{images_at, row_at};
ghost use Rattle.rows_event_body.specs.ImageShapes.{table_plan};
ghost use Rattle.rows_event_body.specs.EventShapes.{event_shapes};
ghost use Rattle.rows_event_body.specs.EventImages.{shapes_read, ReadsEventImages, ReadsImages, ReadsPair};
ghost use Rattle.rows_event_body.specs.RowPairs.{planned_table};
ghost use Rattle.rows_event_body.specs.Views.{body_of};

use crate::rows_event::RowsEvent;
use crate::{BinlogRow, ColumnPlan, RowImage};
use rows_errors::RowsError;
use std::alloc::Global;

/// A row before the change and after it, as far as the event has them.
pub(crate) type RowPair = (Option<BinlogRow>, Option<BinlogRow>);

/// The readers of the images that each row of an event has.
#[derive(Drop)]
pub(crate) enum EventImages {
    /// Deleted rows.
    Before(RowImage),
    /// Inserted rows.
    After(RowImage),
    /// Rows before they were updated, and after.
    Both(RowImage, RowImage),
}

impl EventImages {
    /// Creates the readers of an event's images, by the plan of its table. Returns the errors of [`RowImage::new`].
    pub(crate) fn new(
        alloc: Global,
        event: &RowsEvent<'_>,
        plan: &ColumnPlan,
    ) -> Result<EventImages, RowsError>
        ensures ok { IfOk result (ReadsEventImages (planned_table plan.now) (body_of event.now)) }
        ensures err { IfErr result (λ e. e ≡ Memory ⊎ event_shapes (body_of event.now) (table_plan plan.now) ≡ Err e) }
    {
        let is_partial = event.images().has_partial_after();
        match (event.columns_before_image(), event.columns_after_image()) {
            (Some(before), Some(after)) => {
                let before = match RowImage::new(alloc, plan, before, false) {
                    Ok(before) => before,
                    Err(fault) => return Err(fault),
                };
                match RowImage::new(alloc, plan, after, is_partial) {
                    Ok(after) => Ok(EventImages::Both(before, after)),
                    Err(fault) => Err(fault),
                }
            }
            (Some(before), None) => match RowImage::new(alloc, plan, before, false) {
                Ok(before) => Ok(EventImages::Before(before)),
                Err(fault) => Err(fault),
            },
            (None, Some(after)) => match RowImage::new(alloc, plan, after, is_partial) {
                Ok(after) => Ok(EventImages::After(after)),
                Err(fault) => Err(fault),
            },
            (None, None) => Err(RowsError::EmptyPair),
        }
    }

    /// Reads the row that the bytes begin with; returns it and the bytes after it.
    ///
    /// - The errors of [`RowImage::read`].
    /// - `EmptyPair`: the row takes no bytes.
    #[tactic(auto, unfolding(rows_cells::specs::EventRows::row_at))]
    pub(crate) fn read<'a>(
        &self,
        alloc: Global,
        bytes: &'a [u8],
    ) -> Result<(RowPair, &'a [u8]), RowsError>
        ensures ok { IfOk result (λ x. ReadsPair self.now bytes.entry.now x.0 x.1.now) }
        ensures fewer { IfOk result (λ x. length x.1.now < length bytes.entry.now) }
        ensures err { IfErr result (λ e. e ≡ Memory ⊎ row_at (shapes_read self.now) bytes.entry.now ≡ Err e) }
    {
        let (pair, rest) = match self.read_images(alloc, bytes) {
            Ok(read) => read,
            Err(fault) => return Err(fault),
        };
        if rest.len() >= bytes.len() {
            return Err(RowsError::EmptyPair);
        }
        Ok((pair, rest))
    }

    /// Reads the images that the bytes begin with; returns them and the bytes after them.
    fn read_images<'a>(
        &self,
        alloc: Global,
        bytes: &'a [u8],
    ) -> Result<(RowPair, &'a [u8]), RowsError>
        ensures ok { IfOk result (λ x. ReadsImages self.now bytes.entry.now x.0 x.1.now) }
        ensures err { IfErr result (λ e. e ≡ Memory ⊎ images_at (shapes_read self.now) bytes.entry.now ≡ Err e) }
    {
        match self {
            EventImages::Before(image) => match image.read(alloc, bytes) {
                Ok((row, rest)) => Ok(((Some(row), None), rest)),
                Err(fault) => Err(fault),
            },
            EventImages::After(image) => match image.read(alloc, bytes) {
                Ok((row, rest)) => Ok(((None, Some(row)), rest)),
                Err(fault) => Err(fault),
            },
            EventImages::Both(before, after) => {
                let (first, rest) = match before.read(alloc, bytes) {
                    Ok(read) => read,
                    Err(fault) => return Err(fault),
                };
                match after.read(alloc, rest) {
                    Ok((second, rest)) => Ok(((Some(first), Some(second)), rest)),
                    Err(fault) => Err(fault),
                }
            }
        }
    }
}
