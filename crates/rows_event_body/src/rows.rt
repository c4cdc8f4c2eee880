//! The owned rows of an event, read one at a time.

ghost use Rattle.std.specs.Prelude.{◌≡◌, ◌⊎◌, ◌<◌, IfOk, IfErr, IsSome, Err, length};
ghost use Rattle.std.specs.Iterator.{at_most};
ghost use Rattle.rows_errors.specs.declared.fault.RowsError.TheVariants.{Memory};
ghost use Rattle.rows_event_body.specs.EventShapes.{event_shapes};
ghost use Rattle.rows_event_body.specs.EventImages.{ReadsEventImages};
ghost use Rattle.rows_event_body.specs.EventRowSteps.{source_table, IsBeforeRows, TakesRow, MakesImages, ReadsNext, PlansImages, IsRest};
ghost use Rattle.rows_event_body.specs.RowPairs.{mapped_table, planned_table};
ghost use Rattle.rows_event_body.specs.Views.{body_of};

use crate::ColumnPlan;
use crate::event_columns::EventColumns;
use crate::event_images::{EventImages, RowPair};
use crate::rows_event::RowsEvent;
use rows_cells::RowPlan;
use rows_errors::RowsError;
use rows_table_map::TableMapEvent;
use std::alloc::Global;

/// The source of the table's plan.
#[derive(Clone, Copy)]
enum Source<'a> {
    /// The table map; its plan is made before the first row.
    Map(&'a TableMapEvent<'a>),
    /// The plan.
    Plan(&'a ColumnPlan),
}

impl Source<'_> {
    /// Creates the readers of an event's images.
    fn images(&self, alloc: Global, event: &RowsEvent<'_>) -> Result<EventImages, RowsError>
        ensures ok { IfOk result (ReadsEventImages (source_table self.now) (body_of event.now)) }
        ensures err { IfErr result (λ e. e ≡ Memory ⊎ event_shapes (body_of event.now) (source_table self.now).plan ≡ Err e) }
    {
        match *self {
            Source::Plan(plan) => EventImages::new(alloc, event, plan),
            Source::Map(map) => {
                let plan = match ColumnPlan::new(alloc, map) {
                    Ok(plan) => plan,
                    Err(_) => return Err(RowsError::Memory),
                };
                EventImages::new(alloc, event, &plan)
            }
        }
    }
}

/// The remaining rows of an event: each as it was before the change and after it, as far as the event has them. A row that can't
/// be read is an error, and no row follows it.
#[derive(Drop)]
pub struct RowsEventRows<'a> {
    alloc: Global,
    event: &'a RowsEvent<'a>,
    source: Source<'a>,
    /// The readers of the images, created when the first row is asked for.
    images: Option<EventImages>,
    rest: &'a [u8],
}

impl<'a> RowsEvent<'a> {
    /// Iterates over the rows of the event, whose table this map describes. It reads nothing and takes no memory before the first
    /// row is asked for.
    pub fn rows<'b>(&'b self, alloc: Global, table_map: &'b TableMapEvent<'b>) -> RowsEventRows<'b>
        ensures { IsBeforeRows result (mapped_table table_map.now) (body_of self.now) (body_of self.now).rows_data }
    {
        RowsEventRows {
            alloc,
            event: self,
            source: Source::Map(table_map),
            images: None,
            rest: self.rows_data(),
        }
    }

    /// Iterates over the rows of the event, by the plan of its table: the same rows as `rows` returns for the table map.
    pub fn rows_by<'b>(&'b self, alloc: Global, plan: &'b ColumnPlan) -> RowsEventRows<'b>
        ensures { IsBeforeRows result (planned_table plan.now) (body_of self.now) (body_of self.now).rows_data }
    {
        RowsEventRows {
            alloc,
            event: self,
            source: Source::Plan(plan),
            images: None,
            rest: self.rows_data(),
        }
    }
}

impl<'a> RowsEventRows<'a> {
    /// Creates the readers of the images, unless they exist.
    fn make_images(&mut self) -> Result<(), RowsError>
        ensures makes { MakesImages self.old result self.new }
        ensures some { IfOk result (λ _. IsSome self.new.images) }
        ensures rest { self.new.rest ≡ self.old.rest }
    {
        if self.images.is_some() {
            return Ok(());
        }
        match self.source.images(self.alloc, self.event) {
            Ok(images) => {
                self.images.insert(images);
                Ok(())
            }
            Err(fault) => Err(fault),
        }
    }

    /// Returns the columns of the rows' images, which replace those in `columns`. With them the remaining rows can be read in
    /// place, without memory for each row.
    ///
    /// - The errors of [`EventColumns::fill`].
    /// - `Memory`: also if there is no memory for the plan of a table map.
    pub fn images_in<'p>(&self, columns: &'p mut EventColumns) -> Result<RowPlan<'p>, RowsError>
        ensures { PlansImages self.now result }
    {
        match self.source {
            Source::Plan(plan) => match columns.fill(self.event, plan) {
                Ok(()) => Ok(columns.row_plan()),
                Err(fault) => Err(fault),
            },
            Source::Map(map) => match ColumnPlan::new(self.alloc, map) {
                Ok(plan) => match columns.fill(self.event, &plan) {
                    Ok(()) => Ok(columns.row_plan()),
                    Err(fault) => Err(fault),
                },
                Err(_) => Err(RowsError::Memory),
            },
        }
    }

    /// Returns the bytes of the remaining rows.
    pub fn rest(&self) -> &'a [u8]
        ensures { IsRest self.now result.now }
    {
        self.rest
    }

    /// Reads the row that the remaining bytes begin with; returns it and the bytes after it.
    fn read_next(&self) -> Result<(RowPair, &'a [u8]), RowsError>
        requires { IsSome self.now.images }
        ensures prefix { ReadsNext self.now result }
        ensures fewer { IfOk result (λ x. length x.1.now < length self.now.rest.now) }
    {
        self.images.as_ref().unwrap().read(self.alloc, self.rest)
    }
}

impl<'a> Iterator for RowsEventRows<'a> {
    type Item = Result<RowPair, RowsError>;

    ghost next_gives = { TakesRow };

    ghost remaining = { λ it. at_most (length it.rest.now) };

    /// Returns the next row, the errors of [`ColumnPlan`] and of [`EventImages::read`], or `Memory` if out of memory.
    fn next(&mut self) -> Option<Result<RowPair, RowsError>> {
        if self.rest.is_empty() {
            return None;
        }
        if let Err(fault) = self.make_images() {
            self.rest = &[];
            return Some(Err(fault));
        }
        match self.read_next() {
            Ok((pair, rest)) => {
                self.rest = rest;
                Some(Ok(pair))
            }
            Err(fault) => {
                self.rest = &[];
                Some(Err(fault))
            }
        }
    }
}
