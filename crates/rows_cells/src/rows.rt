//! The rows of an event, read part by part.

ghost use Rattle.std.specs.Prelude.{◌≡◌, ◌<◌, ◌-◌, ◌*◌, length, Some};
ghost use Rattle.rows_cells.specs.declared.rows.Stage.TheVariants.{Start, First};

use crate::cell::CellRef;
use crate::image::{ImageCells, ImagePlan};
use rows_errors::RowsError;

/// The layout of an event's rows: the image before the change, the one after it, or both.
#[derive(Clone, Copy, Debug)]
pub struct RowPlan<'p> {
    /// The first image of a row.
    pub first: ImagePlan<'p>,
    /// The second image, in the rows of an update.
    pub second: Option<ImagePlan<'p>>,
}

/// A part of a row; parts come in the order of the row's bytes.
#[derive(Clone, Copy, Debug)]
pub enum RowPart<'a> {
    /// The next cell of the image: its column's index in the table, from 0, and its value.
    Cell(u32, CellRef<'a>),
    /// The first image has ended, and the second begins.
    NextImage,
    /// The row has ended.
    EndOfRow,
}

/// The position of the next part within a row.
#[derive(Clone, Copy, PartialEq, Eq)]
enum Stage {
    /// At the beginning of a row, or after the last row.
    Start,
    /// In the first image.
    First,
    /// In the second image.
    Second,
}

/// The remaining rows of an event, borrowed from its bytes, and the remaining parts of the current row. It takes no memory.
#[derive(Clone, Copy)]
pub struct RowsCursor<'p, 'a> {
    plan: RowPlan<'p>,
    stage: Stage,
    /// The number of bytes that remained at the beginning of the row.
    row_len: usize,
    /// The remaining cells of the image; at the beginning of a row none, followed by the row's bytes.
    cells: ImageCells<'p, 'a>,
}

impl<'p, 'a> RowsCursor<'p, 'a> {
    ghost use Rattle.rows_cells.specs.RowViews.{IsBetweenRows, ReturnsPart};

    /// Returns a cursor over the rows in these bytes.
    pub fn of(plan: RowPlan<'p>, rows_data: &'a [u8]) -> RowsCursor<'p, 'a>
        ensures plan { result.plan ≡ plan.entry }
        ensures rows { IsBetweenRows result rows_data.entry.now }
    {
        RowsCursor {
            plan,
            stage: Stage::Start,
            row_len: 0,
            cells: ImageCells::before(rows_data),
        }
    }

    /// Returns the next part, or None after the last row.
    ///
    /// If the row can't be read, returns the following, now and on later calls:
    ///
    /// - the errors of `ImageCells::of` and of `read_cell`;
    /// - `EmptyPair`: the row takes no bytes, so that rows would never end.
    #[inline(always)]
    pub fn next_part(&mut self) -> Result<Option<RowPart<'a>>, RowsError>
        ensures { ReturnsPart self.old result self.new }
    {
        if self.stage == Stage::Start {
            if self.cells.rest().is_empty() {
                return Ok(None);
            }
            match self.begin_row() {
                Ok(()) => {}
                Err(fault) => return Err(fault),
            }
        }
        match self.cells.next_cell() {
            Ok(Some((column, cell))) => Ok(Some(RowPart::Cell(column, cell))),
            Ok(None) => match self.end_image() {
                Ok(part) => Ok(Some(part)),
                Err(fault) => Err(fault),
            },
            Err(fault) => Err(fault),
        }
    }
}

impl<'p, 'a> RowsCursor<'p, 'a> {
    ghost use Rattle.std.specs.Prelude.{OnOk, IfErr, Ok, Err, []};
    ghost use Rattle.rows_cells.specs.ImageViews.{remaining_cells, cells_count};
    ghost use Rattle.rows_cells.specs.RowViews.{rest_of_row, remaining_row, IsInRow, row_parts, remaining_parts, BeginsRow, EndsImage};

    /// Begins the first image of the next row.
    fn begin_row(&mut self) -> Result<(), RowsError>
        requires stage { self.now.stage ≡ Start }
        requires some { 0 < length self.now.cells.rest.now }
        ensures ok { OnOk result (BeginsRow self.old self.new) }
        ensures err { IfErr result (λ e. (remaining_row self.old ≡ Err e) × (self.new ≡ self.old)) }
    {
        let bytes = self.cells.rest();
        match ImageCells::of(self.plan.first, bytes) {
            Ok(cells) => {
                self.row_len = bytes.len();
                self.cells = cells;
                self.stage = Stage::First;
                Ok(())
            }
            Err(fault) => Err(fault),
        }
    }

    /// Goes from the end of an image to the next image, or to the end of the row.
    fn end_image(&mut self) -> Result<RowPart<'a>, RowsError>
        requires stage { IsInRow self.now }
        requires none { remaining_cells self.now.cells ≡ Ok ([], self.now.cells.rest.now) }
        requires count { cells_count self.now.cells ≡ 0 }
        ensures { EndsImage self.old result self.new }
    {
        match self.stage {
            Stage::First => match self.plan.second {
                Some(plan) => self.begin_second(plan),
                None => self.end_row(),
            },
            _ => self.end_row(),
        }
    }

    /// Goes from the end of the last image to the end of the row.
    fn end_row(&mut self) -> Result<RowPart<'a>, RowsError>
        requires none { remaining_cells self.now.cells ≡ Ok ([], self.now.cells.rest.now) }
        requires left { remaining_row self.now ≡ rest_of_row [] self.now }
        requires parts { (self.now.row_len - 1) * row_parts self.now.plan < remaining_parts self.now }
        ensures { EndsImage self.old result self.new }
    {
        if self.cells.rest().len() >= self.row_len {
            return Err(RowsError::EmptyPair);
        }
        self.stage = Stage::Start;
        Ok(RowPart::EndOfRow)
    }

    /// Begins the second image.
    fn begin_second(&mut self, plan: ImagePlan<'p>) -> Result<RowPart<'a>, RowsError>
        requires stage { self.now.stage ≡ First }
        requires second { self.now.plan.second ≡ Some plan }
        requires none { remaining_cells self.now.cells ≡ Ok ([], self.now.cells.rest.now) }
        requires count { cells_count self.now.cells ≡ 0 }
        ensures { EndsImage self.old result self.new }
    {
        match ImageCells::of(plan, self.cells.rest()) {
            Ok(cells) => {
                self.cells = cells;
                self.stage = Stage::Second;
                Ok(RowPart::NextImage)
            }
            Err(fault) => Err(fault),
        }
    }
}
