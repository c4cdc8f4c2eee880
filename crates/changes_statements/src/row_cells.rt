//! The cells of a row by their columns.

ghost use Rattle.std.specs.Prelude.{◌≡◌, ℕ, is_some, true, false};
ghost use Rattle.std.specs.List.{list_all};
ghost use Rattle.changes_statements.specs.RowsOfCells.{IsFilled, IsMissing, cell_in, cell_or as either_cell, cells_in};

use rows_cells::CellRef;
use std::alloc::{AllocError, Global};

/// The cells of an image of a row, by their columns; None where the image doesn't have the column.
#[derive(Drop)]
pub struct RowCells<'a> {
    cells: Vec<Option<CellRef<'a>>>,
}

/// A cell, or without one another cell.
fn cell_or<'a>(cell: Option<CellRef<'a>>, other: Option<CellRef<'a>>) -> Option<CellRef<'a>>
    ensures { result ≡ either_cell cell.entry other.entry }
{
    match cell {
        Some(_) => cell,
        None => other,
    }
}

impl<'a> RowCells<'a> {
    /// An image of a table with so many columns, without any of them.
    pub fn new(alloc: Global, count: usize) -> Result<RowCells<'a>, AllocError> {
        let mut cells = Vec::new(alloc);
        for _ in 0..count {
            cells.push(None)?;
        }
        Ok(RowCells { cells })
    }

    /// Drops the cells, and keeps the memory.
    pub fn clear(&mut self) {
        for cell in &mut self.cells {
            *cell = None;
        }
    }

    /// Adds a cell; false if the table doesn't have the column.
    pub fn set(&mut self, column: u32, cell: CellRef<'a>) -> bool {
        match self.cells.get_mut(column as usize) {
            Some(place) => {
                *place = Some(cell);
                true
            }
            None => false,
        }
    }

    /// The cell of a column, if the image has it.
    pub fn get(&self, column: usize) -> Option<CellRef<'a>>
        ensures { result ≡ cell_in (cells_in self.now) column }
    {
        match self.cells.get(column) {
            Some(cell) => *cell,
            None => None,
        }
    }

    /// Whether the image has all of the columns.
    pub fn is_full(&self) -> bool
        ensures { result ≡ list_all is_some (cells_in self.now) }
    {
        for cell in &self.cells {
            if cell.is_none() {
                return false;
            }
        }
        true
    }

    /// Whether the image has each column that another has.
    pub fn has_all_of(&self, other: &RowCells<'_>) -> bool
        ensures all { result ≡ true → (column : ℕ) → IsMissing (cells_in self.now) (cells_in other.now) column → ⊥ }
        ensures missing { result ≡ false → (column : ℕ) × IsMissing (cells_in self.now) (cells_in other.now) column }
    {
        for column in 0..other.cells.len() {
            if other.get(column).is_some() && self.get(column).is_none() {
                return false;
            }
        }
        true
    }

    /// Takes the cells that are missing from another image.
    pub fn fill_from(&mut self, other: &RowCells<'a>)
        ensures { IsFilled (cells_in self.old) (cells_in other.now) (cells_in self.new) }
    {
        for column in 0..self.cells.len() {
            self.cells[column] = cell_or(self.get(column), other.get(column));
        }
    }
}
