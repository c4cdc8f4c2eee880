//! The statements of the rows of an event.

ghost use Rattle.std.specs.Prelude.{◌≡◌, ◌⊎◌, List, ℕ, [], IfErr, IfOk, OnOk, false, true};
ghost use Rattle.rows_cells.specs.RowViews.{IsBetweenRows};
ghost use Rattle.changes_statements.specs.NoStatements.{HasNoItems, IsMemoryOr};
ghost use Rattle.changes_statements.specs.RowsOfCells.{cells_in};
ghost use Rattle.changes_statements.specs.declared.no_statement.NoStatement.{NoStatement};
ghost use Rattle.changes_statements.specs.declared.no_statement.NoStatement.TheVariants.{Row};
ghost use Rattle.changes_statements.specs.StatementTexts.{HasOpen};
ghost use Rattle.changes_statements.specs.ReadRows.{ReadsNext};
ghost use Rattle.changes_statements.specs.EventStatements.{change_of, directed, AddsStatement, HasNoRow, HasNoTaken, IsOneWay, IsSecond, LacksBack, TakesRow};

use crate::literals::{Scratch, put_literal};
use crate::no_statement::NoStatement;
use crate::row_cells::RowCells;
use crate::row_change::RowChange;
use crate::sql_table::SqlTable;
use crate::statements::put_statement;
use crate::text_list::TextList;
use crate::texts::put_utf8;
use feed_change_log::TableRows;
use feed_text::TextBuffer;
use rows_cells::{CellRef, RowPart, RowsCursor};
use rows_event_body::RowImages;
use std::alloc::{AllocError, Global};

/// Whether statements make changes, or take them back.
#[derive(Clone, Copy, PartialEq, Eq)]
pub enum Direction {
    Forward,
    Back,
}

/// How many rows were inserted, deleted and updated.
#[derive(Clone, Copy)]
pub struct RowCounts {
    pub inserted: u64,
    pub deleted: u64,
    pub updated: u64,
}

/// Which rows are taken, and how.
#[derive(Clone, Copy)]
pub struct RowsTaken<'t> {
    pub direction: Direction,
    /// Columns, and the values that rows must have in them, before or after the change.
    pub conditions: &'t [(&'t [u8], &'t [u8])],
    /// Whether the changes are only counted.
    pub is_dry: bool,
    /// Whether changes without a statement are left out.
    pub leaves_out: bool,
}

/// Whether a literal is that of a value of the command line: the value itself, or a string of it.
fn is_value(
    literal: &[u8],
    value: &[u8],
    text: &mut TextBuffer<Global>,
) -> Result<bool, AllocError> {
    if literal == value {
        return Ok(true);
    }
    text.clear();
    put_utf8(value, text)?;
    if literal == text.as_slice() {
        return Ok(true);
    }
    let bare = match text.as_slice().get(8..) {
        Some(bare) => bare,
        None => &[],
    };
    Ok(literal == bare)
}

/// Whether a column of an image has a value.
fn has_value(
    alloc: Global,
    table: &SqlTable,
    cells: &RowCells<'_>,
    condition: (&[u8], &[u8]),
    scratch: &mut Scratch,
) -> Result<bool, NoStatement>
    ensures { IfErr result (IsMemoryOr (HasNoItems table.now.columns.items (cells_in cells.now))) }
{
    for index in 0..table.columns.len() {
        let column = &table.columns[index];
        if column.name.as_slice() == condition.0
            && let Some(cell) = cells.get(index)
        {
            let mut literal = TextBuffer::new(alloc);
            put_literal(column, cell, false, scratch, &mut literal)?;
            return Ok(is_value(literal.as_slice(), condition.1, scratch.text())?);
        }
    }
    Ok(false)
}

/// Whether an image of a row has all values.
fn meets_all(
    alloc: Global,
    table: &SqlTable,
    cells: &RowCells<'_>,
    conditions: &[(&[u8], &[u8])],
    scratch: &mut Scratch,
) -> Result<bool, NoStatement>
    ensures { IfErr result (IsMemoryOr (HasNoItems table.now.columns.items (cells_in cells.now))) }
{
    for condition in conditions {
        if !has_value(alloc, table, cells, *condition, scratch)? {
            return Ok(false);
        }
    }
    Ok(true)
}

/// Returns the change of a row with these images: `second` is used of an update alone.
pub fn change_of<'c, 'a>(
    images: RowImages,
    first: &'c RowCells<'a>,
    second: &'c RowCells<'a>,
) -> RowChange<&'c RowCells<'a>>
    ensures { result ≡ change_of images first.entry second.entry }
{
    match images {
        RowImages::After => RowChange::Inserted(first),
        RowImages::Before => RowChange::Deleted(first),
        RowImages::BeforeAndAfter | RowImages::BeforeAndPartialAfter => {
            RowChange::Updated(first, second)
        }
    }
}

/// Keeps a part of a row in its image. Returns whether the parts after it are those of the second image.
///
/// - `Row`: an image has no room for the column.
fn keep_part<'a>(
    part: RowPart<'a>,
    is_second: bool,
    first: &mut RowCells<'a>,
    second: &mut RowCells<'a>,
) -> Result<bool, NoStatement>
    ensures { IfErr result (λ e. e ≡ Row) }
{
    match part {
        RowPart::NextImage | RowPart::EndOfRow => Ok(true),
        RowPart::Cell(column, cell) => {
            let cells = if is_second { second } else { first };
            if !cells.set(column, cell) {
                return Err(NoStatement::Row);
            }
            Ok(is_second)
        }
    }
}

/// Reads the next row: its first image, and its second if it has two. Returns whether there was one: false after the last row.
///
/// - `Row`: it can't be read, or an image has no room for one of its columns. The images may have a part of it.
pub fn read_row<'a>(
    cursor: &mut RowsCursor<'_, 'a>,
    first: &mut RowCells<'a>,
    second: &mut RowCells<'a>,
) -> Result<bool, NoStatement>
    ensures row { (bytes : List ℕ) → IsBetweenRows cursor.old bytes → IfOk result (λ found. ReadsNext bytes cursor.old found cursor.new) }
    ensures err { IfErr result (λ e. e ≡ Row) }
{
    first.clear();
    second.clear();
    let mut is_second = false;
    for _ in 0..u64::MAX {
        let part = match cursor.next_part() {
            Ok(Some(part)) => part,
            Ok(None) => return Ok(false),
            Err(_) => return Err(NoStatement::Row),
        };
        if let RowPart::EndOfRow = part {
            return Ok(true);
        }
        is_second = keep_part(part, is_second, first, second)?;
    }
    Err(NoStatement::Row)
}

/// Whether an image has all columns that what takes a change back needs.
fn has_all_back(images: RowImages, first: &RowCells<'_>, second: &RowCells<'_>) -> bool
    ensures all { result ≡ true → LacksBack images (cells_in first.now) (cells_in second.now) → ⊥ }
    ensures missing { result ≡ false → LacksBack images (cells_in first.now) (cells_in second.now) }
{
    match images {
        RowImages::After => true,
        RowImages::Before => first.is_full(),
        RowImages::BeforeAndAfter | RowImages::BeforeAndPartialAfter => first.has_all_of(second),
    }
}

/// Completes the second image: what takes an update back has the columns that the update leaves as they were.
///
/// - `Columns`: the change can't be taken back, since its images lack columns.
fn complete<'a>(
    direction: Direction,
    images: RowImages,
    first: &RowCells<'a>,
    second: &mut RowCells<'a>,
) -> Result<(), NoStatement>
    ensures ok { OnOk result (IsSecond direction images (cells_in first.now) (cells_in second.old) (cells_in second.new)) }
    ensures err { IfErr result (IsOneWay direction images (cells_in first.now) (cells_in second.old)) }
{
    match direction {
        Direction::Forward => Ok(()),
        Direction::Back => {
            if !has_all_back(images, first, second) {
                return Err(NoStatement::Columns);
            }
            second.fill_from(first);
            Ok(())
        }
    }
}

/// The change itself, or what takes it back.
fn directed<T>(direction: Direction, change: RowChange<T>) -> RowChange<T>
    ensures { result ≡ directed direction change }
{
    match direction {
        Direction::Forward => change,
        Direction::Back => change.turned_round(),
    }
}

/// Adds the statement of a row, or what takes its change back.
fn add_row<'a>(
    table: &SqlTable,
    images: RowImages,
    direction: Direction,
    first: &RowCells<'a>,
    second: &mut RowCells<'a>,
    scratch: &mut Scratch,
    texts: &mut TextList,
) -> Result<(), NoStatement>
    ensures text { OnOk result ((ts : List (List ℕ)) → HasOpen texts.old ts [] → AddsStatement table.now (directed direction (change_of images (cells_in first.now) (cells_in second.new))) ts texts.new) }
    ensures second { OnOk result (IsSecond direction images (cells_in first.now) (cells_in second.old) (cells_in second.new)) }
    ensures err { IfErr result (IsMemoryOr (HasNoRow table.now images direction (cells_in first.now) (cells_in second.old) (cells_in second.new))) }
{
    complete(direction, images, first, second)?;
    let change = directed(direction, change_of(images, first, second));
    put_statement(table, change, scratch, &mut texts.buffer)?;
    texts.close()?;
    Ok(())
}

impl RowCounts {
    /// No rows.
    pub const NONE: RowCounts = RowCounts {
        inserted: 0,
        deleted: 0,
        updated: 0,
    };

    /// Counts a row with these images.
    fn count(&mut self, images: RowImages) {
        let place = match images {
            RowImages::After => &mut self.inserted,
            RowImages::Before => &mut self.deleted,
            RowImages::BeforeAndAfter | RowImages::BeforeAndPartialAfter => &mut self.updated,
        };
        *place = place.saturating_add(1);
    }

    /// The number of all rows.
    pub fn all(&self) -> u64 {
        self.inserted
            .saturating_add(self.deleted)
            .saturating_add(self.updated)
    }

    /// Adds other rows.
    pub fn add(&mut self, other: RowCounts) {
        self.inserted = self.inserted.saturating_add(other.inserted);
        self.deleted = self.deleted.saturating_add(other.deleted);
        self.updated = self.updated.saturating_add(other.updated);
    }
}

/// Adds a comment in place of a statement.
fn add_comment(why: NoStatement, texts: &mut TextList) -> Result<(), AllocError> {
    texts.drop_open();
    let text = &mut texts.buffer;
    text.put_text(b"-- left out: ")?;
    text.put_text(word_of(why))?;
    text.put(b'\n')?;
    texts.close()
}

/// A short reason.
fn word_of(why: NoStatement) -> &'static [u8] {
    match why {
        NoStatement::Names => b"the log doesn't name the columns",
        NoStatement::OtherColumns => b"the table's columns changed in between",
        NoStatement::Columns => b"the log doesn't have all columns of the row",
        NoStatement::PartialUpdate => b"a JSON document was updated in part",
        NoStatement::Document => b"a JSON document has values that JSON text doesn't have",
        NoStatement::Statement => b"a statement",
        NoStatement::Memory | NoStatement::Row | NoStatement::Float => b"a row",
    }
}

/// Whether the images of a row meet all conditions, before the change or after it.
fn is_taken(
    alloc: Global,
    table: &SqlTable,
    first: &RowCells<'_>,
    second: &RowCells<'_>,
    conditions: &[(&[u8], &[u8])],
    scratch: &mut Scratch,
) -> Result<bool, NoStatement>
    ensures { IfErr result (IsMemoryOr (HasNoTaken table.now (cells_in first.now) (cells_in second.now))) }
{
    if meets_all(alloc, table, first, conditions, scratch)? {
        return Ok(true);
    }
    meets_all(alloc, table, second, conditions, scratch)
}

/// Adds a comment in place of a statement, or returns why there is none.
fn leave_out(leaves_out: bool, why: NoStatement, texts: &mut TextList) -> Result<(), NoStatement>
    ensures ok { OnOk result (leaves_out ≡ true) }
    ensures err { IfErr result (IsMemoryOr (λ e. (leaves_out ≡ false) × (e ≡ why))) }
{
    if !leaves_out {
        return Err(why);
    }
    add_comment(why, texts)?;
    Ok(())
}

/// Adds the statement of a row that is taken, or a comment in its place, unless changes are only counted.
fn add_taken_row<'a>(
    table: &SqlTable,
    images: RowImages,
    taken: RowsTaken<'_>,
    first: &RowCells<'a>,
    second: &mut RowCells<'a>,
    scratch: &mut Scratch,
    texts: &mut TextList,
) -> Result<(), NoStatement>
    ensures dry { taken.entry.is_dry ≡ true → OnOk result (texts.new ≡ texts.old) }
    ensures ok { taken.entry.is_dry ≡ false → OnOk result (TakesRow table.now images taken.entry.direction taken.entry.leaves_out (cells_in first.now) (cells_in second.old) (cells_in second.new) texts.old texts.new) }
    ensures err { IfErr result (IsMemoryOr (λ e. (taken.entry.leaves_out ≡ false) × HasNoRow table.now images taken.entry.direction (cells_in first.now) (cells_in second.old) (cells_in second.new) e)) }
{
    if taken.is_dry {
        return Ok(());
    }
    match add_row(
        table,
        images,
        taken.direction,
        first,
        second,
        scratch,
        texts,
    ) {
        Ok(()) => Ok(()),
        Err(NoStatement::Memory) => Err(NoStatement::Memory),
        Err(why) => leave_out(taken.leaves_out, why, texts),
    }
}

/// Adds the statements of the rows of an event of a table, each as a text. Returns how many rows were taken.
///
/// The errors are those of `put_statement`, and:
///
/// - `Row`: a row can't be read.
pub fn add_rows(
    alloc: Global,
    table: &SqlTable,
    rows: TableRows<'_>,
    taken: RowsTaken<'_>,
    scratch: &mut Scratch,
    texts: &mut TextList,
) -> Result<RowCounts, NoStatement> {
    let mut counts = RowCounts::NONE;
    let mut first = RowCells::new(alloc, table.columns.len())?;
    let mut second = RowCells::new(alloc, table.columns.len())?;
    let mut cursor = rows.cursor();
    let images = rows.images();
    for _ in 0..u64::MAX {
        if !read_row(&mut cursor, &mut first, &mut second)? {
            return Ok(counts);
        }
        if is_taken(alloc, table, &first, &second, taken.conditions, scratch)? {
            counts.count(images);
            add_taken_row(table, images, taken, &first, &mut second, scratch, texts)?;
        }
    }
    Err(NoStatement::Row)
}
