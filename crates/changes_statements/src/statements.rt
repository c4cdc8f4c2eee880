//! The statement of a change.

ghost use Rattle.std.specs.Prelude.{◌≡◌, ◌+◌, ◌++◌, List, ℕ, [], IfErr, IfOk, OnOk, codes, not, if◌then◌else◌};
ghost use Rattle.feed_text.specs.Buffers.{text_in};
ghost use Rattle.changes_statements.specs.declared.row_change.RowChange.TheVariants.{Updated};
ghost use Rattle.changes_writers.specs.FloatTexts.{AppendsSuch};
ghost use Rattle.changes_statements.specs.NoStatements.{HasNoComparison, HasNoCondition, HasNoItems, HasNoKey, HasNoLiteral, HasNoneOfAll, HasNoStatement, HasNoValue, IsMemoryOr};
ghost use Rattle.changes_statements.specs.RowsOfCells.{cells_in};
ghost use Rattle.changes_statements.specs.SqlStatements.{cells_of, compared, HasComparisons, HasItems, IsComparison, IsComparisonOfAll, IsComparisonOfKey, IsCondition, IsDelete, IsInsert, IsItem, IsItemList, IsStatement, IsUpdate, may_be_text};

use crate::literals::{Scratch, put_literal};
use crate::no_statement::NoStatement;
use crate::row_cells::RowCells;
use crate::row_change::RowChange;
use crate::sql_table::{SqlColumn, SqlTable};
use changes_tables::Shown;
use feed_text::TextBuffer;
use rows_cells::CellRef;
use std::alloc::{AllocError, Global};

/// What a list has of each column.
#[derive(Clone, Copy)]
pub(crate) enum Item {
    Name,
    Value,
    /// The name, an equals sign, and the value.
    Assignment,
}

/// Appends a separator, unless nothing is before it.
fn put_between(
    is_first: bool,
    separator: &[u8],
    out: &mut TextBuffer<Global>,
) -> Result<(), AllocError>
    ensures { OnOk result (text_in out.new ≡ text_in out.old ++ (if is_first then [] else separator.now)) }
{
    if is_first {
        return Ok(());
    }
    out.put_text(separator)
}

/// Appends what a list has of a column and its cell.
#[tactic(auto, unfolding(crate::specs::SqlStatements::IsItem))]
fn put_item(
    item: Item,
    column: &SqlColumn,
    cell: CellRef<'_>,
    scratch: &mut Scratch,
    out: &mut TextBuffer<Global>,
) -> Result<(), NoStatement>
    ensures text { OnOk result (AppendsSuch (IsItem item column.now cell.entry) (text_in out.old) (text_in out.new)) }
    ensures err { IfErr result (IsMemoryOr (HasNoLiteral cell.entry)) }
{
    match item {
        Item::Name => {
            out.put_text(&column.quoted)?;
            Ok(())
        }
        Item::Value => put_literal(column, cell, false, scratch, out),
        Item::Assignment => {
            out.put_text(&column.quoted)?;
            out.put(b'=')?;
            put_literal(column, cell, false, scratch, out)?;
            Ok(())
        }
    }
}

/// Appends what a list has of the column at an index, if the image has it. Returns whether nothing of the list was appended so far.
fn put_next_item(
    item: Item,
    table: &SqlTable,
    cells: &RowCells<'_>,
    index: usize,
    is_first: bool,
    scratch: &mut Scratch,
    out: &mut TextBuffer<Global>,
) -> Result<bool, NoStatement>
    ensures text { IfOk result (λ first. (start : List ℕ) → HasItems item table.now.columns.items (cells_in cells.now) index is_first start (text_in out.old)
        → HasItems item table.now.columns.items (cells_in cells.now) (index + 1) first start (text_in out.new)) }
    ensures err { IfErr result (IsMemoryOr (HasNoValue table.now.columns.items (cells_in cells.now) index)) }
{
    let Some(column) = table.columns.get(index) else {
        return Ok(is_first);
    };
    let Some(cell) = cells.get(index) else {
        return Ok(is_first);
    };
    put_between(is_first, b",", out)?;
    put_item(item, column, cell, scratch, out)?;
    Ok(false)
}

/// Appends a list of the columns of an image, with commas between them.
fn put_items(
    item: Item,
    table: &SqlTable,
    cells: &RowCells<'_>,
    scratch: &mut Scratch,
    out: &mut TextBuffer<Global>,
) -> Result<(), NoStatement>
    ensures text { OnOk result (AppendsSuch (IsItemList item table.now.columns.items (cells_in cells.now)) (text_in out.old) (text_in out.new)) }
    ensures err { IfErr result (IsMemoryOr (HasNoItems table.now.columns.items (cells_in cells.now))) }
{
    let mut is_first = true;
    for index in 0..table.columns.len() {
        is_first = put_next_item(item, table, cells, index, is_first, scratch, out)?;
    }
    Ok(())
}

/// Whether the values of a column may be text, which is compared as bytes.
fn may_be_text(shown: Shown) -> bool
    ensures { result ≡ may_be_text shown }
{
    match shown {
        Shown::Text(_) | Shown::Unknown => true,
        _ => false,
    }
}

/// Appends what the cell of a column is compared with, and how. A key is compared by its collation, so that an index finds it; the text
/// of other columns as bytes.
#[tactic(auto, unfolding(crate::specs::SqlStatements::compared))]
fn put_compared(
    column: &SqlColumn,
    is_key: bool,
    out: &mut TextBuffer<Global>,
) -> Result<(), AllocError>
    ensures { OnOk result (text_in out.new ≡ text_in out.old ++ compared is_key column.now) }
{
    if is_key {
        out.put_text(&column.quoted)?;
        return out.put(b'=');
    }
    if may_be_text(column.shown) {
        out.put_text(b"CAST(")?;
        out.put_text(&column.quoted)?;
        return out.put_text(b" AS BINARY)<=>");
    }
    out.put_text(&column.quoted)?;
    out.put_text(b"<=>")
}

/// Appends the comparison of a column with its cell.
///
/// - `Columns`: the image doesn't have the column.
fn put_comparison(
    is_key: bool,
    table: &SqlTable,
    cells: &RowCells<'_>,
    index: usize,
    scratch: &mut Scratch,
    out: &mut TextBuffer<Global>,
) -> Result<(), NoStatement>
    ensures text { OnOk result (AppendsSuch (IsComparison is_key table.now.columns.items (cells_in cells.now) index) (text_in out.old) (text_in out.new)) }
    ensures err { IfErr result (IsMemoryOr (HasNoComparison table.now.columns.items (cells_in cells.now) index)) }
{
    let Some(column) = table.columns.get(index) else {
        return Err(NoStatement::Columns);
    };
    let Some(cell) = cells.get(index) else {
        return Err(NoStatement::Columns);
    };
    put_compared(column, is_key, out)?;
    put_literal(column, cell, !is_key, scratch, out)?;
    Ok(())
}

/// Appends the condition that a row has the key of an image.
fn put_key(
    table: &SqlTable,
    cells: &RowCells<'_>,
    scratch: &mut Scratch,
    out: &mut TextBuffer<Global>,
) -> Result<(), NoStatement>
    ensures text { OnOk result (AppendsSuch (IsComparisonOfKey table.now (cells_in cells.now)) (text_in out.old) (text_in out.new)) }
    ensures err { IfErr result (IsMemoryOr (HasNoKey table.now (cells_in cells.now))) }
{
    for place in 0..table.key.len() {
        put_between(place == 0, b" AND ", out)?;
        put_comparison(true, table, cells, table.key[place], scratch, out)?;
    }
    Ok(())
}

/// Appends the condition that a row has all values of an image.
fn put_all_columns(
    table: &SqlTable,
    cells: &RowCells<'_>,
    scratch: &mut Scratch,
    out: &mut TextBuffer<Global>,
) -> Result<(), NoStatement>
    ensures text { OnOk result (AppendsSuch (IsComparisonOfAll table.now (cells_in cells.now)) (text_in out.old) (text_in out.new)) }
    ensures err { IfErr result (IsMemoryOr (HasNoneOfAll table.now (cells_in cells.now))) }
{
    for index in 0..table.columns.len() {
        put_between(index == 0, b" AND ", out)?;
        put_comparison(false, table, cells, index, scratch, out)?;
    }
    Ok(())
}

/// Appends the condition that finds the row of an image: by the key, or else by all columns, one of equal rows.
fn put_condition(
    table: &SqlTable,
    cells: &RowCells<'_>,
    scratch: &mut Scratch,
    out: &mut TextBuffer<Global>,
) -> Result<(), NoStatement>
    ensures text { OnOk result (AppendsSuch (IsCondition table.now (cells_in cells.now)) (text_in out.old) (text_in out.new)) }
    ensures err { IfErr result (IsMemoryOr (HasNoCondition table.now (cells_in cells.now))) }
{
    out.put_text(b" WHERE ")?;
    if !table.key.is_empty() {
        put_key(table, cells, scratch, out)?;
        return Ok(());
    }
    put_all_columns(table, cells, scratch, out)?;
    out.put_text(b" LIMIT 1")?;
    Ok(())
}

/// Appends the insertion of a row.
fn put_insert(
    table: &SqlTable,
    cells: &RowCells<'_>,
    scratch: &mut Scratch,
    out: &mut TextBuffer<Global>,
) -> Result<(), NoStatement>
    ensures text { OnOk result (AppendsSuch (IsInsert table.now (cells_in cells.now)) (text_in out.old) (text_in out.new)) }
    ensures err { IfErr result (IsMemoryOr (HasNoItems table.now.columns.items (cells_in cells.now))) }
{
    out.put_text(b"INSERT INTO ")?;
    out.put_text(&table.name)?;
    out.put_text(b" (")?;
    put_items(Item::Name, table, cells, scratch, out)?;
    out.put_text(b") VALUES (")?;
    put_items(Item::Value, table, cells, scratch, out)?;
    out.put_text(b");\n")?;
    Ok(())
}

/// Appends the deletion of a row.
fn put_delete(
    table: &SqlTable,
    cells: &RowCells<'_>,
    scratch: &mut Scratch,
    out: &mut TextBuffer<Global>,
) -> Result<(), NoStatement>
    ensures text { OnOk result (AppendsSuch (IsDelete table.now (cells_in cells.now)) (text_in out.old) (text_in out.new)) }
    ensures err { IfErr result (IsMemoryOr (HasNoCondition table.now (cells_in cells.now))) }
{
    out.put_text(b"DELETE FROM ")?;
    out.put_text(&table.name)?;
    put_condition(table, cells, scratch, out)?;
    out.put_text(b";\n")?;
    Ok(())
}

/// Appends the update of a row.
fn put_update(
    table: &SqlTable,
    before: &RowCells<'_>,
    after: &RowCells<'_>,
    scratch: &mut Scratch,
    out: &mut TextBuffer<Global>,
) -> Result<(), NoStatement>
    ensures text { OnOk result (AppendsSuch (IsUpdate table.now (cells_in before.now) (cells_in after.now)) (text_in out.old) (text_in out.new)) }
    ensures err { IfErr result (IsMemoryOr (HasNoStatement table.now (Updated (cells_in before.now) (cells_in after.now)))) }
{
    out.put_text(b"UPDATE ")?;
    out.put_text(&table.name)?;
    out.put_text(b" SET ")?;
    put_items(Item::Assignment, table, after, scratch, out)?;
    put_condition(table, before, scratch, out)?;
    out.put_text(b";\n")?;
    Ok(())
}

/// Appends the statement that makes a change of a row of a table, and a line feed. An error may leave a part of it.
///
/// - `Columns`: the image by which the row is found lacks a column of the key, or of all columns if there is no key.
/// - `PartialUpdate`, `Document`, `Float`, `Row`: a value has no literal, as [`put_literal`] says.
/// - `Memory`: out of memory.
pub fn put_statement(
    table: &SqlTable,
    change: RowChange<&RowCells<'_>>,
    scratch: &mut Scratch,
    out: &mut TextBuffer<Global>,
) -> Result<(), NoStatement>
    ensures text { OnOk result (AppendsSuch (IsStatement table.now (cells_of change.entry)) (text_in out.old) (text_in out.new)) }
    ensures err { IfErr result (IsMemoryOr (HasNoStatement table.now (cells_of change.entry))) }
{
    match change {
        RowChange::Inserted(cells) => put_insert(table, cells, scratch, out),
        RowChange::Deleted(cells) => put_delete(table, cells, scratch, out),
        RowChange::Updated(before, after) => put_update(table, before, after, scratch, out),
    }
}
