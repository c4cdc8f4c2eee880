//! The images of rows as objects.

ghost use Rattle.std.specs.Prelude.{◌≡◌, IfErr};
ghost use Rattle.changes_statements.specs.NoStatements.{IsMemoryOr};
ghost use Rattle.changes_formats.specs.RefusedCells.{IsUnprinted, newest_of as newest};

use crate::columns::FormatColumn;
use crate::tables::FormatTable;
use crate::values::{Buffers, put_value};
use changes_commands::Format;
use changes_statements::{NoStatement, RowCells, RowChange};
use feed_text::TextBuffer;
use rows_cells::CellRef;
use std::alloc::Global;

/// Whether two cells are the same.
fn is_same(first: CellRef<'_>, second: CellRef<'_>) -> bool {
    match (first, second) {
        (CellRef::Null, CellRef::Null) => true,
        (CellRef::Int(a), CellRef::Int(b)) => a == b,
        (CellRef::UInt(a), CellRef::UInt(b)) => a == b,
        (CellRef::Float(a), CellRef::Float(b)) => a == b,
        (CellRef::Double(a), CellRef::Double(b)) => a == b,
        (CellRef::Bytes(a), CellRef::Bytes(b)) => a == b,
        (CellRef::Year(a), CellRef::Year(b)) => a == b,
        (CellRef::NewDate(a), CellRef::NewDate(b)) => a == b,
        (CellRef::OldTime(a), CellRef::OldTime(b)) => a == b,
        (CellRef::OldDatetime(a), CellRef::OldDatetime(b)) => a == b,
        (CellRef::Timestamp(a, c), CellRef::Timestamp(b, d)) => a == b && c == d,
        (CellRef::Datetime(a), CellRef::Datetime(b)) => a == b,
        (CellRef::Time(a), CellRef::Time(b)) => a == b,
        (CellRef::Decimal(_, _, a), CellRef::Decimal(_, _, b)) => a == b,
        (CellRef::Json(a), CellRef::Json(b)) => a == b,
        _ => false,
    }
}

/// The image after a change; that before it of a deleted row.
pub(crate) fn newest_of<'c, 'a>(change: RowChange<&'c RowCells<'a>>) -> &'c RowCells<'a>
    ensures { result ≡ newest change.entry }
{
    match change {
        RowChange::Inserted(cells) | RowChange::Deleted(cells) => cells,
        RowChange::Updated(_, after) => after,
    }
}

/// Which columns an object has.
#[derive(Clone, Copy)]
pub(crate) enum Taken<'c, 'a> {
    /// All of the image.
    All,
    /// Those whose value differs from that in another image, which has them too.
    Unlike(&'c RowCells<'a>),
}

impl Taken<'_, '_> {
    /// Whether the cell of a column is taken.
    fn takes(self, index: usize, cell: CellRef<'_>) -> bool {
        match self {
            Taken::All => true,
            Taken::Unlike(other) => match other.get(index) {
                Some(other) => !is_same(cell, other),
                None => false,
            },
        }
    }
}

/// Appends the member of a column, after a comma unless it is the first.
fn put_member(
    format: Format,
    column: &FormatColumn,
    cell: CellRef<'_>,
    is_first: bool,
    buffers: &mut Buffers,
    out: &mut TextBuffer<Global>,
) -> Result<(), NoStatement>
    ensures { IfErr result (IsMemoryOr IsUnprinted) }
{
    if !is_first {
        out.put(b',')?;
    }
    out.put_text(&column.shown.key)?;
    put_value(format, column, cell, buffers, out)?;
    Ok(())
}

/// Appends an object of the columns that an image has and that are taken.
pub(crate) fn put_image(
    format: Format,
    table: &FormatTable,
    cells: &RowCells<'_>,
    taken: Taken<'_, '_>,
    buffers: &mut Buffers,
    out: &mut TextBuffer<Global>,
) -> Result<(), NoStatement>
    ensures { IfErr result (IsMemoryOr IsUnprinted) }
{
    out.put(b'{')?;
    let mut is_first = true;
    for index in 0..table.columns.len() {
        if let Some(cell) = cells.get(index)
            && taken.takes(index, cell)
        {
            put_member(format, &table.columns[index], cell, is_first, buffers, out)?;
            is_first = false;
        }
    }
    out.put(b'}')?;
    Ok(())
}

/// Appends a list of the values of the key; null where an image has none.
pub(crate) fn put_key(
    format: Format,
    table: &FormatTable,
    cells: &RowCells<'_>,
    buffers: &mut Buffers,
    out: &mut TextBuffer<Global>,
) -> Result<(), NoStatement>
    ensures { IfErr result (IsMemoryOr IsUnprinted) }
{
    out.put(b'[')?;
    let mut is_first = true;
    for index in &table.key {
        if !is_first {
            out.put(b',')?;
        }
        is_first = false;
        match (table.columns.get(*index), cells.get(*index)) {
            (Some(column), Some(cell)) => put_value(format, column, cell, buffers, out)?,
            _ => out.put_text(b"null")?,
        }
    }
    out.put(b']')?;
    Ok(())
}
