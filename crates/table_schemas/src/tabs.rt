//! Lines as `mariadb --batch` and `mysql --batch` print them: cells with tabs between them.

use crate::fault::SchemaFaultKind;
use crate::numbers::{narrowed, number_in};
use crate::rows::Row;

/// The first line of a file.
pub(crate) const HEADER: &[u8] =
    b"database\ttable\tposition\tcolumn\ttype\tcollation\tkey_position\tkey_prefix";

/// What a cell has that is NULL.
const NULL: &[u8] = b"NULL";

/// The byte that a letter after a backslash stands for.
fn escaped(letter: u8) -> Option<u8> {
    match letter {
        b't' => Some(b'\t'),
        b'n' => Some(b'\n'),
        b'0' => Some(0),
        b'\\' => Some(b'\\'),
        _ => None,
    }
}

/// Reads the text of a cell.
fn read_text(cell: &[u8], text: &mut Vec<u8>) -> Result<(), SchemaFaultKind> {
    text.clear();
    let mut is_escape = false;
    for byte in cell {
        if is_escape {
            let Some(plain) = escaped(*byte) else {
                return Err(SchemaFaultKind::Escape);
            };
            text.push(plain)?;
            is_escape = false;
        } else if *byte == b'\\' {
            is_escape = true;
        } else {
            text.push(*byte)?;
        }
    }
    if is_escape {
        return Err(SchemaFaultKind::Escape);
    }
    Ok(())
}

/// The number of a cell that may be NULL.
fn optional_number(cell: &[u8]) -> Result<Option<u64>, SchemaFaultKind> {
    if cell == NULL {
        return Ok(None);
    }
    match number_in(cell) {
        Some(number) => Ok(Some(number)),
        None => Err(SchemaFaultKind::Number),
    }
}

/// The number of a collation that may be NULL.
fn collation_of(cell: &[u8]) -> Result<Option<u16>, SchemaFaultKind> {
    let Some(number) = optional_number(cell)? else {
        return Ok(None);
    };
    match narrowed(number) {
        Some(collation) => Ok(Some(collation)),
        None => Err(SchemaFaultKind::Number),
    }
}

/// How many cells a line has.
const CELLS: usize = 8;

/// Splits a line into its cells. Returns whether it has eight.
fn split_cells<'l>(line: &'l [u8], cells: &mut [&'l [u8]; CELLS]) -> bool {
    let mut count = 0;
    for cell in line.split(|byte| *byte == b'\t') {
        if count >= CELLS {
            return false;
        }
        cells[count] = cell;
        count += 1;
    }
    count == CELLS
}

/// Reads a line.
///
/// - `Cells`: it hasn't eight cells. `Escape`: a backslash is followed by another letter than t, n, 0 or a backslash.
/// - `Number`: a number can't be read.
/// - `Memory`: out of memory.
pub(crate) fn read_line(line: &[u8], row: &mut Row) -> Result<(), SchemaFaultKind> {
    let mut cells: [&[u8]; CELLS] = [&[]; CELLS];
    if !split_cells(line, &mut cells) {
        return Err(SchemaFaultKind::Cells);
    }
    let [
        database,
        table,
        position,
        name,
        type_text,
        collation,
        key_position,
        key_prefix,
    ] = cells;
    let Some(position) = number_in(position) else {
        return Err(SchemaFaultKind::Number);
    };
    row.position = position;
    read_text(database, &mut row.database)?;
    read_text(table, &mut row.table)?;
    read_text(name, &mut row.name)?;
    read_text(type_text, &mut row.type_text)?;
    row.collation = collation_of(collation)?;
    row.key_position = optional_number(key_position)?;
    row.key_prefix = optional_number(key_prefix)?;
    Ok(())
}
