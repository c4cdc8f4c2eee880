//! A table, by its table map.

ghost use Rattle.std.specs.Prelude.{◌≡◌, IfErr};
ghost use Rattle.changes_statements.specs.NoStatements.{IsMemoryOr};
ghost use Rattle.changes_statements.specs.declared.no_statement.NoStatement.TheVariants.{Names};

use crate::no_statement::NoStatement;
use crate::quoting::put_name;
use changes_tables::{Shown, ShownTable, TableOptions};
use feed_text::TextBuffer;
use rows_errors::RowsError;
use rows_table_map::{
    ColumnMeta, ColumnNames, OptionalMetadataField, PrimaryKeysWithPrefix, SimplePrimaryKey,
    TableMapEvent,
};
use std::alloc::{AllocError, Global};

/// The number of the type of CHAR and BINARY columns.
const STRING: u8 = 254;

/// A column of a table.
#[derive(Drop)]
pub struct SqlColumn {
    /// Its name.
    pub name: Vec<u8>,
    /// Its name in backticks.
    pub quoted: Vec<u8>,
    /// How its values are shown.
    pub shown: Shown,
    /// The length of the values of a BINARY column, whose zeros at the end the log doesn't have; 0 for another column.
    pub padded_len: u8,
}

/// A table: its name, its columns, and its key.
#[derive(Drop)]
pub struct SqlTable {
    /// Its name after that of its database, in backticks.
    pub name: Vec<u8>,
    pub columns: Vec<SqlColumn>,
    /// The indexes of the columns of the primary key; none if the table map has no key.
    pub key: Vec<usize>,
}

/// The columns of a key, as a table map has them.
#[derive(Clone, Copy)]
enum KeyColumns<'a> {
    Simple(SimplePrimaryKey<'a>),
    WithPrefixes(PrimaryKeysWithPrefix<'a>),
}

/// Names and key, as a table map has them.
#[derive(Clone, Copy)]
struct NamesAndKey<'a> {
    names: Option<ColumnNames<'a>>,
    key: Option<KeyColumns<'a>>,
}

/// The names and the key of a table map: of several fields of a kind the last one.
fn names_and_key<'a>(map: &'a TableMapEvent<'_>) -> NamesAndKey<'a> {
    let mut found = NamesAndKey {
        names: None,
        key: None,
    };
    for field in map.iter_optional_meta() {
        match field {
            Ok(OptionalMetadataField::ColumnName(names)) => found.names = Some(names),
            Ok(OptionalMetadataField::SimplePrimaryKey(key)) => {
                found.key = Some(KeyColumns::Simple(key));
            }
            Ok(OptionalMetadataField::PrimaryKeyWithPrefix(key)) => {
                found.key = Some(KeyColumns::WithPrefixes(key));
            }
            _ => {}
        }
    }
    found
}

/// Adds the index of a column of a key; false if it can't be read, or isn't that of a column.
fn add_key_column(
    index: Result<u64, RowsError>,
    count: usize,
    columns: &mut Vec<usize>,
) -> Result<bool, AllocError> {
    match index {
        Ok(index) if index < count as u64 => {
            columns.push(index as usize)?;
            Ok(true)
        }
        _ => Ok(false),
    }
}

/// The indexes of the columns of a key; none if one can't be read.
fn key_of(
    alloc: Global,
    key: Option<KeyColumns<'_>>,
    count: usize,
) -> Result<Vec<usize>, AllocError> {
    let mut columns = Vec::new(alloc);
    match key {
        Some(KeyColumns::Simple(key)) => {
            for index in key.iter_indexes() {
                if !add_key_column(index, count, &mut columns)? {
                    return Ok(Vec::new(alloc));
                }
            }
        }
        Some(KeyColumns::WithPrefixes(key)) => {
            for column in key.iter_keys() {
                let index = match column {
                    Ok(column) => Ok(column.column_index()),
                    Err(fault) => Err(fault),
                };
                if !add_key_column(index, count, &mut columns)? {
                    return Ok(Vec::new(alloc));
                }
            }
        }
        None => {}
    }
    Ok(columns)
}

/// Bytes in backticks.
fn quoted(alloc: Global, name: &[u8]) -> Result<Vec<u8>, AllocError> {
    let mut text = TextBuffer::new(alloc);
    put_name(name, &mut text)?;
    Vec::from_slice(alloc, text.as_slice())
}

/// The name of a table, after that of its database.
fn full_name(alloc: Global, map: &TableMapEvent<'_>) -> Result<Vec<u8>, AllocError> {
    let mut text = TextBuffer::new(alloc);
    put_name(map.database_name_raw(), &mut text)?;
    text.put(b'.')?;
    put_name(map.table_name_raw(), &mut text)?;
    Vec::from_slice(alloc, text.as_slice())
}

/// The length to which values of a column are padded.
fn padded_len(column: ColumnMeta<'_>, shown: Shown) -> u8 {
    match (shown, column.metadata) {
        (Shown::Binary, [real_type, len, ..]) if column.number == STRING && *real_type == STRING =>
            { *len }
        _ => 0,
    }
}

/// A column with this name.
fn column_of(
    alloc: Global,
    name: &[u8],
    column: ColumnMeta<'_>,
    shown: Shown,
) -> Result<SqlColumn, AllocError> {
    Ok(SqlColumn {
        name: Vec::from_slice(alloc, name)?,
        quoted: quoted(alloc, name)?,
        shown,
        padded_len: padded_len(column, shown),
    })
}

/// The columns of a table, which have these names. `Names`: there are fewer names; `Memory`: out of memory.
fn columns_of(
    alloc: Global,
    map: &TableMapEvent<'_>,
    names: ColumnNames<'_>,
    shown: &ShownTable,
) -> Result<Vec<SqlColumn>, NoStatement>
    ensures { IfErr result (IsMemoryOr (λ e. e ≡ Names)) }
{
    let mut metas = map.columns();
    let mut names = names.iter_names();
    let mut columns = Vec::new(alloc);
    for shown in &shown.columns {
        let (Some(column), Some(Ok(name))) = (metas.next_column(), names.next()) else {
            return Err(NoStatement::Names);
        };
        columns.push(column_of(alloc, name.name_raw(), column, shown.shown)?)?;
    }
    Ok(columns)
}

impl SqlTable {
    /// The table with this table map.
    ///
    /// - `Names`: the table map doesn't name the columns.
    /// - `Memory`: out of memory.
    pub fn of(alloc: Global, map: &TableMapEvent<'_>) -> Result<SqlTable, NoStatement>
        ensures { IfErr result (IsMemoryOr (λ e. e ≡ Names)) }
    {
        let options = TableOptions {
            unnamed: Shown::Unknown,
            quotes_numbers: false,
        };
        let shown = ShownTable::of(alloc, options, map)?;
        let found = names_and_key(map);
        let Some(names) = found.names else {
            return Err(NoStatement::Names);
        };
        let columns = columns_of(alloc, map, names, &shown)?;
        Ok(SqlTable {
            name: full_name(alloc, map)?,
            key: key_of(alloc, found.key, columns.len())?,
            columns,
        })
    }
}
