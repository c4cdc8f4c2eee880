//! Tables by their table maps, with what is the same in all lines of a table.

ghost use Rattle.std.specs.Prelude.{◌≡◌, IfErr};
ghost use Rattle.changes_statements.specs.NoStatements.{IsMemoryOr};
ghost use Rattle.changes_statements.specs.declared.no_statement.NoStatement.TheVariants.{Names};

use crate::column_types::{put_type, type_number};
use crate::columns::{ColumnFacts, FormatColumn, metadata_of, type_of};
use crate::numbers::put_integer;
use crate::strings::put_string;
use changes_commands::Format;
use changes_statements::{NoStatement, SqlTable};
use changes_tables::{ShownTable, TableOptions};
use feed_change_log::TableRows;
use feed_text::TextBuffer;
use rows_table_map::{Bits, OptionalMetadataField, TableMapEvent};
use std::alloc::{AllocError, Global};
use std::collections::BTreeMap;

/// The length of a table's id and flags, which differ where the table is the same.
const ID_LEN: usize = 8;

/// The tables are dropped once there are so many.
const MAX_TABLES: usize = 4_096;

/// A table.
#[derive(Drop)]
pub(crate) struct FormatTable {
    pub(crate) columns: Vec<FormatColumn>,
    /// The indexes of the columns of the primary key; none if the table map has no key.
    pub(crate) key: Vec<usize>,
    /// The names of its database and of itself, as strings.
    pub(crate) database: Vec<u8>,
    pub(crate) name: Vec<u8>,
    /// A list of the names of the columns of its key; null if it has none.
    pub(crate) key_names: Vec<u8>,
    /// Canal's members `mysqlType` and `sqlType`.
    pub(crate) type_names: Vec<u8>,
    pub(crate) type_numbers: Vec<u8>,
}

/// The signs of numeric columns; None if the table map has none.
fn signs_of<'m>(map: &'m TableMapEvent<'_>) -> Option<Bits<'m>> {
    let mut signs = None;
    for field in map.iter_optional_meta() {
        if let Ok(OptionalMetadataField::Signedness(found)) = field {
            signs = Some(found);
        }
    }
    signs
}

/// Whether a bit is set.
fn is_set(bits: Option<Bits<'_>>, index: usize) -> bool {
    match bits {
        Some(bits) => bits.get(index) == Some(true),
        None => false,
    }
}

/// The columns of a table.
fn columns_of(
    alloc: Global,
    map: &TableMapEvent<'_>,
    shown: ShownTable,
    sql: &SqlTable,
) -> Result<Vec<FormatColumn>, AllocError> {
    let signs = signs_of(map);
    let mut numeric = 0usize;
    let mut metas = map.columns();
    let mut columns = Vec::new(alloc);
    let ShownTable {
        columns: shown_columns,
        ..
    } = shown;
    for shown in shown_columns {
        let index = columns.len();
        let (Some(column), Some(own)) = (metas.next_column(), sql.columns.get(index)) else {
            break;
        };
        let column_type = type_of(column);
        let mut is_unsigned = false;
        if column_type.is_numeric_type() {
            is_unsigned = is_set(signs, numeric);
            numeric = numeric.saturating_add(1);
        }
        columns.push(FormatColumn {
            shown,
            facts: ColumnFacts {
                column_type,
                metadata: metadata_of(column),
                is_unsigned,
                may_be_null: is_set(Some(map.null_bitmask()), index),
                padded_len: own.padded_len,
            },
        })?;
    }
    Ok(columns)
}

/// Bytes as a string.
fn string_of(alloc: Global, bytes: &[u8]) -> Result<Vec<u8>, AllocError> {
    let mut text = TextBuffer::new(alloc);
    put_string(bytes, &mut text)?;
    Vec::from_slice(alloc, text.as_slice())
}

/// A list of the names of the columns of a key; null if it has none.
fn key_names(alloc: Global, sql: &SqlTable) -> Result<Vec<u8>, AllocError> {
    let mut text = TextBuffer::new(alloc);
    if sql.key.is_empty() {
        return Vec::from_slice(alloc, b"null");
    }
    for index in &sql.key {
        let before = if text.len() == 0 { b'[' } else { b',' };
        text.put(before)?;
        if let Some(column) = sql.columns.get(*index) {
            put_string(&column.name, &mut text)?;
        }
    }
    text.put(b']')?;
    Vec::from_slice(alloc, text.as_slice())
}

/// What an object has of the type of a column.
#[derive(Clone, Copy)]
enum TypePart {
    Name,
    Number,
}

/// An object with a member for each column that has a part of its type.
fn types_of(
    alloc: Global,
    part: TypePart,
    columns: &[FormatColumn],
) -> Result<Vec<u8>, AllocError> {
    let mut text = TextBuffer::new(alloc);
    text.put(b'{')?;
    for column in columns {
        if text.len() > 1 {
            text.put(b',')?;
        }
        text.put_text(&column.shown.key)?;
        match part {
            TypePart::Name => put_type(column, &mut text)?,
            TypePart::Number => put_integer(Format::Maxwell, type_number(column), &mut text)?,
        }
    }
    text.put(b'}')?;
    Vec::from_slice(alloc, text.as_slice())
}

impl FormatTable {
    /// The table with this table map.
    ///
    /// - `Names`: the table map doesn't name the columns.
    /// - `Memory`: out of memory.
    fn of(
        alloc: Global,
        options: TableOptions,
        map: &TableMapEvent<'_>,
    ) -> Result<FormatTable, NoStatement>
        ensures { IfErr result (IsMemoryOr (λ e. e ≡ Names)) }
    {
        let sql = SqlTable::of(alloc, map)?;
        let shown = ShownTable::of(alloc, options, map)?;
        let columns = columns_of(alloc, map, shown, &sql)?;
        let key_names = key_names(alloc, &sql)?;
        let type_names = types_of(alloc, TypePart::Name, &columns)?;
        let type_numbers = types_of(alloc, TypePart::Number, &columns)?;
        let SqlTable { key, .. } = sql;
        Ok(FormatTable {
            columns,
            key,
            database: string_of(alloc, map.database_name_raw())?,
            name: string_of(alloc, map.table_name_raw())?,
            key_names,
            type_names,
            type_numbers,
        })
    }
}

/// The tables so far, by the bytes of their table maps after the id.
#[derive(Drop)]
pub(crate) struct FormatTables {
    alloc: Global,
    options: TableOptions,
    tables: Vec<FormatTable>,
    indexes: BTreeMap<Vec<u8>, usize>,
}

impl FormatTables {
    /// No tables; what their table maps don't say is as the options have it.
    pub(crate) fn new(alloc: Global, options: TableOptions) -> FormatTables {
        FormatTables {
            alloc,
            options,
            tables: Vec::new(alloc),
            indexes: BTreeMap::new(alloc),
        }
    }

    /// Adds the table of an event with these bytes of its table map, and returns its index.
    fn add(&mut self, rows: TableRows<'_>, bytes: &[u8]) -> Result<usize, NoStatement>
        ensures { IfErr result (IsMemoryOr (λ e. e ≡ Names)) }
    {
        let map = rows.table_map(self.alloc)?;
        let table = FormatTable::of(self.alloc, self.options, &map)?;
        if self.tables.len() >= MAX_TABLES {
            self.tables.clear();
            self.indexes.clear();
        }
        let index = self.tables.len();
        self.indexes
            .insert(Vec::from_slice(self.alloc, bytes)?, index)?;
        self.tables.push(table)?;
        Ok(index)
    }

    /// The table of an event.
    ///
    /// - `Names`: the log doesn't name the columns.
    /// - `Memory`: out of memory.
    pub(crate) fn table_of(&mut self, rows: TableRows<'_>) -> Result<&FormatTable, NoStatement>
        ensures { IfErr result (IsMemoryOr (λ e. e ≡ Names)) }
    {
        let bytes = rows.table_map_bytes().get(ID_LEN..).unwrap_or(&[]);
        let index = match self.indexes.get(bytes) {
            Some(index) => *index,
            None => self.add(rows, bytes)?,
        };
        match self.tables.get(index) {
            Some(table) => Ok(table),
            None => Err(NoStatement::Memory),
        }
    }
}
