//! A table as JSON lines show it.

ghost use Rattle.std.specs.Prelude.{◌≡◌, IfOk};
ghost use Rattle.std.specs.List.{list_any};
ghost use Rattle.rows_table_map.specs.MapViews.{map_of};
ghost use Rattle.changes_tables.specs.ShownTables.{IsShownTable, integer_types, text_types, is_type_of, lacks_of, names_member as names_of};

use crate::columns::{TableOptions, columns_of};
use crate::fields::TableFields;
use crate::key::key_member;
use crate::names::column_names;
use crate::shown_column::ShownColumn;
use crate::texts::append_name;
use rows_table_map::TableMapEvent;
use std::alloc::{AllocError, Global};
use wire_constants::ColumnType;

/// What table maps don't say of columns that they have.
#[derive(Clone, Copy)]
pub struct Lacks {
    /// Which integers are unsigned.
    pub signs: bool,
    /// The character sets of text.
    pub character_sets: bool,
}

/// Returns whether the number is that of an integer type.
fn is_integer(number: u8) -> bool
    ensures { result ≡ is_type_of integer_types number }
{
    number == ColumnType::MYSQL_TYPE_TINY as u8
        || number == ColumnType::MYSQL_TYPE_SHORT as u8
        || number == ColumnType::MYSQL_TYPE_INT24 as u8
        || number == ColumnType::MYSQL_TYPE_LONG as u8
        || number == ColumnType::MYSQL_TYPE_LONGLONG as u8
}

/// Returns whether the number is that of a type of text.
fn is_text(number: u8) -> bool
    ensures { result ≡ is_type_of text_types number }
{
    number == ColumnType::MYSQL_TYPE_STRING as u8
        || number == ColumnType::MYSQL_TYPE_VAR_STRING as u8
        || number == ColumnType::MYSQL_TYPE_VARCHAR as u8
        || number == ColumnType::MYSQL_TYPE_BLOB as u8
}

/// Returns whether one of these types is that of an integer.
fn has_integer(types: &[u8]) -> bool
    ensures { result ≡ list_any (is_type_of integer_types) types.now }
{
    for number in types {
        if is_integer(*number) {
            return true;
        }
    }
    false
}

/// Returns whether one of these types is that of text.
fn has_text(types: &[u8]) -> bool
    ensures { result ≡ list_any (is_type_of text_types) types.now }
{
    for number in types {
        if is_text(*number) {
            return true;
        }
    }
    false
}

impl Lacks {
    /// Returns what a table map lacks: without optional metadata both, if it has such columns; otherwise neither.
    fn of(map: &TableMapEvent<'_>) -> Lacks
        ensures { result ≡ lacks_of (map_of map.now) }
    {
        if !map.optional_metadata_raw().is_empty() {
            return Lacks {
                signs: false,
                character_sets: false,
            };
        }
        Lacks {
            signs: has_integer(map.column_types_raw()),
            character_sets: has_text(map.column_types_raw()),
        }
    }
}

/// A table: its columns, and what each line about its rows has.
#[derive(Drop)]
pub struct ShownTable {
    pub columns: Vec<ShownColumn>,
    /// The names of the database and the table, as members of an object: `"database":..,"table":..`.
    pub names: Vec<u8>,
    /// The primary key as a member of an object: `"primary_key":[..]`. Empty if the table map has no key that can be read.
    pub key: Vec<u8>,
    /// What the table map doesn't say.
    pub lacks: Lacks,
}

impl ShownTable {
    /// Returns the table with this table map. `AllocError`: out of memory.
    pub fn of(
        alloc: Global,
        options: TableOptions,
        map: &TableMapEvent<'_>,
    ) -> Result<ShownTable, AllocError>
        ensures { IfOk result (λ table. IsShownTable options (map_of map.now) table) }
    {
        let fields = TableFields::of(map);
        let count = map.column_types_raw().len();
        let names = column_names(alloc, fields.names, count)?;
        Ok(ShownTable {
            columns: columns_of(alloc, options, map, fields, &names)?,
            names: names_member(alloc, map)?,
            key: key_member(alloc, fields.key, &names, count)?,
            lacks: Lacks::of(map),
        })
    }
}

/// Returns the names of a table, as members of an object.
fn names_member(alloc: Global, map: &TableMapEvent<'_>) -> Result<Vec<u8>, AllocError>
    ensures { IfOk result (λ names. names.items ≡ names_of (map_of map.now)) }
{
    let mut names = Vec::new(alloc);
    names.extend_from_slice(b"\"database\":")?;
    append_name(map.database_name_raw(), &mut names)?;
    names.extend_from_slice(b",\"table\":")?;
    append_name(map.table_name_raw(), &mut names)?;
    Ok(names)
}
