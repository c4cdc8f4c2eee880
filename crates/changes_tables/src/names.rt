//! The names of a table's columns.

ghost use Rattle.std.specs.Prelude.{◌≡◌, map, IfOk, option_map};
ghost use Rattle.std.specs.Str.{is_utf8 as is_utf8_text};
ghost use Rattle.rows_errors.specs.Readings.{map_reading};
ghost use Rattle.rows_table_map.specs.Lists.{strings};
ghost use Rattle.rows_table_map.specs.MetadataViews.{names_view, name_view};
ghost use Rattle.changes_tables.specs.NamesOfColumns.{are_distinct as are_different, name_in, names_in, index_name as name_at, index_names as names_at, names_of};

use feed_writers::put_number;
use rows_errors::RowsError;
use rows_table_map::{ColumnName, ColumnNames};
use std::alloc::{AllocError, Global};
use std::collections::BTreeSet;
use std::str;

/// Returns whether these names are all different.
fn are_distinct(alloc: Global, names: &[Vec<u8>]) -> Result<bool, AllocError>
    ensures { IfOk result (λ are. are ≡ are_different (map (λ n. n.items) names.now)) }
{
    let mut found = BTreeSet::new(alloc);
    for name in names {
        if !found.insert(name.as_slice())? {
            return Ok(false);
        }
    }
    Ok(true)
}

/// Returns whether bytes are UTF-8.
fn is_utf8(bytes: &[u8]) -> bool
    ensures { result ≡ is_utf8_text bytes.now }
{
    match str::from_utf8(bytes) {
        Ok(_) => true,
        Err(_) => false,
    }
}

/// Returns a name; None if it can't be read or isn't UTF-8.
fn utf8_name(
    alloc: Global,
    name: Result<ColumnName<'_>, RowsError>,
) -> Result<Option<Vec<u8>>, AllocError>
    ensures { IfOk result (λ r. option_map (λ n. n.items) r ≡ name_in (map_reading name_view name.entry)) }
{
    match name {
        Ok(name) if is_utf8(name.name_raw()) => {
            Ok(Some(Vec::from_slice(alloc, name.name_raw())?))
        }
        _ => Ok(None),
    }
}

/// Returns the names of a field; None if one can't be read or isn't UTF-8.
fn logged_names(alloc: Global, names: ColumnNames<'_>) -> Result<Option<Vec<Vec<u8>>>, AllocError>
    ensures { IfOk result (λ r. option_map (λ v. map (λ n. n.items) v.items) r ≡ names_in (strings (names_view names.entry))) }
{
    let mut found = Vec::new(alloc);
    for name in names.iter_names() {
        let Some(name) = utf8_name(alloc, name)? else {
            return Ok(None);
        };
        found.push(name)?;
    }
    Ok(Some(found))
}

/// The maximum length of the name of a column that has none: `@` and twenty digits.
const INDEX_NAME_LEN: usize = 21;

/// Returns the name of a column that has none: `@0` for the first.
fn index_name(alloc: Global, index: usize) -> Result<Vec<u8>, AllocError>
    ensures { IfOk result (λ name. name.items ≡ name_at index) }
{
    let mut name = Vec::new(alloc);
    name.push(b'@')?;
    name.resize(INDEX_NAME_LEN, 0)?;
    let end = put_number(name.as_mut_slice(), 1, index as u64);
    name.truncate(end);
    Ok(name)
}

/// Returns the names of columns that have none.
fn index_names(alloc: Global, count: usize) -> Result<Vec<Vec<u8>>, AllocError>
    ensures { IfOk result (λ names. map (λ n. n.items) names.items ≡ names_at count) }
{
    let mut names = Vec::new(alloc);
    for index in 0..count {
        names.push(index_name(alloc, index)?)?;
    }
    Ok(names)
}

/// Returns the names of a table's columns: those of the field if it has one for each column, all of them UTF-8 and different;
/// otherwise those by the columns' indexes. `AllocError`: out of memory.
pub(crate) fn column_names(
    alloc: Global,
    names: Option<ColumnNames<'_>>,
    count: usize,
) -> Result<Vec<Vec<u8>>, AllocError>
    ensures { IfOk result (λ v. map (λ n. n.items) v.items ≡ names_of (option_map names_view names.entry) count) }
{
    if let Some(names) = names {
        if let Some(names) = logged_names(alloc, names)? {
            if names.len() == count && are_distinct(alloc, &names)? {
                return Ok(names);
            }
        }
    }
    index_names(alloc, count)
}
