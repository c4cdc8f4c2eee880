//! The primary key of a table.

ghost use Rattle.std.specs.Prelude.{◌≡◌, ◌∷◌, ◌++◌, [], map, IfOk, OnOk, option_map, unwrap_or, slice_get};
ghost use Rattle.std.specs.List.{flat_map};
ghost use Rattle.rows_errors.specs.Readings.{map_reading};
ghost use Rattle.rows_table_map.specs.MetadataViews.{indexes_view, keys_view};
ghost use Rattle.changes_tables.specs.UsedMetadata.{simple, with_prefixes};
ghost use Rattle.changes_tables.specs.PrimaryKeys.{key_entries, columns_at, column_in, key_columns as columns_of_key, name_json, key_member as member_of};
ghost use Rattle.changes_tables.specs.FieldViews.{key_view};

use crate::fields::KeyField;
use crate::texts::append_string;
use rows_errors::RowsError;
use rows_table_map::{PrimaryKeyWithPrefix, PrimaryKeysWithPrefix, SimplePrimaryKey};
use std::alloc::{AllocError, Global};

/// Returns the index of one of so many columns; None if it can't be read, or isn't that of a column.
fn column_at(index: Result<u64, RowsError>, count: usize) -> Option<usize>
    ensures { result ≡ column_in count index }
{
    match index {
        Ok(index) if index < count as u64 => Some(index as usize),
        _ => None,
    }
}

/// Returns the columns of a key without prefixes; none if one can't be read or isn't below `count`.
fn simple_columns(
    alloc: Global,
    key: SimplePrimaryKey<'_>,
    count: usize,
) -> Result<Vec<usize>, AllocError>
    ensures { IfOk result (λ v. v.items ≡ columns_at count (key_entries (simple (indexes_view key.entry)))) }
{
    let mut columns = Vec::new(alloc);
    for index in key.iter_indexes() {
        let Some(column) = column_at(index, count) else {
            return Ok(Vec::new(alloc));
        };
        columns.push(column)?;
    }
    Ok(columns)
}

/// Returns the index of a column with a prefix.
fn index_of(column: Result<PrimaryKeyWithPrefix, RowsError>) -> Result<u64, RowsError>
    ensures { result ≡ map_reading (λ c. c.column_index) column }
{
    match column {
        Ok(column) => Ok(column.column_index()),
        Err(fault) => Err(fault),
    }
}

/// Returns the columns of a key with prefixes; none if one can't be read or isn't below `count`.
fn prefixed_columns(
    alloc: Global,
    key: PrimaryKeysWithPrefix<'_>,
    count: usize,
) -> Result<Vec<usize>, AllocError>
    ensures { IfOk result (λ v. v.items ≡ columns_at count (key_entries (with_prefixes (keys_view key.entry)))) }
{
    let mut columns = Vec::new(alloc);
    for column in key.iter_keys() {
        let Some(column) = column_at(index_of(column), count) else {
            return Ok(Vec::new(alloc));
        };
        columns.push(column)?;
    }
    Ok(columns)
}

/// Returns the columns of the primary key, in the key's order; none if the table map has no key, or one that can't be read.
fn key_columns(
    alloc: Global,
    key: Option<KeyField<'_>>,
    count: usize,
) -> Result<Vec<usize>, AllocError>
    ensures { IfOk result (λ v. v.items ≡ columns_of_key count (option_map key_view key.entry)) }
{
    match key {
        Some(KeyField::Simple(key)) => simple_columns(alloc, key, count),
        Some(KeyField::WithPrefixes(key)) => prefixed_columns(alloc, key, count),
        None => Ok(Vec::new(alloc)),
    }
}

/// Returns the name of a column; empty if there is no such column.
fn name_at(names: &[Vec<u8>], column: usize) -> &[u8]
    ensures { result.now ≡ unwrap_or (slice_get (map (λ n. n.items) names.now) column) [] }
{
    match names.get(column) {
        Some(name) => name.as_slice(),
        None => &[],
    }
}

/// Appends the names of these columns as strings, each after a comma.
fn append_names(names: &[Vec<u8>], columns: &[usize], out: &mut Vec<u8>) -> Result<(), AllocError>
    ensures { OnOk result (out.new.items ≡ out.old.items ++ flat_map (λ i. 44 ∷ name_json (map (λ n. n.items) names.now) i) columns.now) }
{
    for column in columns {
        out.push(b',')?;
        append_string(name_at(names, *column), out)?;
    }
    Ok(())
}

/// Returns the primary key of a table with so many columns as a member of an object: the names of its columns, in the key's
/// order. Empty if the table map has no key that can be read. `AllocError`: out of memory.
pub(crate) fn key_member(
    alloc: Global,
    key: Option<KeyField<'_>>,
    names: &[Vec<u8>],
    count: usize,
) -> Result<Vec<u8>, AllocError>
    ensures { IfOk result (λ v. v.items ≡ member_of (map (λ n. n.items) names.now) (columns_of_key count (option_map key_view key.entry))) }
{
    let mut member = Vec::new(alloc);
    let columns = key_columns(alloc, key, count)?;
    let Some((first, others)) = columns.split_first() else {
        return Ok(member);
    };
    member.extend_from_slice(b"\"primary_key\":[")?;
    append_string(name_at(names, *first), &mut member)?;
    append_names(names, others, &mut member)?;
    member.push(b']')?;
    Ok(member)
}
