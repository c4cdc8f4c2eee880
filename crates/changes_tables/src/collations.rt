//! The collations of a table's columns, by which their character sets are known.

ghost use Rattle.std.specs.Prelude.{◌≡◌, ◌<◌, ◌∷◌, ◌++◌, ℕ, [], IfOk, OnOk, length, slice_index, option_map, unwrap_or, Some};
ghost use Rattle.rows_errors.specs.Readings.{map_reading};
ghost use Rattle.rows_table_map.specs.MetadataViews.{default_charset_view, charsets_view, non_default_view};
ghost use Rattle.changes_tables.specs.UsedMetadata.{with_default as defaulted, one_by_one as each, readable};
ghost use Rattle.changes_tables.specs.FieldViews.{collation_view};
ghost use Rattle.changes_tables.specs.ColumnParts.{collations as collations_in, read_collation};

use crate::fields::CollationField;
use rows_errors::RowsError;
use rows_table_map::{ColumnCharsets, DefaultCharset, NonDefaultCharset};
use std::alloc::{AllocError, Global};

/// Sets the collation of a column, if the entry can be read and there is such a column.
fn set_collation(found: &mut Vec<u16>, other: Result<NonDefaultCharset, RowsError>)
    ensures len { length found.new.items ≡ length found.old.items }
    ensures each { (j : ℕ) → j < length found.old.items → slice_index found.new.items j ≡ unwrap_or (read_collation j (map_reading non_default_view other)) (slice_index found.old.items j) }
{
    match other {
        Ok(other) => {
            let index = other.column_index() as usize;
            if index < found.len() {
                found[index] = other.charset();
            }
        }
        Err(_) => {}
    }
}

/// Appends a collation, if it can be read.
fn push_read(found: &mut Vec<u16>, charset: Result<u16, RowsError>) -> Result<(), AllocError>
    ensures { OnOk result (found.new.items ≡ found.old.items ++ readable (charset ∷ [])) }
{
    match charset {
        Ok(charset) => found.push(charset)?,
        Err(_) => {}
    }
    Ok(())
}

/// Returns the collations of so many columns: a default, and those of the columns with another one.
fn with_default(
    alloc: Global,
    charsets: DefaultCharset<'_>,
    count: usize,
) -> Result<Vec<u16>, AllocError>
    ensures { IfOk result (λ v. v.items ≡ collations_in count (Some (defaulted (default_charset_view charsets.entry)))) }
{
    let mut found = Vec::new(alloc);
    found.resize(count, charsets.default_charset())?;
    for other in charsets.iter_non_default() {
        set_collation(&mut found, other);
    }
    Ok(found)
}

/// Returns the collations of columns, one by one.
fn one_by_one(alloc: Global, charsets: ColumnCharsets<'_>) -> Result<Vec<u16>, AllocError>
    ensures { IfOk result (λ v. v.items ≡ collations_in 0 (Some (each (charsets_view charsets.entry)))) }
{
    let mut found = Vec::new(alloc);
    for charset in charsets.iter_charsets() {
        push_read(&mut found, charset)?;
    }
    Ok(found)
}

/// Returns the collations of the columns of one kind, in their order; none if the table map doesn't have them. `count` is the number
/// of all columns. `AllocError`: out of memory.
pub(crate) fn collations(
    alloc: Global,
    field: Option<CollationField<'_>>,
    count: usize,
) -> Result<Vec<u16>, AllocError>
    ensures { IfOk result (λ v. v.items ≡ collations_in count (option_map collation_view field.entry)) }
{
    match field {
        Some(CollationField::WithDefault(charsets)) => with_default(alloc, charsets, count),
        Some(CollationField::OneByOne(charsets)) => one_by_one(alloc, charsets),
        None => Ok(Vec::new(alloc)),
    }
}
