//! How the columns of a table are shown.

ghost use Rattle.std.specs.Prelude.{◌≡◌, ◌++◌, ◌∷◌, [], IfOk, map as list_map, length};
ghost use Rattle.std.specs.List.{AllZip};
ghost use Rattle.std.specs.Vec.Iter.{into_iter_items};
ghost use Rattle.wire_constants.specs.ColumnTypes.{is_enum_or_set};
ghost use Rattle.rows_table_map.specs.ColumnViews.{column_meta_view, table_map_columns};
ghost use Rattle.rows_table_map.specs.MapViews.{map_of};
ghost use Rattle.changes_writers.specs.JsonStrings.{json_string};
ghost use Rattle.changes_tables.specs.FieldViews.{fields_view};
ghost use Rattle.changes_tables.specs.ShownColumns.{column_view};
ghost use Rattle.changes_tables.specs.ColumnParts.{lists_of, type_of as type_in, has_text, collation_of, parts_after};
ghost use Rattle.changes_tables.specs.RemainingLists.{remaining_lists, after_column, after_entry, first_part};
ghost use Rattle.changes_tables.specs.HowShown.{IsColumnText};
ghost use Rattle.changes_tables.specs.ColumnsShown.{IsColumn};

use crate::collations::collations;
use crate::fields::TableFields;
use crate::members::{MemberLists, Members};
use crate::shown_column::ShownColumn;
use crate::texts::append_string;
use crate::types::{shown_of, shown_text, type_of};
use changes_character_sets::CharacterSet;
use rows_table_map::{ColumnMeta, TableMapEvent};
use std::alloc::{AllocError, Global};
use std::vec::IntoIter;
use wire_constants::ColumnType;

/// How the columns of a table are shown.
#[derive(Clone, Copy)]
pub struct TableOptions {
    /// How text is shown whose character set the log doesn't name.
    pub unnamed: Shown,
    /// Whether integers of eight bytes are shown as strings.
    pub quotes_numbers: bool,
}

/// How a column's values are shown, where the format of its cells doesn't say it.
#[derive(Clone, Copy)]
pub enum Shown {
    /// By the format of its cells alone.
    Plain,
    /// By the format of its cells alone, but integers as strings.
    Quoted,
    /// Text in a character set.
    Text(CharacterSet),
    /// Bytes that aren't text, in Base64.
    Binary,
    /// Text in a character set that isn't known, or that isn't decoded, as an object with the bytes in Base64.
    Unknown,
    /// Seconds since 1970, as a date and a time in UTC.
    Timestamp,
    /// A number of bits.
    Bit,
    /// A member of an ENUM.
    Enum,
    /// Members of a SET.
    Set,
}

/// What the metadata has for the remaining columns.
#[derive(Drop)]
struct Remaining<'a> {
    /// The collations of strings, blobs and GEOMETRY.
    texts: IntoIter<u16>,
    /// The collations of ENUM and SET columns.
    members: IntoIter<u16>,
    values: Members<'a>,
}

impl<'a> Remaining<'a> {
    /// Returns what these fields have for so many columns. `AllocError`: out of memory.
    fn of(alloc: Global, fields: TableFields<'a>, count: usize) -> Result<Remaining<'a>, AllocError>
        ensures { IfOk result (λ r. remaining_lists r ≡ lists_of count (fields_view fields.entry)) }
    {
        Ok(Remaining {
            texts: collations(alloc, fields.texts, count)?.into_iter(),
            members: collations(alloc, fields.members, count)?.into_iter(),
            values: Members {
                enums: MemberLists::of(alloc, fields.enums),
                sets: MemberLists::of(alloc, fields.sets),
            },
        })
    }

    /// Returns the collation of the next column, which has this type; None if the log doesn't name it.
    fn next_collation(&mut self, column_type: ColumnType) -> Option<u16>
        ensures collation { result ≡ collation_of (remaining_lists self.old) [] column_type }
        ensures texts { into_iter_items self.new.texts ≡ after_entry (has_text column_type) (into_iter_items self.old.texts) }
        ensures members { into_iter_items self.new.members ≡ after_entry (is_enum_or_set column_type) (into_iter_items self.old.members) }
        ensures values { self.new.values ≡ self.old.values }
    {
        if column_type.is_character_type() || column_type.is_geometry_type() {
            self.texts.next()
        } else if column_type.is_enum_or_set_type() {
            self.members.next()
        } else {
            None
        }
    }

    /// Returns how the text of the next column is shown, which has this type.
    fn next_text(&mut self, column_type: ColumnType, unnamed: Shown) -> Shown
        ensures text { IsColumnText unnamed (collation_of (remaining_lists self.old) [] column_type) result }
        ensures texts { into_iter_items self.new.texts ≡ after_entry (has_text column_type) (into_iter_items self.old.texts) }
        ensures members { into_iter_items self.new.members ≡ after_entry (is_enum_or_set column_type) (into_iter_items self.old.members) }
        ensures values { self.new.values ≡ self.old.values }
    {
        match self.next_collation(column_type) {
            Some(collation) => shown_text(collation),
            None => unnamed,
        }
    }
}

/// Returns a name as a JSON string, and a colon.
fn key_of(alloc: Global, name: &[u8]) -> Result<Vec<u8>, AllocError>
    ensures { IfOk result (λ key. key.items ≡ json_string name.now ++ 58 ∷ []) }
{
    let mut key = Vec::new(alloc);
    append_string(name, &mut key)?;
    key.push(b':')?;
    Ok(key)
}

/// Returns the next column.
fn next_column(
    alloc: Global,
    options: TableOptions,
    remaining: &mut Remaining<'_>,
    name: &[u8],
    column: ColumnMeta<'_>,
) -> Result<ShownColumn, AllocError>
    ensures column { IfOk result (λ c. IsColumn options (first_part (remaining_lists remaining.old) name.now (column_meta_view column.entry)) (column_view c)) }
    ensures after { IfOk result (λ c. remaining_lists remaining.new ≡ after_column (remaining_lists remaining.old) (type_in (column_meta_view column.entry))) }
{
    let column_type = type_of(column);
    let text = remaining.next_text(column_type, options.unnamed);
    Ok(ShownColumn::new(
        key_of(alloc, name)?,
        shown_of(column_type, column.metadata, text, options.quotes_numbers),
        remaining.values.next(alloc, column_type, text)?,
    ))
}

/// Returns the columns of a table, which have these names. `AllocError`: out of memory.
pub(crate) fn columns_of(
    alloc: Global,
    options: TableOptions,
    map: &TableMapEvent<'_>,
    fields: TableFields<'_>,
    names: &[Vec<u8>],
) -> Result<Vec<ShownColumn>, AllocError>
    ensures { IfOk result (λ v. AllZip (IsColumn options)
        (parts_after (lists_of (length (map_of map.now).column_types) (fields_view fields.entry)) [] (list_map (λ n. n.items) names.now) (table_map_columns map.now))
        (list_map column_view v.items)) }
{
    let mut remaining = Remaining::of(alloc, fields, map.column_types_raw().len())?;
    let mut metas = map.columns();
    let mut columns = Vec::new(alloc);
    for name in names {
        let Some(column) = metas.next_column() else {
            break;
        };
        columns.push(next_column(alloc, options, &mut remaining, name, column)?)?;
    }
    Ok(columns)
}
