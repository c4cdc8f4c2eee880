//! A walk over the columns of a table map and its lists of optional metadata.

ghost use Rattle.std.specs.Prelude.{◌≡◌, ◌≤◌, ◌+◌, ℕ, drop, suc, if◌then◌else◌, false, Ok, IfOk, ◌<◌, length};
ghost use Rattle.wire_constants.specs.ColumnTypes.{is_numeric, is_character, is_enum_or_set};
ghost use Rattle.rows_table_map.specs.ColumnViews.{remaining_columns};
ghost use Rattle.rows_table_map.specs.Served.{first_item};
ghost use Rattle.rows_table_map.specs.MetadataViews.{extracted_view, signs_left, charset_left, remaining_names, primary_key_left};
ghost use Rattle.rows_event_body.specs.Plans.{Table, table_columns_of, is_json, sign_or_signed, charset_or_none, is_next, after_column};
ghost use Rattle.rows_event_body.specs.Walks.{IsWalkAt, WalksColumn, SkipsName};

use crate::column::PlannedColumn;
use rows_cells::{CellFormat, ImageColumn};
use rows_errors::RowsError;
use rows_table_map::{
    IterCharset, IterColumns, IterNames, IterPrimaryKey, IterSignedness, OptionalMetaExtractor,
};
use wire_constants::ColumnType;

/// The remaining columns, and the remaining entries of the optional metadata for them.
#[derive(Clone, Copy)]
pub(crate) struct ColumnWalk<'a> {
    columns: IterColumns<'a>,
    signs: IterSignedness<'a>,
    charsets: IterCharset<'a>,
    enum_charsets: IterCharset<'a>,
    names: IterNames<'a>,
    keys: IterPrimaryKey<'a>,
    /// How many JSON columns were returned.
    json_columns: usize,
}

impl<'a> ColumnWalk<'a> {
    /// Creates the walk before the first column.
    pub(crate) fn new(
        columns: IterColumns<'a>,
        metadata: &OptionalMetaExtractor<'a>,
    ) -> ColumnWalk<'a>
        ensures at { IsWalkAt result (table_columns_of (remaining_columns columns.entry) (extracted_view metadata.now)) 0 }
        ensures json { result.json_columns ≡ 0 }
    {
        ColumnWalk {
            columns,
            signs: metadata.iter_signedness(),
            charsets: metadata.iter_charset(),
            enum_charsets: metadata.iter_enum_and_set_charset(),
            names: metadata.iter_column_name(),
            keys: metadata.iter_primary_key(),
            json_columns: 0,
        }
    }

    /// Returns the next column, which has this index in the table.
    ///
    /// - `Metadata`: the table has no more columns.
    /// - `Cell`: the column's type is unknown.
    /// - The errors of the lists, if an entry that the column uses can't be read.
    pub(crate) fn next_column(&mut self, column_index: u32) -> Result<PlannedColumn, RowsError>
        requires { self.old.json_columns ≤ column_index }
        ensures takes { (t : Table) → IsWalkAt self.old t column_index → WalksColumn t column_index result self.new }
        ensures json { self.new.json_columns ≤ column_index + 1 }
        ensures fewer { IfOk result (λ _. length (remaining_columns self.new.columns) < length (remaining_columns self.old.columns)) }
    {
        let Some(column) = self.columns.next_column() else {
            return Err(RowsError::Metadata);
        };
        let Ok(real_type) = column.real_type() else {
            return Err(RowsError::Cell);
        };
        let is_unsigned = next_sign(real_type, &mut self.signs);
        let character_set = match next_character_set(
            real_type,
            &mut self.charsets,
            &mut self.enum_charsets,
        ) {
            Ok(character_set) => character_set,
            Err(fault) => return Err(fault),
        };
        if let Err(fault) = next_name(&mut self.names) {
            return Err(fault);
        }
        let is_key = match next_key(column_index, &mut self.keys) {
            Ok(is_key) => is_key,
            Err(fault) => return Err(fault),
        };
        let image = ImageColumn {
            column: column_index,
            format: CellFormat::of_column(real_type, column.metadata, is_unsigned),
            json_column: self.json_columns as u32,
        };
        self.json_columns += json_documents(real_type);
        Ok(PlannedColumn {
            real_type,
            image,
            is_unsigned,
            character_set,
            is_key,
        })
    }
}

/// Returns how many JSON columns a column of this type counts as: one or none.
fn json_documents(real_type: ColumnType) -> usize
    ensures { result ≡ (if is_json real_type then 1 else 0) }
{
    match real_type {
        ColumnType::MYSQL_TYPE_JSON => 1,
        _ => 0,
    }
}

/// Returns whether a column of this type is unsigned, by the next signedness bit if it is numeric.
fn next_sign(real_type: ColumnType, signs: &mut IterSignedness<'_>) -> bool
    ensures value { result ≡ (if is_numeric real_type then sign_or_signed (first_item (signs_left signs.old)) else false) }
    ensures left { signs_left signs.new ≡ (if is_numeric real_type then drop 1 (signs_left signs.old) else signs_left signs.old) }
{
    if real_type.is_numeric_type() {
        signs.next().unwrap_or(false)
    } else {
        false
    }
}

/// Returns the character set of a column of this type, by the next one of its kind; 0 for a type that has none.
fn next_character_set(
    real_type: ColumnType,
    charsets: &mut IterCharset<'_>,
    enum_charsets: &mut IterCharset<'_>,
) -> Result<u16, RowsError>
    ensures value { result ≡ (if is_character real_type then charset_or_none (charset_left charsets.old 0) else if is_enum_or_set real_type then charset_or_none (charset_left enum_charsets.old 0) else Ok 0) }
    ensures charsets { (k : ℕ) → charset_left charsets.new k ≡ charset_left charsets.old (if is_character real_type then suc k else k) }
    ensures enum_charsets { (k : ℕ) → charset_left enum_charsets.new k ≡ charset_left enum_charsets.old (if is_character real_type then k else if is_enum_or_set real_type then suc k else k) }
{
    if real_type.is_character_type() {
        next_charset(charsets)
    } else if real_type.is_enum_or_set_type() {
        next_charset(enum_charsets)
    } else {
        Ok(0)
    }
}

/// Returns the next character set of the columns of a kind.
fn next_charset(charsets: &mut IterCharset<'_>) -> Result<u16, RowsError>
    ensures value { result ≡ charset_or_none (charset_left charsets.old 0) }
    ensures left { (k : ℕ) → charset_left charsets.new k ≡ charset_left charsets.old (suc k) }
{
    match charsets.next() {
        Some(charset) => charset,
        None => Ok(0),
    }
}

/// Skips the next name, or returns why it can't be read.
fn next_name(names: &mut IterNames<'_>) -> Result<(), RowsError>
    ensures { SkipsName (remaining_names names.old) result (remaining_names names.new) }
{
    match names.next() {
        Some(Err(fault)) => Err(fault),
        Some(Ok(_)) | None => Ok(()),
    }
}

/// Returns whether the next index of the key is that of this column, which then consumes it.
fn next_key(column_index: u32, keys: &mut IterPrimaryKey<'_>) -> Result<bool, RowsError>
    ensures value { result ≡ is_next column_index (first_item (primary_key_left keys.old)) }
    ensures left { primary_key_left keys.new ≡ after_column column_index (primary_key_left keys.old) }
{
    match keys.peek() {
        Some(Ok(index)) => {
            if index != u64::from(column_index) {
                return Ok(false);
            }
            keys.next();
            Ok(true)
        }
        Some(Err(fault)) => Err(fault),
        None => Ok(false),
    }
}
