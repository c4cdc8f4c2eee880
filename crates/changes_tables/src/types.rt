//! How the values of a column are shown, by its type.

ghost use Rattle.std.specs.Prelude.{◌≡◌};
ghost use Rattle.rows_table_map.specs.ColumnViews.{column_meta_view};
ghost use Rattle.changes_tables.specs.ColumnParts.{type_of as type_in};
ghost use Rattle.changes_tables.specs.HowShown.{IsTextShown, bit_len as bits, set_len as set_bytes, bits_shown, shown_of as shown_by};

use crate::columns::Shown;
use changes_character_sets::CharacterSet;
use rows_table_map::ColumnMeta;
use wire_constants::ColumnType;

/// The number of the collation of binary strings.
const BINARY: u16 = 63;

/// The most bytes of a BIT or a SET: 64 bits.
const BITS_LEN_MAX: usize = 8;

/// Returns the type of a column, an ENUM or a SET among strings; UNKNOWN if it can't be read.
pub(crate) fn type_of(column: ColumnMeta<'_>) -> ColumnType
    ensures { result ≡ type_in (column_meta_view column.entry) }
{
    match column.real_type() {
        Ok(column_type) => column_type,
        Err(_) => ColumnType::MYSQL_TYPE_UNKNOWN,
    }
}

/// Returns how text is shown whose collation has this number.
pub(crate) fn shown_text(collation: u16) -> Shown
    ensures { IsTextShown collation result }
{
    if collation == BINARY {
        return Shown::Binary;
    }
    match CharacterSet::of(collation) {
        Some(set) => Shown::Text(set),
        None => Shown::Unknown,
    }
}

/// Returns the bytes of a BIT, by its metadata.
fn bit_len(metadata: &[u8]) -> usize
    ensures { result ≡ bits metadata.now }
{
    match metadata {
        [bits, bytes, ..] => (8 * usize::from(*bytes) + usize::from(*bits)).div_ceil(8),
        _ => 0,
    }
}

/// Returns the bytes of a SET, by its metadata.
fn set_len(metadata: &[u8]) -> usize
    ensures { result ≡ set_bytes metadata.now }
{
    match metadata {
        [_, bytes, ..] => usize::from(*bytes),
        _ => 0,
    }
}

/// Returns how numbers of bits in this many bytes are shown.
fn shown_bits(len: usize, shown: Shown) -> Shown
    ensures { result ≡ bits_shown len shown }
{
    if len > BITS_LEN_MAX {
        Shown::Binary
    } else {
        shown
    }
}

/// Returns how the values of a column of this type are shown: `text` if it has text, and integers of eight bytes as strings if
/// `quotes_numbers`.
pub(crate) fn shown_of(
    column_type: ColumnType,
    metadata: &[u8],
    text: Shown,
    quotes_numbers: bool,
) -> Shown
    ensures { result ≡ shown_by column_type metadata.now text quotes_numbers }
{
    match column_type {
        ColumnType::MYSQL_TYPE_LONGLONG if quotes_numbers => Shown::Quoted,
        ColumnType::MYSQL_TYPE_ENUM => Shown::Enum,
        ColumnType::MYSQL_TYPE_SET => shown_bits(set_len(metadata), Shown::Set),
        ColumnType::MYSQL_TYPE_BIT => shown_bits(bit_len(metadata), Shown::Bit),
        ColumnType::MYSQL_TYPE_TIMESTAMP => Shown::Timestamp,
        ColumnType::MYSQL_TYPE_GEOMETRY | ColumnType::MYSQL_TYPE_VECTOR => Shown::Binary,
        ColumnType::MYSQL_TYPE_VARCHAR
        | ColumnType::MYSQL_TYPE_VAR_STRING
        | ColumnType::MYSQL_TYPE_STRING
        | ColumnType::MYSQL_TYPE_TINY_BLOB
        | ColumnType::MYSQL_TYPE_MEDIUM_BLOB
        | ColumnType::MYSQL_TYPE_LONG_BLOB
        | ColumnType::MYSQL_TYPE_BLOB => text,
        _ => Shown::Plain,
    }
}
