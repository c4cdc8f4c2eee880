//! The real types of columns, and the sizes of their metadata.

ghost use Rattle.std.specs.Prelude.{◌≡◌};
ghost use Rattle.rows_table_map.specs.TableColumnTypes.{metadata_size, string_type, string_of, real_type as real_type_of};

use crate::bad_column_type::BadColumnType;
use wire_constants::ColumnType;

/// Returns the size of a type's metadata in bytes. For `MYSQL_TYPE_TYPED_ARRAY`, whose metadata is its element's type and
/// metadata, this is 0.
pub fn metadata_len(column_type: ColumnType) -> usize
    ensures { result ≡ metadata_size column_type }
{
    match column_type {
        ColumnType::MYSQL_TYPE_FLOAT
        | ColumnType::MYSQL_TYPE_DOUBLE
        | ColumnType::MYSQL_TYPE_TINY_BLOB
        | ColumnType::MYSQL_TYPE_MEDIUM_BLOB
        | ColumnType::MYSQL_TYPE_LONG_BLOB
        | ColumnType::MYSQL_TYPE_BLOB
        | ColumnType::MYSQL_TYPE_GEOMETRY
        | ColumnType::MYSQL_TYPE_JSON
        | ColumnType::MYSQL_TYPE_TIME2
        | ColumnType::MYSQL_TYPE_DATETIME2
        | ColumnType::MYSQL_TYPE_TIMESTAMP2
        | ColumnType::MYSQL_TYPE_VECTOR => 1,
        ColumnType::MYSQL_TYPE_STRING
        | ColumnType::MYSQL_TYPE_VAR_STRING
        | ColumnType::MYSQL_TYPE_ENUM
        | ColumnType::MYSQL_TYPE_SET
        | ColumnType::MYSQL_TYPE_BIT
        | ColumnType::MYSQL_TYPE_VARCHAR
        | ColumnType::MYSQL_TYPE_NEWDECIMAL => 2,
        _ => 0,
    }
}

/// Returns the real type of a column with this type and metadata: `NEWDATE` for a DATE; a STRING may be an ENUM or a SET. Returns
/// `Unexpected` if a STRING's metadata gives another type.
pub fn real_type(column_type: ColumnType, metadata: &[u8]) -> Result<ColumnType, BadColumnType>
    ensures { result ≡ real_type_of column_type metadata.now }
{
    match column_type {
        ColumnType::MYSQL_TYPE_DATE => Ok(ColumnType::MYSQL_TYPE_NEWDATE),
        ColumnType::MYSQL_TYPE_STRING => string(metadata),
        _ => Ok(column_type),
    }
}

/// Returns the real type of a STRING with this metadata.
fn string(metadata: &[u8]) -> Result<ColumnType, BadColumnType>
    ensures { result ≡ string_of metadata.now }
{
    match metadata {
        [] | [0, ..] => Ok(ColumnType::MYSQL_TYPE_STRING),
        [first, ..] => numbered(*first | 0x30),
    }
}

/// Returns the type of a STRING column by this number.
fn numbered(number: u8) -> Result<ColumnType, BadColumnType>
    ensures { result ≡ string_type number }
{
    match number {
        247 => Ok(ColumnType::MYSQL_TYPE_ENUM),
        248 => Ok(ColumnType::MYSQL_TYPE_SET),
        254 => Ok(ColumnType::MYSQL_TYPE_STRING),
        _ => Err(BadColumnType::Unexpected(number)),
    }
}
