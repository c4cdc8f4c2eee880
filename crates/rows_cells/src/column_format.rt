//! The format of a column's cells.

ghost use Rattle.std.specs.Prelude.{◌≡◌};
ghost use Rattle.rows_cells.specs.ColumnFormats.{number_format, string_format, blob_format, enum_format, greatest_string, metadata_format, column_format};

use crate::format::{CellFormat, Width};
use wire_constants::ColumnType;

impl CellFormat {
    /// Returns the format of the cells of a column with this real type and metadata. `is_unsigned` is the signedness that the
    /// table map has for a numeric column.
    ///
    /// Returns `NoMetadata` if a byte of the metadata is missing, or if the metadata gives the length of a BLOB, or the number of
    /// an ENUM's member, a width that the type doesn't have. Returns `NoCells` for a type that has no cells in rows events.
    pub fn of_column(real_type: ColumnType, metadata: &[u8], is_unsigned: bool) -> CellFormat
        ensures { result ≡ column_format real_type metadata.now is_unsigned }
    {
        match real_type {
            ColumnType::MYSQL_TYPE_TINY => number(is_unsigned, Width::One),
            ColumnType::MYSQL_TYPE_SHORT => number(is_unsigned, Width::Two),
            ColumnType::MYSQL_TYPE_INT24 => number(is_unsigned, Width::Three),
            ColumnType::MYSQL_TYPE_LONG => number(is_unsigned, Width::Four),
            ColumnType::MYSQL_TYPE_LONGLONG => number(is_unsigned, Width::Eight),
            ColumnType::MYSQL_TYPE_FLOAT => CellFormat::Float,
            ColumnType::MYSQL_TYPE_DOUBLE => CellFormat::Double,
            ColumnType::MYSQL_TYPE_TIMESTAMP => CellFormat::Unsigned(Width::Four),
            ColumnType::MYSQL_TYPE_TIME => CellFormat::OldTime,
            ColumnType::MYSQL_TYPE_DATETIME => CellFormat::OldDatetime,
            ColumnType::MYSQL_TYPE_YEAR => CellFormat::Year,
            ColumnType::MYSQL_TYPE_NEWDATE => CellFormat::NewDate,
            ColumnType::MYSQL_TYPE_JSON => CellFormat::Json,
            _ => of_metadata(real_type, metadata),
        }
    }
}

/// Returns the format of cells for a type whose format depends on the metadata.
fn of_metadata(real_type: ColumnType, metadata: &[u8]) -> CellFormat
    ensures { result ≡ metadata_format real_type metadata.now }
{
    match real_type {
        ColumnType::MYSQL_TYPE_TIMESTAMP2 => match metadata {
            [decimals, ..] => CellFormat::Timestamp2(*decimals),
            [] => CellFormat::NoMetadata,
        },
        ColumnType::MYSQL_TYPE_DATETIME2 => match metadata {
            [decimals, ..] => CellFormat::Datetime2(*decimals),
            [] => CellFormat::NoMetadata,
        },
        ColumnType::MYSQL_TYPE_TIME2 => match metadata {
            [decimals, ..] => CellFormat::Time2(*decimals),
            [] => CellFormat::NoMetadata,
        },
        ColumnType::MYSQL_TYPE_NEWDECIMAL => match metadata {
            [precision, scale, ..] => CellFormat::Decimal(*precision, *scale),
            _ => CellFormat::NoMetadata,
        },
        ColumnType::MYSQL_TYPE_BIT => match metadata {
            [bits, bytes, ..] => {
                CellFormat::Plain((u16::from(*bytes) * 8 + u16::from(*bits)).div_ceil(8))
            }
            _ => CellFormat::NoMetadata,
        },
        ColumnType::MYSQL_TYPE_ENUM => match metadata {
            [_, len, ..] => member(*len),
            _ => CellFormat::NoMetadata,
        },
        ColumnType::MYSQL_TYPE_SET => match metadata {
            [_, len, ..] => CellFormat::Plain(u16::from(*len)),
            _ => CellFormat::NoMetadata,
        },
        ColumnType::MYSQL_TYPE_VARCHAR | ColumnType::MYSQL_TYPE_VAR_STRING => match metadata {
            [low, high, ..] => string(u32::from(*low) + 256 * u32::from(*high)),
            _ => CellFormat::NoMetadata,
        },
        ColumnType::MYSQL_TYPE_STRING => match metadata {
            [first, second, ..] => string(greatest_len(*first, *second)),
            _ => CellFormat::NoMetadata,
        },
        ColumnType::MYSQL_TYPE_TINY_BLOB
        | ColumnType::MYSQL_TYPE_MEDIUM_BLOB
        | ColumnType::MYSQL_TYPE_LONG_BLOB
        | ColumnType::MYSQL_TYPE_BLOB
        | ColumnType::MYSQL_TYPE_GEOMETRY
        | ColumnType::MYSQL_TYPE_VECTOR => match metadata {
            [len, ..] => blob(*len),
            [] => CellFormat::NoMetadata,
        },
        _ => CellFormat::NoCells,
    }
}

/// Returns the format of a number with this signedness and width.
fn number(is_unsigned: bool, width: Width) -> CellFormat
    ensures { result ≡ number_format is_unsigned width }
{
    if is_unsigned {
        CellFormat::Unsigned(width)
    } else {
        CellFormat::Signed(width)
    }
}

/// Returns the format of a string of at most this many bytes.
fn string(greatest: u32) -> CellFormat
    ensures { result ≡ string_format greatest }
{
    CellFormat::Counted(if greatest < 256 {
        Width::One
    } else {
        Width::Two
    })
}

/// Returns the maximum length in bytes of a STRING with this metadata. Bits 4 and 5 of the first byte are the inverted bits 8 and
/// 9 of the length, so that the byte differs from a real type.
fn greatest_len(first: u8, second: u8) -> u32
    ensures { result ≡ greatest_string first second }
{
    if first == 0 {
        256 * u32::from(second)
    } else {
        256 * (3 - u32::from(first) / 16 % 4) + u32::from(second)
    }
}

/// Returns the format of a BLOB whose length field has this many bytes.
fn blob(len: u8) -> CellFormat
    ensures { result ≡ blob_format len }
{
    match len {
        1 => CellFormat::Counted(Width::One),
        2 => CellFormat::Counted(Width::Two),
        3 => CellFormat::Counted(Width::Three),
        4 => CellFormat::Counted(Width::Four),
        _ => CellFormat::NoMetadata,
    }
}

/// Returns the format of an ENUM, whose member number has this many bytes.
fn member(len: u8) -> CellFormat
    ensures { result ≡ enum_format len }
{
    match len {
        1 => CellFormat::Unsigned(Width::One),
        2 => CellFormat::Unsigned(Width::Two),
        _ => CellFormat::NoMetadata,
    }
}
