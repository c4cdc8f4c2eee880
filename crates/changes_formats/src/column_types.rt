//! The types of columns by their names and by the numbers of `java.sql.Types`, as Canal has them.

use crate::columns::FormatColumn;
use crate::strings::put_content;
use changes_tables::Shown;
use feed_text::TextBuffer;
use std::alloc::{AllocError, Global};
use wire_constants::ColumnType;

/// The name of the type of strings: of text, and of bytes.
fn string_name(column: &FormatColumn, text: &'static str, bytes: &'static str) -> &'static str {
    if column.is_binary() { bytes } else { text }
}

/// The name of the type of a TEXT or a BLOB, by the length of its length.
fn blob_name(column: &FormatColumn) -> &'static str {
    match column.facts.metadata[0] {
        1 => string_name(column, "tinytext", "tinyblob"),
        2 => string_name(column, "text", "blob"),
        3 => string_name(column, "mediumtext", "mediumblob"),
        _ => string_name(column, "longtext", "longblob"),
    }
}

/// The name of the type of a column, without its length.
fn name_of(column: &FormatColumn) -> &'static str {
    match column.facts.column_type {
        ColumnType::MYSQL_TYPE_TINY => "tinyint",
        ColumnType::MYSQL_TYPE_SHORT => "smallint",
        ColumnType::MYSQL_TYPE_INT24 => "mediumint",
        ColumnType::MYSQL_TYPE_LONG => "int",
        ColumnType::MYSQL_TYPE_LONGLONG => "bigint",
        ColumnType::MYSQL_TYPE_FLOAT => "float",
        ColumnType::MYSQL_TYPE_DOUBLE => "double",
        ColumnType::MYSQL_TYPE_DECIMAL | ColumnType::MYSQL_TYPE_NEWDECIMAL => "decimal",
        ColumnType::MYSQL_TYPE_TIMESTAMP | ColumnType::MYSQL_TYPE_TIMESTAMP2 => "timestamp",
        ColumnType::MYSQL_TYPE_DATETIME | ColumnType::MYSQL_TYPE_DATETIME2 => "datetime",
        ColumnType::MYSQL_TYPE_TIME | ColumnType::MYSQL_TYPE_TIME2 => "time",
        ColumnType::MYSQL_TYPE_DATE | ColumnType::MYSQL_TYPE_NEWDATE => "date",
        ColumnType::MYSQL_TYPE_YEAR => "year",
        ColumnType::MYSQL_TYPE_VARCHAR | ColumnType::MYSQL_TYPE_VAR_STRING => {
            string_name(column, "varchar", "varbinary")
        }
        ColumnType::MYSQL_TYPE_STRING => string_name(column, "char", "binary"),
        ColumnType::MYSQL_TYPE_TINY_BLOB
        | ColumnType::MYSQL_TYPE_MEDIUM_BLOB
        | ColumnType::MYSQL_TYPE_LONG_BLOB
        | ColumnType::MYSQL_TYPE_BLOB => blob_name(column),
        ColumnType::MYSQL_TYPE_BIT => "bit",
        ColumnType::MYSQL_TYPE_ENUM => "enum",
        ColumnType::MYSQL_TYPE_SET => "set",
        ColumnType::MYSQL_TYPE_JSON => "json",
        ColumnType::MYSQL_TYPE_GEOMETRY => "geometry",
        ColumnType::MYSQL_TYPE_VECTOR => "vector",
        _ => "unknown",
    }
}

/// Appends a length in parentheses.
fn put_length(len: u64, out: &mut TextBuffer<Global>) -> Result<(), AllocError> {
    out.put(b'(')?;
    out.put_number(len)?;
    out.put(b')')
}

/// Appends the lengths of a type: of a decimal, of the fraction of a date or a time, and of a BIT.
fn put_lengths(column: &FormatColumn, out: &mut TextBuffer<Global>) -> Result<(), AllocError> {
    let facts = column.facts;
    match facts.column_type {
        ColumnType::MYSQL_TYPE_NEWDECIMAL => {
            let [precision, scale] = facts.metadata;
            out.put(b'(')?;
            out.put_number(u64::from(precision))?;
            out.put(b',')?;
            out.put_number(u64::from(scale))?;
            out.put(b')')
        }
        ColumnType::MYSQL_TYPE_BIT => put_length(u64::from(facts.bits()), out),
        _ if facts.digits() > 0 => put_length(u64::from(facts.digits()), out),
        _ => Ok(()),
    }
}

/// Appends the type of a column as a string: its name, its lengths as far as the log says them, and whether it is unsigned.
pub(crate) fn put_type(
    column: &FormatColumn,
    out: &mut TextBuffer<Global>,
) -> Result<(), AllocError> {
    out.put(b'"')?;
    put_content(name_of(column).as_bytes(), out)?;
    put_lengths(column, out)?;
    if column.facts.is_unsigned {
        out.put_text(b" unsigned")?;
    }
    out.put(b'"')
}

/// The number of the type of bytes or text, by whether they are text.
fn string_number(column: &FormatColumn, text: i64) -> i64 {
    if let Shown::Text(_) = column.shown.shown {
        return text;
    }
    2004
}

/// The number of the type of a column in `java.sql.Types`.
pub(crate) fn type_number(column: &FormatColumn) -> i64 {
    match column.facts.column_type {
        ColumnType::MYSQL_TYPE_TINY => -6,
        ColumnType::MYSQL_TYPE_SHORT => 5,
        ColumnType::MYSQL_TYPE_INT24 | ColumnType::MYSQL_TYPE_LONG => 4,
        ColumnType::MYSQL_TYPE_LONGLONG => -5,
        ColumnType::MYSQL_TYPE_FLOAT => 7,
        ColumnType::MYSQL_TYPE_DOUBLE => 8,
        ColumnType::MYSQL_TYPE_DECIMAL | ColumnType::MYSQL_TYPE_NEWDECIMAL => 3,
        ColumnType::MYSQL_TYPE_TIMESTAMP
        | ColumnType::MYSQL_TYPE_TIMESTAMP2
        | ColumnType::MYSQL_TYPE_DATETIME
        | ColumnType::MYSQL_TYPE_DATETIME2 => 93,
        ColumnType::MYSQL_TYPE_TIME | ColumnType::MYSQL_TYPE_TIME2 => 92,
        ColumnType::MYSQL_TYPE_DATE | ColumnType::MYSQL_TYPE_NEWDATE => 91,
        ColumnType::MYSQL_TYPE_STRING => string_number(column, 1),
        ColumnType::MYSQL_TYPE_VARCHAR | ColumnType::MYSQL_TYPE_VAR_STRING => {
            string_number(column, 12)
        }
        ColumnType::MYSQL_TYPE_TINY_BLOB
        | ColumnType::MYSQL_TYPE_MEDIUM_BLOB
        | ColumnType::MYSQL_TYPE_LONG_BLOB
        | ColumnType::MYSQL_TYPE_BLOB => string_number(column, 2005),
        ColumnType::MYSQL_TYPE_BIT => -7,
        ColumnType::MYSQL_TYPE_GEOMETRY | ColumnType::MYSQL_TYPE_VECTOR => 2004,
        _ => 12,
    }
}
