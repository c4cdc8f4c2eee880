//! What a table map says of a column, for its values and its type.

use changes_tables::{Shown, ShownColumn};
use rows_table_map::ColumnMeta;
use wire_constants::ColumnType;

/// What a table map says of the type of a column.
#[derive(Clone, Copy)]
pub(crate) struct ColumnFacts {
    pub(crate) column_type: ColumnType,
    /// The first two bytes of its metadata; 0 for those that it doesn't have.
    pub(crate) metadata: [u8; 2],
    pub(crate) is_unsigned: bool,
    pub(crate) may_be_null: bool,
    /// The length of the values of a BINARY column, whose zeros at the end the log doesn't have; 0 for another column.
    pub(crate) padded_len: u8,
}

/// A column of a table.
#[derive(Drop)]
pub(crate) struct FormatColumn {
    /// Its name as the key of a member, how its values are shown, and the members of an ENUM or a SET.
    pub(crate) shown: ShownColumn,
    pub(crate) facts: ColumnFacts,
}

/// The type of a column, an ENUM or a SET among strings; UNKNOWN if it can't be read.
pub(crate) fn type_of(column: ColumnMeta<'_>) -> ColumnType {
    match column.real_type() {
        Ok(column_type) => column_type,
        Err(_) => ColumnType::MYSQL_TYPE_UNKNOWN,
    }
}

/// The first two bytes of the metadata of a column.
pub(crate) fn metadata_of(column: ColumnMeta<'_>) -> [u8; 2] {
    match column.metadata {
        [first, second, ..] => [*first, *second],
        [first] => [*first, 0],
        _ => [0, 0],
    }
}

impl ColumnFacts {
    /// The digits of the fraction that a date or a time has; the log has none for columns of servers before 5.6.
    pub(crate) fn digits(self) -> u8 {
        match self.column_type {
            ColumnType::MYSQL_TYPE_TIMESTAMP2
            | ColumnType::MYSQL_TYPE_DATETIME2
            | ColumnType::MYSQL_TYPE_TIME2 => self.metadata[0],
            _ => 0,
        }
    }

    /// The number of bits of a BIT.
    pub(crate) fn bits(self) -> u16 {
        let [bits, bytes] = self.metadata;
        8 * u16::from(bytes) + u16::from(bits)
    }
}

impl FormatColumn {
    /// Whether the bytes of its values aren't text.
    pub(crate) fn is_binary(&self) -> bool {
        matches!(self.shown.shown, Shown::Binary)
    }
}
