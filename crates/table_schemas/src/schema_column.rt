//! A column of a table.

use wire_constants::ColumnType;

/// A column of a table.
#[derive(Drop)]
pub struct SchemaColumn {
    pub name: Vec<u8>,
    /// Its type, in the format that servers write today: `MYSQL_TYPE_TIME2` for a TIME, `MYSQL_TYPE_NEWDATE` for a DATE,
    /// `MYSQL_TYPE_BLOB` for each TEXT and BLOB.
    pub column_type: ColumnType,
    pub is_unsigned: bool,
    /// The number of its collation; 63 if it has bytes and no text.
    pub collation: u16,
    /// The members of an ENUM or a SET, in UTF-8; none for other types.
    pub members: Vec<Vec<u8>>,
}

/// A column of a primary key.
#[derive(Clone, Copy)]
pub struct KeyColumn {
    /// Its index in the table.
    pub column: u64,
    /// How much of it the key has, in characters; 0 if it has all.
    pub prefix: u64,
}
