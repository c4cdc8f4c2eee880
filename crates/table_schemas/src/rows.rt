//! A column of a table as a line of a schema's file has it.

use std::alloc::Global;

/// A line of a schema's file: a column of a table.
#[derive(Drop)]
pub(crate) struct Row {
    pub(crate) database: Vec<u8>,
    pub(crate) table: Vec<u8>,
    /// The position of the column in the table, from 1 on.
    pub(crate) position: u64,
    pub(crate) name: Vec<u8>,
    /// Its type, as `information_schema.COLUMNS` has it in COLUMN_TYPE.
    pub(crate) type_text: Vec<u8>,
    /// The number of its collation.
    pub(crate) collation: Option<u16>,
    /// Its position in the primary key, from 1 on.
    pub(crate) key_position: Option<u64>,
    /// The length of its prefix in the primary key, in characters.
    pub(crate) key_prefix: Option<u64>,
}

impl Row {
    /// No line yet. It takes no memory.
    pub(crate) fn new(alloc: Global) -> Row {
        Row {
            database: Vec::new(alloc),
            table: Vec::new(alloc),
            position: 0,
            name: Vec::new(alloc),
            type_text: Vec::new(alloc),
            collation: None,
            key_position: None,
            key_prefix: None,
        }
    }
}
