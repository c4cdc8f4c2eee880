//! A column of a plan.

use rows_cells::ImageColumn;
use wire_constants::ColumnType;

/// What a plan has about a column, except its name.
#[derive(Clone, Copy, Debug, PartialEq, Eq)]
pub struct PlannedColumn {
    /// The real type: `NEWDATE` for a DATE; a STRING may be an ENUM or a SET.
    pub real_type: ColumnType,
    /// The column's index in the table, and the format of its cells.
    pub image: ImageColumn,
    /// Whether the column is numeric and unsigned.
    pub is_unsigned: bool,
    /// The number of its collation; 0 if the table map has none.
    pub character_set: u16,
    /// Whether the column is in the primary key.
    pub is_key: bool,
}
