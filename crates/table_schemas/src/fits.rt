//! Whether the columns of a table map are those of a table.

ghost use Rattle.std.specs.Prelude.{◌≡◌};
ghost use Rattle.rows_table_map.specs.ColumnViews.{column_meta_view};
ghost use Rattle.rows_table_map.specs.MapViews.{map_of};
ghost use Rattle.table_schemas.specs.SchemaFits.{newest_type, has_type, first_difference};

use crate::schema_column::SchemaColumn;
use rows_table_map::{ColumnMeta, TableMapEvent};
use wire_constants::ColumnType;

/// The first difference between the columns of a table and those of its table map.
#[derive(Clone, Copy, Debug, PartialEq, Eq)]
pub enum Difference {
    /// The log has so many columns, which are more or fewer.
    OtherCount(u64),
    /// The column at this index, from 0, has another type.
    OtherType(u64),
}

/// The type of a column as servers write it today.
fn newest_type(column_type: ColumnType) -> ColumnType
    ensures { result ≡ newest_type column_type }
{
    match column_type {
        ColumnType::MYSQL_TYPE_TIMESTAMP => ColumnType::MYSQL_TYPE_TIMESTAMP2,
        ColumnType::MYSQL_TYPE_DATETIME => ColumnType::MYSQL_TYPE_DATETIME2,
        ColumnType::MYSQL_TYPE_TIME => ColumnType::MYSQL_TYPE_TIME2,
        ColumnType::MYSQL_TYPE_VAR_STRING => ColumnType::MYSQL_TYPE_VARCHAR,
        _ => column_type,
    }
}

/// Whether a column of a table map has this type.
fn has_type(column: ColumnMeta<'_>, column_type: ColumnType) -> bool
    ensures { result ≡ has_type (column_meta_view column.entry) column_type }
{
    match column.real_type() {
        Ok(found) => newest_type(found) as u8 == column_type as u8,
        Err(_) => false,
    }
}

/// The first difference between these columns and those of a table map; None if there is none.
pub(crate) fn first_difference(
    columns: &[SchemaColumn],
    map: &TableMapEvent<'_>,
) -> Option<Difference>
    ensures { result ≡ first_difference columns.now (map_of map.now) }
{
    let count = map.column_types_raw().len();
    if count != columns.len() {
        return Some(Difference::OtherCount(count as u64));
    }
    let mut metas = map.columns();
    for (index, column) in columns.iter().enumerate() {
        let Some(meta) = metas.next_column() else {
            return Some(Difference::OtherCount(index as u64));
        };
        if !has_type(meta, column.column_type) {
            return Some(Difference::OtherType(index as u64));
        }
    }
    None
}
