//! Rows: their columns and the values of their cells.

mod column;
mod row;
mod value;

pub use column::Column;
pub use row::{Row, new_row_raw};
pub use value::{Value, datetime_from_packed, time_from_packed};
