//! The cells of rows, borrowed from the bytes of a rows event; the images of rows; and the rows of an event.
//!
//! `specs/ColumnFormats.antt` defines the format of a column's cells, by the column's type and metadata, `specs/CellSizes.antt` the
//! size of a cell, `specs/CellValues.antt` the values of cells, `specs/Cells.antt` which bytes encode a cell, and
//! `specs/BinlogValues.antt` what callers keep of it. `specs/Images.antt` defines which bytes encode an image: the columns that it
//! has, which of its cells are NULL, and the cells in order. `specs/EventRows.antt` defines which bytes encode a row.
#![tactic(auto)]

mod binlog_value;
mod cell;
mod cell_reading;
mod column_format;
mod conversions;
mod fields;
mod format;
mod image;
mod owned;
mod rows;
mod value_field;

pub use binlog_value::BinlogValue;
pub use cell::CellRef;
pub use cell_reading::{
    read_bytes, read_cell, read_datetime, read_few_bytes, read_signed, read_time, read_unsigned,
    split_decimal,
};
pub use conversions::BinlogValueToValueError;
pub use fields::split_prefix;
pub use format::{CellFormat, Width};
pub use image::{ImageCells, ImageColumn, ImageField, ImagePlan};
pub use rows::{RowPart, RowPlan, RowsCursor};
pub use value_field::BinlogValueCtx;
