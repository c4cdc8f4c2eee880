//! Rows events, the plan of a table's columns, and the images and owned rows that are read by it, by the columns that each image has.
//! MySQL Internals: Rows_event.
//!
//! `ColumnPlan` is the plan of a table's columns: what reading a row needs to know about each, computed once from the table map and its
//! optional metadata (`specs/Plans.antt`). `specs/OwnedRows.antt` defines the contents of an owned row, `specs/PlainRows.antt` its
//! conversion to plain values, `specs/RowImages.antt` the row that is read from an image, and `specs/RowFields.antt` which bytes encode a
//! row. A rows event is a sequence of fields (`specs/RowsEvents.antt`); one definition covers reading and writing.
#![tactic(auto)]

mod binlog_row;
mod column;
mod event_columns;
mod event_images;
mod extra_data;
mod image_columns;
mod into_row;
mod optional_field;
mod picked;
mod plan;
mod row_field;
mod row_image;
mod rows;
mod rows_event;
mod rows_event_ctx;
mod rows_event_type;
mod run;
mod walk;

pub use binlog_row::BinlogRow;
pub use column::PlannedColumn;
pub use event_columns::EventColumns;
pub use image_columns::ImageColumns;
pub use into_row::BinlogRowToRowError;
pub use plan::ColumnPlan;
pub use row_field::BinlogRowCtx;
pub use row_image::RowImage;
pub use rows::RowsEventRows;
pub use rows_event::RowsEvent;
pub use rows_event_ctx::RowsEventCtx;
pub use rows_event_type::{RowImages, RowsEventType};
