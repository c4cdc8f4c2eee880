//! The value of a cell, for callers to keep.

use rows_jsonb::{JsonDiff, Value as JsonbValue};
use rows_values::Value;

/// The value of a cell. JSON documents borrow from the bytes of the rows event.
#[derive(PartialEq, Drop)]
pub enum BinlogValue<'a> {
    /// A value of any other type.
    Value(Value),
    /// A JSON document.
    Jsonb(JsonbValue<'a>),
    /// JSON diffs, in order.
    JsonDiff(Vec<JsonDiff<'a>>),
}
