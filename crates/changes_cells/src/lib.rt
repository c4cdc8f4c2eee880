//! The cells of rows as JSON, by the definitions of their columns; and JSON documents and their partial updates as the lines have them.
//!
//! `specs/CellJson.antt` defines the JSON of a cell, `specs/ShownTimes.antt` that of dates and times, `specs/JsonDocuments.antt` that of
//! documents, and `specs/FieldJson.antt` what the functions do with a cell that bytes begin with.
#![tactic(auto)]

mod buffers;
mod bytes;
mod decimals;
mod decoding;
mod documents;
mod fields;
mod fixed;
mod json_form;
pub mod laws;
mod members;
mod numbers;
mod parts;
mod pieces;
mod readings;
mod times;
mod updates;

pub use buffers::put_field;
pub use documents::{put_diffs, put_document};
pub use fields::{FIELD_LEN_MAX, put_short_field};
pub use json_form::JsonForm;
