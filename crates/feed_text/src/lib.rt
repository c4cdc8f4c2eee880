//! The text of values, straight from MySQL's bytes: cells, decimals, the rows of an image, and JSON documents, of a form that the caller
//! gives or of the feed's: their trees, and the containers of MySQL's binary format with the order of their keys.
//!
//! Each function appends exactly its text, or returns an error and leaves the text before it unchanged: out of memory, a JSON
//! document that can't be parsed, bytes that aren't a packed decimal. The specifications of the texts are in `specs/`.
#![tactic(auto)]

mod buffer;
mod buffer_cells;
mod buffer_documents;
mod buffer_text;
mod cells;
mod decimals;
mod diffs;
mod direct;
mod direct_parts;
mod direct_scalars;
mod document_form;
mod documents;
mod feed_form;
mod fields;
mod images;
mod json_scalars;
mod key_order;
mod key_prefixes;
pub mod laws;
mod parts;
mod pieces;
mod quoting;
mod rows;
mod short;
mod short_decimals;
mod short_strings;
mod uuids;
mod values;
mod word_decimals;
mod writing;

pub use buffer::TextBuffer;
pub use cells::{put_cell, put_cell_ref};
pub use decimals::put_decimal;
pub use direct_parts::{Container, NotDirect};
pub use document_form::{DocumentForm, UpdateForm};
pub use documents::{put_json, put_tree};
pub use feed_form::{FeedForm, put_temporal};
pub use json_scalars::string_room;
pub use key_order::put_order;
pub use quoting::quote;
pub use uuids::put_uuid;
pub use values::put_value;
pub use writing::{Writing, WritingInRoom};
