//! The JSON lines of committed transactions: a recorder that keeps the rows of the open transaction as JSON, and their lines.
//!
//! `lines` writes the lines of a transaction, `recorder` and `rows` the JSON of its rows, and `resume_place` decides where a later run has
//! to begin while an XA transaction is prepared (`resume`).
#![tactic(auto)]

mod columns;
mod event_facts;
mod header_text;
mod images;
mod lines;
mod members;
mod numbered_rows;
mod origin;
mod recorder;
mod resume_place;
mod rows;
mod short_rows;
mod text_list;
mod updates;

pub use lines::Lines;
pub use recorder::JsonRecorder;
