//! The changes of rows as the lines of Maxwell, Debezium and Canal, for what reads the output of these: one JSON object a row.
//!
//! [`FormatRecorder`] keeps a transaction, and [`FormatLines`] makes the lines of its rows. `docs/FORMATS.md` says what each line has,
//! and how each type of column is printed.
#![tactic(auto)]

mod canal;
mod column_types;
mod columns;
mod debezium;
mod debezium_times;
mod decimals;
mod documents;
mod epoch;
mod images;
mod lines;
mod maxwell;
mod members;
mod numbers;
mod origins;
mod recorder;
mod strings;
mod tables;
mod texts;
mod times;
mod values;

pub use lines::{FormatLines, LineSource};
pub use recorder::FormatRecorder;
