//! What changes a log has: rows by table, the largest transactions, the course over time, tables that change together.
//!
//! [`StatsRecorder`] counts the rows of the open transaction, [`Totals`] those of all transactions, and [`put_words`], [`put_json`] and
//! [`put_drawing`] show them.
#![tactic(auto)]

mod counts;
mod course;
mod drawing;
mod json;
mod largest;
mod recorder;
mod tables;
mod totals;
mod words;

pub use counts::{Counts, RowCounts};
pub use drawing::put_drawing;
pub use json::put_json;
pub use recorder::StatsRecorder;
pub use totals::Totals;
pub use words::put_words;
