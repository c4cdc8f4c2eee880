//! The rules of the feed: which transactions the events of a log show, and which event is the first fault; the report of a log.
//!
//! [`Transactions`] applies the rules to one event after the other. It keeps the tables of the open transaction, and passes what
//! each event changes to a [`Recorder`]. [`TextRecorder`] is the recorder of the printed text. [`report`] reads a log, and writes
//! the text of its transactions.
#![tactic(auto)]

mod checked_rows;
mod kept_gtid;
mod known_images;
pub mod laws;
mod lines;
mod name_pattern;
mod open_transaction;
mod planned_rows;
mod recorder;
mod reporting;
mod table_filter;
mod tables;
mod text_recorder;
mod texts;
mod transactions;
mod waiting;
mod writing;

pub use checked_rows::check_rows;
pub use kept_gtid::KeptGtid;
pub use lines::row_verdict;
pub use planned_rows::PlannedRows;
pub use recorder::Recorder;
pub use reporting::report;
pub use table_filter::TableFilter;
pub use tables::Table;
pub use text_recorder::TextRecorder;
pub use transactions::Transactions;
pub use waiting::{MAX_COPIED_LEN, MAX_WAITING_LEN, WaitingBytes};
pub use writing::{put_all, put_shown};
