//! The change feed of MySQL binary logs: reports, transactions as values, followers, servers, and the repair of truncated output.
//!
//! It re-exports the calls of its parts that users need, with the types of their arguments and results, and CRC-32; and it has their
//! laws and worked examples, so that no program waits for the proofs of these. What the parts have for one another, such as the trait
//! of recorders of transactions, isn't re-exported. `feed_transactions` has the report of a file, `feed_change_log` transactions as
//! values, `feed_replication` requests, followers and servers, `feed_text` the text of values, and `feed_resume` the complete
//! transactions of a truncated text.
//!
//! [`ChangeFollower`] follows a server's answer and lends each committed transaction as a value: it keeps the bytes that arrive, and asks
//! again from the position after the last transaction that was passed. [`rehearse_changes`] runs it so over any number of connections,
//! and passes the transactions to an [`Applier`].
#![tactic(auto)]

mod applier;
mod change_follower;
mod change_rehearsal;
mod check_laws;
pub mod follower_laws;
mod kind_laws;
pub mod laws;
mod report_laws;
mod run_laws;
mod serving_laws;
mod stream_laws;
mod worked_reports;
mod worked_rules;
mod worked_runs;
mod worked_serving;
mod worked_streams;

pub use applier::Applier;
pub use change_follower::ChangeFollower;
pub use change_rehearsal::rehearse_changes;
pub use crc32::crc32;
pub use events_frames::{BinlogEventHeader, QueryTexts};
pub use feed_change_log::{
    Change, ChangeLog, ChangeRecorder, Changes, CommittedTransaction, Filter, NoLog,
    OwnedTransaction, Stop, TableRows, TakenChanges, What,
};
pub use feed_checks::{Gtid, Verdict, name_of, status};
pub use feed_replication::{
    Follower, PayloadFormat, Refusal, RequestError, Served, Step, rehearse, rehearse_growing,
    rehearse_semi, request, serve, serve_semi,
};
pub use feed_resume::{Keeper, kept};
pub use feed_text::{
    DocumentForm, TextBuffer, UpdateForm, Writing, WritingInRoom, put_cell, put_cell_ref,
    put_decimal, put_json, put_value, quote,
};
pub use feed_transactions::report;
pub use rows_cells::{BinlogValue, CellRef, ImageCells, ImagePlan, RowPart, RowPlan, RowsCursor};
pub use rows_errors::{JsonbError, RowsError};
pub use rows_event_body::RowImages;
pub use rows_jsonb::JsonDom;
pub use rows_table_map::TableMapEvent;
pub use rows_values::Value;
pub use wire_buf::{MAX_READS, Watched};
