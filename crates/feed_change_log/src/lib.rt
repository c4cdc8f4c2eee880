//! The committed transactions of a binary log as values: the rows of tables, and statements, in order.
//!
//! [`ChangeLog`] reads a log and lends its transactions, [`Stop`] says how the log ended, and [`Filter`] selects transactions and
//! changes. [`PushedLog`] finds the same transactions in a log that arrives in pieces: push bytes of any lengths ([`Pushed`]), and take
//! each transaction once its commit has arrived.
#![tactic(auto)]

mod change;
mod change_log;
mod change_recorder;
mod committed_transaction;
mod filter;
mod kept_changes;
mod kept_tables;
pub mod laws;
mod parts;
mod pushed;
mod pushed_log;
mod recorded_log;
mod stop;

pub use change::{Change, Changes, TableRows, What};
pub use change_log::ChangeLog;
pub use change_recorder::ChangeRecorder;
pub use committed_transaction::{CommittedTransaction, OwnedTransaction};
pub use filter::{Filter, TakenChanges};
pub use pushed::Pushed;
pub use pushed_log::PushedLog;
pub use recorded_log::{NoLog, RecordedLog};
pub use stop::Stop;
