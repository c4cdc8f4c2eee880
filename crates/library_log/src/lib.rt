//! A binary log as libcuvragyen reads it: its options, the pieces that were pushed, the sources of its events, and the newest transaction
//! as JSON lines or as a binary record.
//!
//! `docs/library/RECORDS.md` describes a record, a layout that is read without a parser, and without knowledge of MySQL's formats.
//! [`RecordRecorder`] keeps the open transaction, and [`Records`] makes its record.
#![tactic(auto)]

mod cells;
mod columns;
mod log_end;
mod log_source;
mod magic_number;
mod numbers;
mod option_text;
mod options;
mod part;
mod read_log;
mod recorder;
mod records;
mod rows;
mod shared_state;
mod shown;
mod shown_recorder;
mod source_state;
mod tables;

pub use log_source::LogSource;
pub use options::{LogOptions, OptionsFault};
pub use part::Part;
pub use read_log::{Next, ReadLog};
pub use recorder::RecordRecorder;
pub use records::Records;
pub use shared_state::{OpenFault, SharedState};
pub use shown_recorder::ShownRecorder;
pub use source_state::SourceState;
