//! What each event of a binary log is to the feed, such as which statements begin, commit and roll back, and the checks of an event that
//! need no table.
//!
//! The kind of an event is by its type, flags and body (`specs/Kinds.antt`). The checks are those of the frame, the checksum algorithm,
//! the checksum, the size and the body (`specs/Damage.antt`); a server checks its log by them. [`Verdict`] has the words for how a log
//! ends.
#![tactic(auto)]

mod checked_maps;
mod description_in_force;
mod event_checker;
mod event_gate;
mod event_kind;
mod log_reading;
mod outer_checks;
mod statement_kind;
mod verdict;

pub use description_in_force::TABLE_MAP_POST_HEADER_LEN;
pub use event_checker::EventChecker;
pub use event_gate::{CheckedEvent, EventGate};
pub use event_kind::{EventKind, Gtid, on_rotate, read_rows, read_table_map, uuid_and_number};
pub use log_reading::{read_magic_number, verdict_of};
pub use outer_checks::split_parts;
pub use statement_kind::StatementKind;
pub use verdict::{Verdict, name_of, status};
