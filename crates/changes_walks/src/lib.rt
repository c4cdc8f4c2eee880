//! Walks of logs: which transactions and changes positions and options select, how a log ended, and what `binlog-changes check` says of it.
//!
//! [`walk_log`] walks a log, [`walk_pushed`] one that arrives in pieces, and [`follow_answer`] a server's answer, as `binlog-changes follow`
//! reads it.
#![tactic(auto)]

mod answer_sink;
mod checked_json;
mod checking;
mod following;
mod gaps;
mod laws;
mod log_events;
mod positions;
mod prepared;
mod pushed;
mod selection;
mod sink;
mod sources;
mod status;
mod walk;
mod words;

pub use answer_sink::AnswerSink;
pub use checked_json::put_checked_json;
pub use checking::{TransactionCounter, checked, count};
pub use following::{FollowEnd, Followed, follow_answer, follow_logs};
pub use gaps::{beginning_of, is_passable, leave_out};
pub use laws::filters_select_by_the_same_positions;
pub use log_events::LogEvents;
pub use positions::PositionRange;
pub use prepared::PreparedSource;
pub use pushed::{PushedEnd, PushedWalk, pushed_log, walk_pushed};
pub use selection::{FilteredNames, filter_of, selection_of};
pub use sink::{EachChange, TransactionSink};
pub use sources::{SourceFault, SourceStates};
pub use status::{
    DAMAGED, FAILED, Finding, USAGE, WHOLE, finding_of, last_before, misses, status_of,
    status_of_verdict,
};
pub use walk::{EndedWalk, LogEnd, Selection, walk_log};
pub use words::{
    Checked, Selected, explanation_of, put_checked, put_gap, put_gap_words, put_unclosed,
};
