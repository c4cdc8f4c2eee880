//! What a handle of C's has: what a log borrows, or the log.

use crate::read_log::ReadLog;
use crate::shared_state::SharedState;

/// What a handle of C's has.
#[derive(Drop)]
pub enum Part<'s> {
    /// What a log borrows while it is open.
    State(SharedState),
    /// A log.
    Log(ReadLog<'s>),
}
