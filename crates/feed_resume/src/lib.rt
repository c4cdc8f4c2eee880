//! Finds the complete transactions of a truncated text of the feed, and the position to resume from.
//!
//! To resume a feed that was printed into a file and was interrupted, truncate the file there, and ask from that position.
#![tactic(auto)]

mod keeper;
mod keeping;
pub mod laws;
pub mod worked;

pub use keeper::Keeper;
pub use keeping::kept;
