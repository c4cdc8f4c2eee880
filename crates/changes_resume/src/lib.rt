//! Finds the complete transactions of truncated JSON lines of `binlog-changes`, and where to resume.
//!
//! To resume lines that were printed into a file and were interrupted, truncate the file there, and ask from that position of that
//! log.
#![tactic(auto)]

pub mod laws;
mod line_keeper;
mod reading;
mod resume_point;
mod strings;
pub mod worked;

pub use reading::{KeptJson, KeptJsonError, kept_json};
pub use resume_point::ResumePoint;
