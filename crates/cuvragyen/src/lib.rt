//! libcuvragyen: the readers of MySQL's binary logs, for C and every language that calls C. `library/cuvragyen.h` documents each call.
#![tactic(auto)]

mod checksums;
mod handle;
mod kept;
mod logs;
mod numbers;
mod parts;
mod requests;
mod verdicts;

pub use handle::Handle;
pub use kept::KeptText;
pub use logs::{LogHeader, LogStop};
