//! The parts of `binlog-changes` that need no transactions: the command line, time zones, which logs a run reads, their order and their
//! bytes, progress, the command `events`.
//!
//! `known_commands` has the commands and their options, and `command_line` reads the words. `time_zone` has the zones that `--time-zone`
//! names, by `jiff`: UTC, an offset, or one of the system's. `listed` finds the logs of an index file or of a folder that has one, and
//! `unpacking` decompresses a log that is a gzip or Zstandard file. `events` lists the events of a log, and `plain` writes those of MySQL in
//! place of MariaDB's.
#![tactic(auto)]

mod brief;
mod brief_mariadb;
mod command_line;
mod event_walk;
mod events;
mod follow_options;
mod format_options;
mod known_commands;
mod listed;
mod log_reader;
mod logs;
mod member_names;
mod messages;
mod output;
mod payload_lines;
mod plain;
mod progress;
mod refused;
mod rotation;
mod schema_options;
mod shown;
mod split;
mod sql_options;
mod table_names;
mod text;
mod time_zone;
mod unpacking;

pub use command_line::{Options, Range, Task, parse};
pub use event_walk::Listed;
pub use events::{Names, list};
pub use follow_options::FollowOptions;
pub use format_options::Format;
pub use known_commands::PROGRAM_VERSION;
pub use listed::{Unlisted, add_logs};
pub use log_reader::LogReader;
pub use logs::{Log, LogOrder, are_in_order, are_of_one_server, order_of};
pub use messages::{
    Explanation, explain, put_led_astray, put_no_start, put_no_transaction, put_remaining,
};
pub use output::{Failure, Output, Written, write};
pub use plain::{PlainEnd, Unplain, write_plain};
pub use progress::Progress;
pub use refused::Refused;
pub use rotation::leads_to;
pub use schema_options::{SchemaBeginning, SchemaFile};
pub use shown::put_type;
pub use sql_options::{SqlOptions, StatsOptions};
pub use text::Text;
pub use unpacking::{UnpackFault, unpack};
