//! The options of the command `follow`.

use crate::command_line::Task;
use crate::known_commands::{Known, Takes};
use clap::ArgMatches;

/// What the command `follow` is to do.
#[derive(Clone, Copy)]
pub struct FollowOptions<'w> {
    /// The name of the log before the server names one.
    pub log_name: Option<&'w str>,
    /// The path of the file that acknowledgements are written to; the answer is that of a semi-synchronous source then.
    pub semi_sync: Option<&'w str>,
    /// After how many seconds a line says how far the logs were read.
    pub progress: Option<u32>,
}

pub(crate) const LOG_NAME: Known = Known {
    takes: Takes::Value,
    name: "log-name",
    value: "NAME",
    help: "the name of the log before the server names one",
};

pub(crate) const SEMI_SYNC: Known = Known {
    takes: Takes::Value,
    name: "semi-sync",
    value: "FILE",
    help: "read the answer of a semi-synchronous source, and write the acknowledgements here",
};

pub(crate) const PROGRESS: Known = Known {
    takes: Takes::Number,
    name: "progress",
    value: "SECONDS",
    help: "print a line of type progress at most every so many seconds: how far the logs were read",
};

impl<'w> FollowOptions<'w> {
    /// Those that the command line of a command has: none of another command.
    pub(crate) fn of(task: Task, matches: &ArgMatches<'w>) -> FollowOptions<'w> {
        match task {
            Task::Follow => FollowOptions {
                log_name: matches.get_str(LOG_NAME.name),
                semi_sync: matches.get_str(SEMI_SYNC.name),
                progress: matches.get_one(PROGRESS.name),
            },
            _ => FollowOptions {
                log_name: None,
                semi_sync: None,
                progress: None,
            },
        }
    }
}
