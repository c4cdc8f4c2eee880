//! The option `--format` of the commands `json` and `follow`.

use crate::command_line::Task;
use crate::follow_options::{FollowOptions, PROGRESS};
use crate::known_commands::{
    Known, NUMBERS_AS_STRINGS, SKIP_UNREADABLE, TRANSACTIONS, Takes, WITH,
};
use crate::refused::Unusable;
use clap::ArgMatches;

/// A format of lines other than the program's own.
#[derive(Clone, Copy, PartialEq, Eq)]
pub enum Format {
    /// The lines of Maxwell.
    Maxwell,
    /// The values of Debezium's messages, without their schemas.
    Debezium,
    /// The flat messages of Canal.
    Canal,
}

pub(crate) const FORMAT: Known = Known {
    takes: Takes::Value,
    name: "format",
    value: "NAME",
    help: "print the rows as maxwell, debezium or canal does, for what reads the output of these",
};

impl Format {
    /// The format with this name.
    fn named(name: &str) -> Option<Format> {
        match name {
            "maxwell" => Some(Format::Maxwell),
            "debezium" => Some(Format::Debezium),
            "canal" => Some(Format::Canal),
            _ => None,
        }
    }
}

/// The options without a value that have a meaning for a command's own lines alone.
fn own_flags(task: Task) -> &'static [Known] {
    match task {
        Task::Follow => &[TRANSACTIONS, NUMBERS_AS_STRINGS],
        _ => &[TRANSACTIONS, NUMBERS_AS_STRINGS, SKIP_UNREADABLE],
    }
}

/// An option that is given and has a meaning for a command's own lines alone.
fn own_option(task: Task, matches: &ArgMatches<'_>) -> Option<&'static str> {
    for option in own_flags(task) {
        if matches.get_flag(option.name) {
            return Some(option.name);
        }
    }
    if matches.get_str(WITH.name).is_some() {
        return Some(WITH.name);
    }
    if FollowOptions::of(task, matches).progress.is_some() {
        return Some(PROGRESS.name);
    }
    None
}

/// The format that the command line of `json` or `follow` names, if it names one.
///
/// - `Value`: there is no format with the name.
/// - `OwnLines`: another option has no meaning in it.
pub(crate) fn format_of(task: Task, matches: &ArgMatches<'_>) -> Result<Option<Format>, Unusable> {
    let Some(name) = matches.get_str(FORMAT.name) else {
        return Ok(None);
    };
    let Some(format) = Format::named(name) else {
        return Err(Unusable::Value(FORMAT.name));
    };
    match own_option(task, matches) {
        Some(option) => Err(Unusable::OwnLines(option)),
        None => Ok(Some(format)),
    }
}
