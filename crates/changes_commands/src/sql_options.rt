//! The options of the commands `sql`, `undo` and `stats`.

use crate::known_commands::{Known, Takes};
use crate::refused::Unusable;
use clap::ArgMatches;
use std::alloc::Global;

pub(crate) const STATEMENTS: Known = Known {
    takes: Takes::Nothing,
    name: "statements",
    value: "",
    help: "print the statements of the log too, with their database and time",
};

pub(crate) const LEAVE_OUT: Known = Known {
    takes: Takes::Nothing,
    name: "leave-out",
    value: "",
    help: "leave out changes that have no exact statement, with a comment for each",
};

pub(crate) const DRY_RUN: Known = Known {
    takes: Takes::Nothing,
    name: "dry-run",
    value: "",
    help: "print how many rows of each table would change, and no statements",
};

pub(crate) const WHERE: Known = Known {
    takes: Takes::Values,
    name: "where",
    value: "COLUMN=VALUE",
    help: "only rows with this value in this column, before or after the change; given several times, with all of them",
};

pub(crate) const BY: Known = Known {
    takes: Takes::Value,
    name: "by",
    value: "PERIOD",
    help: "the course by second, minute or hour; minute if it isn't given",
};

pub(crate) const LARGEST: Known = Known {
    takes: Takes::Number,
    name: "largest",
    value: "COUNT",
    help: "how many of the largest transactions are listed; 5 if it isn't given",
};

pub(crate) const SVG: Known = Known {
    takes: Takes::Value,
    name: "svg",
    value: "FILE",
    help: "draw the course and the shares of the tables into this file too",
};

/// How many of the largest transactions are listed, if no option says it.
const USUAL_LARGEST: u32 = 5;

/// What the commands `sql` and `undo` are to do.
#[derive(Drop)]
pub struct SqlOptions<'w> {
    /// Whether the statements of the log are printed too.
    pub has_statements: bool,
    /// Whether changes without an exact statement are left out.
    pub leaves_out: bool,
    /// Whether changes are counted only.
    pub is_dry: bool,
    /// Columns, and the values that rows must have in them.
    pub conditions: Vec<(&'w [u8], &'w [u8])>,
}

/// What the command `stats` is to do.
#[derive(Clone, Copy)]
pub struct StatsOptions<'w> {
    /// The length of a period of the course, in seconds.
    pub period: u32,
    /// How many of the largest transactions are listed.
    pub largest: u32,
    /// The path of a drawing.
    pub svg: Option<&'w str>,
}

/// The column of a condition, and its value: what is before the first `=`, and after it. None if there is no column.
fn condition_of(condition: &[u8]) -> Option<(&[u8], &[u8])> {
    let at = condition.iter().position(|byte| *byte == b'=')?;
    let (column, rest) = condition.split_at(at);
    let (_, value) = rest.split_first()?;
    if column.is_empty() {
        return None;
    }
    Some((column, value))
}

impl<'w> SqlOptions<'w> {
    /// Those of another command.
    pub(crate) fn none(alloc: Global) -> SqlOptions<'w> {
        SqlOptions {
            has_statements: false,
            leaves_out: false,
            is_dry: false,
            conditions: Vec::new(alloc),
        }
    }

    /// Adds the conditions that the command line has.
    pub(crate) fn add_conditions(&mut self, matches: &ArgMatches<'w>) -> Result<(), Unusable> {
        let Some(values) = matches.get_strs(WHERE.name) else {
            return Ok(());
        };
        for value in values {
            let value: &'w str = *value;
            let Some(condition) = condition_of(value.as_bytes()) else {
                return Err(Unusable::Value(WHERE.name));
            };
            if self.conditions.push(condition).is_err() {
                return Err(Unusable::Memory);
            }
        }
        Ok(())
    }
}

/// The length of a period in seconds.
fn period_of(matches: &ArgMatches<'_>) -> Result<u32, Unusable> {
    match matches.get_str(BY.name) {
        None | Some("minute") => Ok(60),
        Some("second") => Ok(1),
        Some("hour") => Ok(3600),
        Some(_) => Err(Unusable::Value(BY.name)),
    }
}

impl<'w> StatsOptions<'w> {
    /// Those of another command.
    pub(crate) const NONE: StatsOptions<'static> = StatsOptions {
        period: 60,
        largest: USUAL_LARGEST,
        svg: None,
    };

    /// Those that the command line has.
    pub(crate) fn of(matches: &ArgMatches<'w>) -> Result<StatsOptions<'w>, Unusable> {
        Ok(StatsOptions {
            period: period_of(matches)?,
            largest: matches.get_one(LARGEST.name).unwrap_or(USUAL_LARGEST),
            svg: matches.get_str(SVG.name),
        })
    }
}
