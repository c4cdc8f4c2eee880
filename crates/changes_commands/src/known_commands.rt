//! The commands of the program, and their options.

use crate::follow_options::{LOG_NAME, PROGRESS, SEMI_SYNC};
use crate::format_options::FORMAT;
use crate::sql_options::{BY, DRY_RUN, LARGEST, LEAVE_OUT, STATEMENTS, SVG, WHERE};
use clap::{Arg, ArgAction, Command};
use std::alloc::{AllocError, Global};

/// What an option takes.
#[derive(Clone, Copy)]
pub(crate) enum Takes {
    Nothing,
    Number,
    Value,
    /// A value that may begin with a minus.
    SignedValue,
    /// A value, and the option may be given several times.
    Values,
    /// It has no name: it is the words after the options.
    Words,
    /// It has no name: it is the word after the options.
    Word,
}

/// An option of a command: its name, what its value is called, and what it is for.
#[derive(Clone, Copy)]
pub(crate) struct Known {
    pub(crate) takes: Takes,
    pub(crate) name: &'static str,
    pub(crate) value: &'static str,
    pub(crate) help: &'static str,
}

pub(crate) const TRANSACTIONS: Known = Known {
    takes: Takes::Nothing,
    name: "transactions",
    value: "",
    help: "print a line for each transaction",
};

const AS_JSON: Known = Known {
    takes: Takes::Nothing,
    name: "json",
    value: "",
    help: "print a JSON object for each log",
};

pub(crate) const CHARACTER_SET: Known = Known {
    takes: Takes::Value,
    name: "character-set",
    value: "NAME",
    help: "the character set of text whose character set isn't in the log, such as utf8mb4",
};

pub(crate) const NUMBERS_AS_STRINGS: Known = Known {
    takes: Takes::Nothing,
    name: "numbers-as-strings",
    value: "",
    help: "print the numbers of BIGINT columns as strings, for readers whose numbers are doubles",
};

pub(crate) const WITH: Known = Known {
    takes: Takes::Value,
    name: "with",
    value: "NAME,..",
    help: "more members of each line: begin, ts_ms, xid, thread_id, query, row, or all",
};

pub(crate) const MAX_TRANSACTION: Known = Known {
    takes: Takes::Number,
    name: "max-transaction",
    value: "BYTES",
    help: "the maximum length of the events of a compressed transaction; 1073741824, which is 1 GiB, if it isn't given",
};

pub(crate) const PAYLOAD: Known = Known {
    takes: Takes::Nothing,
    name: "payload",
    value: "",
    help: "list the events in compressed transactions, and in compressed events of MariaDB, too",
};

pub(crate) const SKIP_UNREADABLE: Known = Known {
    takes: Takes::Nothing,
    name: "skip-unreadable",
    value: "",
    help: "leave out transactions that can't be read, and print a line of type gap for each",
};

pub(crate) const SCHEMA: Known = Known {
    takes: Takes::Values,
    name: "schema",
    value: "FILE",
    help: "what the logs don't say of tables: names, keys, members, signs and character sets, as recipes/schema prints them; FILE@TIME or FILE@LOG:POSITION for tables as they are from there on",
};

const START: Known = Known {
    takes: Takes::Number,
    name: "start-position",
    value: "POSITION",
    help: "begin after the transaction of the first log that ends here",
};

const STOP: Known = Known {
    takes: Takes::Number,
    name: "stop-position",
    value: "POSITION",
    help: "end with the transaction of the last log that ends here, or before",
};

pub(crate) const TRANSACTION: Known = Known {
    takes: Takes::Number,
    name: "transaction",
    value: "POSITION",
    help: "only the transaction of the last log that ends here",
};

const FIRST_EVENT: Known = Known {
    takes: Takes::Number,
    name: "start-position",
    value: "POSITION",
    help: "begin with the first event of the first log at this position or after it",
};

const LAST_EVENT: Known = Known {
    takes: Takes::Number,
    name: "stop-position",
    value: "POSITION",
    help: "end before the first event of the last log at this position or after it",
};

const FROM_TIME: Known = Known {
    takes: Takes::Value,
    name: "start-datetime",
    value: "TIME",
    help: "only from this time on: '2026-11-27 10:00:00', in UTC unless --time-zone says otherwise",
};

const TO_TIME: Known = Known {
    takes: Takes::Value,
    name: "stop-datetime",
    value: "TIME",
    help: "only before this time",
};

pub(crate) const TIME_ZONE: Known = Known {
    takes: Takes::SignedValue,
    name: "time-zone",
    value: "NAME",
    help: "the time zone of these times: UTC, +02:00 or Europe/Berlin",
};

pub(crate) const DATABASE: Known = Known {
    takes: Takes::Values,
    name: "database",
    value: "NAME,..",
    help: "only changes of these databases",
};

pub(crate) const TABLE: Known = Known {
    takes: Takes::Values,
    name: "table",
    value: "DATABASE.TABLE,..",
    help: "only changes of these tables; * stands for any characters, as in 'shop.orders_*'",
};

pub(crate) const EXCLUDED: Known = Known {
    takes: Takes::Values,
    name: "exclude-table",
    value: "DATABASE.TABLE,..",
    help: "no changes of these tables; * as in --table",
};

/// The logs, as the last words of a command.
const FILES: Known = Known {
    takes: Takes::Words,
    name: "file",
    value: "FILE",
    help: "binary logs, in their order; - or none is standard input",
};

/// A command: its name, what it does, and its options.
#[derive(Clone, Copy)]
struct KnownCommand {
    name: &'static str,
    about: &'static str,
    options: &'static [Known],
}

const JSON: KnownCommand = KnownCommand {
    name: "json",
    about: "Prints a JSON object a line for each changed row",
    options: &[
        TRANSACTIONS,
        FORMAT,
        CHARACTER_SET,
        NUMBERS_AS_STRINGS,
        WITH,
        SCHEMA,
        MAX_TRANSACTION,
        SKIP_UNREADABLE,
        START,
        STOP,
        TRANSACTION,
        FROM_TIME,
        TO_TIME,
        TIME_ZONE,
        DATABASE,
        TABLE,
        EXCLUDED,
        FILES,
    ],
};

const CHECK: KnownCommand = KnownCommand {
    name: "check",
    about: "Says whether logs are whole, and where they end; counts the transactions that options select",
    options: &[
        AS_JSON,
        SCHEMA,
        MAX_TRANSACTION,
        SKIP_UNREADABLE,
        START,
        STOP,
        TRANSACTION,
        FROM_TIME,
        TO_TIME,
        TIME_ZONE,
        DATABASE,
        TABLE,
        EXCLUDED,
        FILES,
    ],
};

const EVENTS: KnownCommand = KnownCommand {
    name: "events",
    about: "Prints a line for each event: position, type, size, time, server, contents",
    options: &[
        PAYLOAD,
        MAX_TRANSACTION,
        FIRST_EVENT,
        LAST_EVENT,
        FROM_TIME,
        TO_TIME,
        TIME_ZONE,
        DATABASE,
        TABLE,
        EXCLUDED,
        FILES,
    ],
};

const FOLLOW: KnownCommand = KnownCommand {
    name: "follow",
    about: "Prints the same of a server's answer on standard input, each transaction once its commit arrives",
    options: &[
        TRANSACTIONS,
        FORMAT,
        CHARACTER_SET,
        NUMBERS_AS_STRINGS,
        WITH,
        SCHEMA,
        MAX_TRANSACTION,
        FROM_TIME,
        TO_TIME,
        TIME_ZONE,
        DATABASE,
        TABLE,
        EXCLUDED,
        LOG_NAME,
        SEMI_SYNC,
        PROGRESS,
    ],
};

const SQL: KnownCommand = KnownCommand {
    name: "sql",
    about: "Prints the changes as SQL statements, in the order of the log",
    options: &[
        STATEMENTS,
        LEAVE_OUT,
        DRY_RUN,
        WHERE,
        SCHEMA,
        MAX_TRANSACTION,
        START,
        STOP,
        TRANSACTION,
        FROM_TIME,
        TO_TIME,
        TIME_ZONE,
        DATABASE,
        TABLE,
        EXCLUDED,
        FILES,
    ],
};

const UNDO: KnownCommand = KnownCommand {
    name: "undo",
    about: "Prints the SQL statements that take the changes back, the last change first",
    options: &[
        LEAVE_OUT,
        DRY_RUN,
        WHERE,
        SCHEMA,
        MAX_TRANSACTION,
        START,
        STOP,
        TRANSACTION,
        FROM_TIME,
        TO_TIME,
        TIME_ZONE,
        DATABASE,
        TABLE,
        EXCLUDED,
        FILES,
    ],
};

const STATS: KnownCommand = KnownCommand {
    name: "stats",
    about: "Counts the changes: rows by table, the largest transactions, the course over time",
    options: &[
        AS_JSON,
        BY,
        LARGEST,
        SVG,
        SCHEMA,
        MAX_TRANSACTION,
        START,
        STOP,
        TRANSACTION,
        FROM_TIME,
        TO_TIME,
        TIME_ZONE,
        DATABASE,
        TABLE,
        EXCLUDED,
        FILES,
    ],
};

/// The log, as the last word of a command.
const ONE_FILE: Known = Known {
    takes: Takes::Word,
    name: "file",
    value: "FILE",
    help: "a binary log; - or none is standard input",
};

const PLAIN: KnownCommand = KnownCommand {
    name: "plain",
    about: "Writes a log of MariaDB with MySQL's events at the same positions, for binlog-feed",
    options: &[ONE_FILE],
};

/// With what its value is called, and what becomes of the values.
fn valued<'a>(argument: Arg<'a>, known: Known, action: ArgAction) -> Arg<'a> {
    argument.value_name(known.value).action(action)
}

/// An option, or the last words.
fn argument<'a>(alloc: Global, known: Known) -> Arg<'a> {
    let argument = Arg::new(alloc, known.name).help(known.help);
    match known.takes {
        Takes::Nothing => argument.long(known.name).action(ArgAction::SetTrue),
        Takes::Number => valued(argument.long(known.name), known, ArgAction::Set).value_parser(
            clap::value_parser!(u32),
        ),
        Takes::Value => valued(argument.long(known.name), known, ArgAction::Set),
        Takes::SignedValue => {
            valued(argument.long(known.name), known, ArgAction::Set).allow_hyphen_values(true)
        }
        Takes::Values => valued(argument.long(known.name), known, ArgAction::Append),
        Takes::Words => valued(argument, known, ArgAction::Append),
        Takes::Word => valued(argument, known, ArgAction::Set),
    }
}

/// A command with its options and the logs.
fn subcommand<'a>(alloc: Global, known: KnownCommand) -> Result<Command<'a>, AllocError> {
    let mut command = Command::new(alloc, known.name).about(known.about);
    for option in known.options {
        command = command.arg(argument(alloc, *option))?;
    }
    Ok(command)
}

/// The program: its name, its version, and what it does.
#[derive(Clone, Copy)]
struct KnownProgram {
    name: &'static str,
    version: &'static str,
    about: &'static str,
}

/// The version of the program.
pub const PROGRAM_VERSION: &str = "0.1.0";

const PROGRAM: KnownProgram = KnownProgram {
    name: "binlog-changes",
    version: PROGRAM_VERSION,
    about: "Prints the committed changes of MySQL binary logs",
};

/// A command line with a program's name, its version, and what it does.
fn named<'a>(alloc: Global, known: KnownProgram) -> Command<'a> {
    Command::new(alloc, known.name)
        .version(known.version)
        .about(known.about)
}

/// The command line of a program, without its commands.
fn program<'a>(alloc: Global, known: KnownProgram) -> Command<'a> {
    named(alloc, known)
        .subcommand_required(true)
        .arg_required_else_help(true)
}

/// Adds commands to a command line.
fn with_commands<'a>(
    alloc: Global,
    command: Command<'a>,
    commands: &[KnownCommand],
) -> Result<Command<'a>, AllocError> {
    let mut command = command;
    for known in commands {
        command = command.subcommand(subcommand(alloc, *known)?)?;
    }
    Ok(command)
}

/// Adds the commands that read logs event by event.
fn with_readers<'a>(alloc: Global, command: Command<'a>) -> Result<Command<'a>, AllocError> {
    with_commands(alloc, command, &[JSON, CHECK, EVENTS])
}

/// Adds the commands for a server's answer, and for logs of MariaDB.
fn with_streams<'a>(alloc: Global, command: Command<'a>) -> Result<Command<'a>, AllocError> {
    with_commands(alloc, command, &[FOLLOW, PLAIN])
}

/// Adds the commands that print statements or counts.
fn with_statements<'a>(alloc: Global, command: Command<'a>) -> Result<Command<'a>, AllocError> {
    with_commands(alloc, command, &[SQL, UNDO, STATS])
}

/// The command line of the program.
pub(crate) fn command<'a>(alloc: Global) -> Result<Command<'a>, AllocError> {
    let command = with_readers(alloc, program(alloc, PROGRAM))?;
    let command = with_streams(alloc, command)?;
    with_statements(alloc, command)
}
