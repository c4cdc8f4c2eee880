//! The words of the command line.

use crate::follow_options::FollowOptions;
use crate::format_options::{Format, format_of};
use crate::known_commands::{
    CHARACTER_SET, DATABASE, EXCLUDED, MAX_TRANSACTION, NUMBERS_AS_STRINGS, PAYLOAD,
    SKIP_UNREADABLE, TABLE, TIME_ZONE, TRANSACTION, WITH, command,
};
use crate::member_names::members_in;
use crate::refused::{Refused, Unusable};
use crate::schema_options::{SchemaFile, add_schemas};
use crate::sql_options::{DRY_RUN, LEAVE_OUT, STATEMENTS, SqlOptions, StatsOptions};
use crate::table_names::{add_databases, add_tables};
use crate::time_zone::Zone;
use changes_character_sets::CharacterSet;
use changes_origins::AddedMembers;
use clap::ArgMatches;
use std::alloc::{AllocError, Global};
use std::rt::Files;

/// A command of the program.
#[derive(Clone, Copy)]
pub enum Task {
    /// Prints the changes.
    Json,
    /// Says whether logs are whole.
    Check,
    /// Prints the events.
    Events,
    /// Prints the changes of a server's answer as they are committed.
    Follow,
    /// Writes the log with MySQL's events alone.
    Plain,
    /// Prints the changes as statements.
    Sql,
    /// Prints the statements that take the changes back.
    Undo,
    /// Counts the changes.
    Stats,
}

/// Where to begin, and where to end.
#[derive(Clone, Copy)]
pub struct Range {
    /// Positions, in the first log and in the last one.
    pub start: Option<u32>,
    pub stop: Option<u32>,
    /// Transactions of the last log that end after this position; None for all.
    pub after: Option<u32>,
    /// Seconds since 1970: from this time on, and before that.
    pub from_time: Option<u64>,
    pub to_time: Option<u64>,
}

/// What the program is to do.
#[derive(Drop)]
pub struct Options<'w> {
    pub task: Task,
    /// Whether changes are printed by transaction.
    pub by_transaction: bool,
    /// The format of lines; None for the program's own.
    pub format: Option<Format>,
    pub is_json: bool,
    /// The character set of columns whose character set isn't in the log.
    pub character_set: Option<CharacterSet>,
    /// Whether the numbers of BIGINT columns are printed as strings.
    pub quotes_numbers: bool,
    /// The members that lines have on request.
    pub added: AddedMembers,
    /// The files of the schemas that complete table maps, in their order.
    pub schemas: Vec<SchemaFile<'w>>,
    /// The maximum length of the events of a compressed transaction, in bytes.
    pub max_transaction: u32,
    /// Whether the events in compressed ones are listed too.
    pub lists_payloads: bool,
    /// Whether transactions that can't be read are left out.
    pub skips_unreadable: bool,
    pub follow: FollowOptions<'w>,
    pub sql: SqlOptions<'w>,
    pub stats: StatsOptions<'w>,
    pub range: Range,
    pub databases: Vec<&'w [u8]>,
    /// Tables as `database.table`.
    pub tables: Vec<&'w [u8]>,
    /// Patterns of tables: of the database's name, and of the table's.
    pub table_patterns: Vec<(&'w [u8], &'w [u8])>,
    pub excluded: Vec<&'w [u8]>,
    pub excluded_patterns: Vec<(&'w [u8], &'w [u8])>,
    pub files: Vec<&'w str>,
}

/// The maximum length of the events of a compressed transaction, if no option says it: 1 GiB.
const USUAL_MAX_TRANSACTION: u32 = 1 << 30;

/// The time zone that an option names; UTC if it isn't given.
fn zone_of<R: Files + AllocGlobal>(rt: &R, matches: &ArgMatches<'_>) -> Result<Zone, Unusable> {
    let Some(name) = matches.get_str(TIME_ZONE.name) else {
        return Ok(Zone::UTC);
    };
    match Zone::named(rt, name) {
        Ok(zone) => Ok(zone),
        Err(jiff::Error::OutOfMemory) => Err(Unusable::Memory),
        Err(_) => Err(Unusable::Value(TIME_ZONE.name)),
    }
}

/// The time that an option has, if it is given, in seconds since 1970.
fn time_of(
    matches: &ArgMatches<'_>,
    zone: &Zone,
    option: &'static str,
) -> Result<Option<u64>, Unusable> {
    let Some(text) = matches.get_str(option) else {
        return Ok(None);
    };
    match zone.seconds_of(text) {
        Some(seconds) => Ok(Some(seconds)),
        None => Err(Unusable::Value(option)),
    }
}

/// The character set that an option names, if it is given.
fn character_set_of(matches: &ArgMatches<'_>) -> Result<Option<CharacterSet>, Unusable> {
    let Some(name) = matches.get_str(CHARACTER_SET.name) else {
        return Ok(None);
    };
    match CharacterSet::named(name) {
        Some(set) => Ok(Some(set)),
        None => Err(Unusable::Value(CHARACTER_SET.name)),
    }
}

/// The members that an option names, if it is given.
fn added_of(matches: &ArgMatches<'_>) -> Result<AddedMembers, Unusable> {
    let Some(names) = matches.get_str(WITH.name) else {
        return Ok(AddedMembers::NONE);
    };
    match members_in(names) {
        Some(added) => Ok(added),
        None => Err(Unusable::Value(WITH.name)),
    }
}

/// The position that an option of a command has, if it is given. The answer of a server begins where it was asked to.
fn position_of(task: Task, matches: &ArgMatches<'_>, option: &str) -> Option<u32> {
    match task {
        Task::Follow => None,
        _ => matches.get_one(option),
    }
}

/// Where to begin, and where to end: with a transaction there.
fn range_of(task: Task, matches: &ArgMatches<'_>, zone: &Zone) -> Result<Range, Unusable> {
    let transaction: Option<u32> = match task {
        Task::Events | Task::Follow | Task::Plain => None,
        _ => matches.get_one(TRANSACTION.name),
    };
    Ok(Range {
        start: position_of(task, matches, "start-position"),
        stop: transaction.or(position_of(task, matches, "stop-position")),
        after: transaction.map(|position| position.saturating_sub(1)),
        from_time: time_of(matches, zone, "start-datetime")?,
        to_time: time_of(matches, zone, "stop-datetime")?,
    })
}

/// Adds the files that a command names.
fn add_files<'w>(matches: &ArgMatches<'w>, files: &mut Vec<&'w str>) -> Result<(), AllocError> {
    match matches.get_strs("file") {
        Some(values) => files.extend_from_slice(values),
        None => Ok(()),
    }
}

/// Whether a command prints changes.
fn prints_changes(task: Task) -> bool {
    matches!(task, Task::Json | Task::Follow)
}

impl<'w> Options<'w> {
    /// What a command is to do on standard input, with all tables.
    fn new(alloc: Global, task: Task, matches: &ArgMatches<'w>, range: Range) -> Options<'w> {
        Options {
            task,
            by_transaction: prints_changes(task) && matches.get_flag("transactions"),
            format: None,
            is_json: matches!(task, Task::Check | Task::Stats) && matches.get_flag("json"),
            character_set: None,
            quotes_numbers: prints_changes(task) && matches.get_flag(NUMBERS_AS_STRINGS.name),
            added: AddedMembers::NONE,
            schemas: Vec::new(alloc),
            max_transaction: USUAL_MAX_TRANSACTION,
            lists_payloads: matches!(task, Task::Events) && matches.get_flag(PAYLOAD.name),
            skips_unreadable: matches!(task, Task::Json | Task::Check)
                && matches.get_flag(SKIP_UNREADABLE.name),
            follow: FollowOptions::of(task, matches),
            sql: SqlOptions::none(alloc),
            stats: StatsOptions::NONE,
            range,
            databases: Vec::new(alloc),
            tables: Vec::new(alloc),
            table_patterns: Vec::new(alloc),
            excluded: Vec::new(alloc),
            excluded_patterns: Vec::new(alloc),
            files: Vec::new(alloc),
        }
    }

    /// The same of other files.
    pub fn reading<'n>(self, files: Vec<&'n str>) -> Options<'n>
    where
        'w: 'n,
    {
        Options { files, ..self }
    }

    /// Whether options select transactions.
    pub fn selects(&self) -> bool {
        let range = self.range;
        let has_place = range.start.is_some() || range.stop.is_some();
        let has_time = range.from_time.is_some() || range.to_time.is_some();
        let has_name = !self.databases.is_empty()
            || !self.tables.is_empty()
            || !self.table_patterns.is_empty()
            || !self.excluded.is_empty()
            || !self.excluded_patterns.is_empty();
        has_place || has_time || has_name
    }

    /// Adds what the commands that print statements or count changes have.
    fn add_statement_options(&mut self, matches: &ArgMatches<'w>) -> Result<(), Unusable> {
        match self.task {
            Task::Sql | Task::Undo => {
                self.sql.has_statements = matches!(self.task, Task::Sql)
                    && matches.get_flag(STATEMENTS.name);
                self.sql.leaves_out = matches.get_flag(LEAVE_OUT.name);
                self.sql.is_dry = matches.get_flag(DRY_RUN.name);
                self.sql.add_conditions(matches)
            }
            Task::Stats => {
                self.stats = StatsOptions::of(matches)?;
                Ok(())
            }
            _ => Ok(()),
        }
    }

    /// Adds the names and the files that a command has.
    fn add(&mut self, matches: &ArgMatches<'w>, zone: &Zone) -> Result<(), Unusable> {
        if prints_changes(self.task) {
            self.character_set = character_set_of(matches)?;
            self.added = added_of(matches)?;
            self.format = format_of(self.task, matches)?;
        }
        if let Some(max) = matches.get_one(MAX_TRANSACTION.name) {
            self.max_transaction = max;
        }
        if !matches!(self.task, Task::Events | Task::Plain) {
            add_schemas(matches, self.task, zone, &mut self.schemas)?;
        }
        self.add_statement_options(matches)?;
        add_databases(matches, DATABASE.name, &mut self.databases)?;
        add_tables(
            matches,
            TABLE.name,
            &mut self.tables,
            &mut self.table_patterns,
        )?;
        add_tables(
            matches,
            EXCLUDED.name,
            &mut self.excluded,
            &mut self.excluded_patterns,
        )?;
        if !matches!(self.task, Task::Follow) {
            add_files(matches, &mut self.files)?;
        }
        Ok(())
    }
}

/// What a command is to do.
fn options_of<'w, R: Files + AllocGlobal>(
    rt: &R,
    task: Task,
    matches: &ArgMatches<'w>,
) -> Result<Options<'w>, Unusable> {
    let zone = zone_of(rt, matches)?;
    let range = range_of(task, matches, &zone)?;
    let mut options = Options::new(rt.alloc(), task, matches, range);
    match options.add(matches, &zone) {
        Ok(()) => Ok(options),
        Err(unusable) => Err(unusable),
    }
}

/// What the command `plain` is to do.
fn plain_options<'w>(alloc: Global, matches: &ArgMatches<'w>) -> Result<Options<'w>, Unusable> {
    let range = Range {
        start: None,
        stop: None,
        after: None,
        from_time: None,
        to_time: None,
    };
    let mut options = Options::new(alloc, Task::Plain, matches, range);
    match add_files(matches, &mut options.files) {
        Ok(()) => Ok(options),
        Err(_) => Err(Unusable::Memory),
    }
}

/// What the command that was given is to do.
fn options_in<'w, R: Files + AllocGlobal>(
    rt: &R,
    matches: &ArgMatches<'w>,
) -> Result<Options<'w>, Unusable> {
    match matches.subcommand() {
        Some(("check", matches)) => options_of(rt, Task::Check, matches),
        Some(("events", matches)) => options_of(rt, Task::Events, matches),
        Some(("follow", matches)) => options_of(rt, Task::Follow, matches),
        Some(("plain", matches)) => plain_options(rt.alloc(), matches),
        Some(("sql", matches)) => options_of(rt, Task::Sql, matches),
        Some(("undo", matches)) => options_of(rt, Task::Undo, matches),
        Some(("stats", matches)) => options_of(rt, Task::Stats, matches),
        Some((_, matches)) => options_of(rt, Task::Json, matches),
        None => Err(Unusable::NoCommand),
    }
}

/// Reads the command line.
///
/// - `Words`: a command doesn't take these words, or they ask for help or for the version.
/// - `Value`: the value of an option can't be used.
/// - `NoCommand`: there is no command.
/// - `Memory`: out of memory.
pub fn parse<'w, R: Files + AllocGlobal>(
    rt: &R,
    words: &'w [String],
) -> Result<Options<'w>, Refused> {
    let matches = command(rt.alloc())?.try_get_matches_from(words)?;
    match options_in(rt, &matches) {
        Ok(options) => Ok(options),
        Err(unusable) => Err(Refused::from(unusable)),
    }
}
