//! The files of the option `--schema`, and where each begins.

ghost use Rattle.std.specs.Prelude.{◌≡◌, ◌<◌, ◌&&◌, IfErr, OnOk, map, option_map};
ghost use Rattle.changes_commands.specs.SchemaOptions.{beginning_view, file_view, is_placed, texts, time_in, AddsFiles, IsBeginning, IsFileOf, IsPlace, IsPosition, IsWhyUnusable};

use crate::command_line::Task;
use crate::known_commands::SCHEMA;
use crate::refused::Unusable;
use crate::split::split_last;
use crate::time_zone::Zone;
use clap::ArgMatches;

/// Where the schema of a file begins.
#[derive(Clone, Copy)]
pub enum SchemaBeginning<'w> {
    /// Before all events.
    First,
    /// With the events of this time, in seconds since 1970.
    Time(u32),
    /// After this position of the log with this name.
    Position(&'w str, u32),
}

/// A file with a schema.
#[derive(Clone, Copy)]
pub struct SchemaFile<'w> {
    pub path: &'w str,
    pub beginning: SchemaBeginning<'w>,
}

/// The position that a text is in decimal.
fn position_of(text: &str) -> Option<u32>
    ensures { IsPosition text.now result }
{
    match text.parse() {
        Ok(position) => Some(position),
        Err(_) => None,
    }
}

/// The log and the position that a text is, with a colon between them.
fn place_of(text: &str) -> Option<SchemaBeginning<'_>>
    ensures { IsPlace text.now (option_map beginning_view result) }
{
    let (log, digits) = split_last(text, ':')?;
    let position = position_of(digits)?;
    Some(SchemaBeginning::Position(log, position))
}

/// The time that so many seconds are, if it has 32 bits as those of events.
fn time_of<'w>(seconds: u64) -> Option<SchemaBeginning<'w>>
    ensures { option_map beginning_view result ≡ time_in seconds }
{
    match u32::try_from(seconds) {
        Ok(seconds) => Some(SchemaBeginning::Time(seconds)),
        Err(_) => None,
    }
}

/// The time in a zone, or else the log and the position, that a text is.
fn beginning_of<'w>(text: &'w str, zone: &Zone) -> Option<SchemaBeginning<'w>>
    ensures { IsBeginning zone.now text.now (option_map beginning_view result) }
{
    match zone.seconds_of(text) {
        Some(seconds) => time_of(seconds),
        None => place_of(text),
    }
}

/// The file that a word names, and where its schema begins: after the last `@`, if a time or a position follows.
fn file_of<'w>(word: &'w str, zone: &Zone) -> SchemaFile<'w>
    ensures { IsFileOf zone.now word.now (file_view result) }
{
    if let Some((path, text)) = split_last(word, '@')
        && let Some(beginning) = beginning_of(text, zone)
    {
        return SchemaFile { path, beginning };
    }
    SchemaFile {
        path: word,
        beginning: SchemaBeginning::First,
    }
}

/// Whether a schema begins at a position of a log.
fn is_placed(file: &SchemaFile<'_>) -> bool
    ensures { result ≡ is_placed (file_view file.now) }
{
    matches!(file.beginning, SchemaBeginning::Position(..))
}

/// Whether a file can't be used: an answer of a server has no positions of a log that is known before.
fn is_unusable(is_answer: bool, file: &SchemaFile<'_>) -> bool
    ensures { result ≡ (is_answer && is_placed (file_view file.now)) }
{
    is_answer && is_placed(file)
}

/// Adds the files that words name, in their order. `is_answer` is whether an answer of a server is read.
///
/// - `Value`: a schema begins at a position of a log, and an answer is read.
/// - `Memory`: out of memory.
fn add_files<'w>(
    words: &[&'w str],
    is_answer: bool,
    zone: &Zone,
    files: &mut Vec<SchemaFile<'w>>,
) -> Result<(), Unusable>
    ensures ok { OnOk result (AddsFiles zone.now is_answer (texts words.now) (map file_view files.old.items) (map file_view files.new.items)) }
    ensures err { IfErr result (IsWhyUnusable zone.now is_answer (texts words.now)) }
{
    for word in words {
        let file = file_of(*word, zone);
        if is_unusable(is_answer, &file) {
            return Err(Unusable::Value(SCHEMA.name));
        }
        if files.push(file).is_err() {
            return Err(Unusable::Memory);
        }
    }
    Ok(())
}

/// Adds the files that the values of the option name, in their order.
///
/// - `Value`: a schema of the command `follow` begins at a position.
/// - `Memory`: out of memory.
pub(crate) fn add_schemas<'w>(
    matches: &ArgMatches<'w>,
    task: Task,
    zone: &Zone,
    files: &mut Vec<SchemaFile<'w>>,
) -> Result<(), Unusable> {
    match matches.get_strs(SCHEMA.name) {
        Some(words) => add_files(words, matches!(task, Task::Follow), zone, files),
        None => Ok(()),
    }
}
