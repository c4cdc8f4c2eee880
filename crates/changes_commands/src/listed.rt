//! The logs that words of the command line name: a log itself, an index file, or a folder with one.

ghost use Rattle.std.specs.Prelude.{◌≡◌};

use std::alloc::{AllocError, Global};
use std::fs;
use std::io::ErrorKind;
use std::rt::Files;
use thiserror::Error;

/// How the name of an index file ends.
const INDEX_SUFFIX: &str = ".index";

/// The names of the index files that servers write if they aren't told another: MySQL 8, MySQL 5 and MariaDB.
const INDEX_NAMES: [&str; 3] = ["binlog.index", "mysql-bin.index", "mariadb-bin.index"];

/// Why the logs that a word names aren't known.
#[derive(Clone, Copy, Debug, PartialEq, Eq, Error)]
pub enum Unlisted {
    /// It is a folder without an index file.
    #[error("it is a folder without an index file, such as binlog.index; name the logs in it")]
    Folder,
    /// Its index file can't be opened or read.
    #[error("the index file can't be read")]
    Unread,
    /// Its index file lists no logs.
    #[error("the index file lists no logs")]
    Empty,
    /// Out of memory.
    #[error("out of memory")]
    Memory,
}

impl From<AllocError> for Unlisted {
    ghost use Rattle.changes_commands.specs.declared.listed.Unlisted.TheVariants.{Memory};

    ghost from_gives = { λ _ e. e ≡ Memory };

    fn from(_: AllocError) -> Unlisted {
        Unlisted::Memory
    }
}

/// The folder of a path, with the `/` after it.
fn folder_of(path: &str) -> &str {
    match path.rfind('/') {
        Some(at) => path.get(..at + 1).unwrap_or(""),
        None => "",
    }
}

/// Two texts, one after the other.
fn joined(alloc: Global, first: &str, second: &str) -> Result<String, AllocError> {
    let mut text = String::from_str(alloc, first)?;
    text.push_str(second)?;
    Ok(text)
}

/// The path of a log that an index file lists: one without a folder is in that of the index file.
fn path_of(alloc: Global, index: &str, line: &str) -> Result<String, AllocError> {
    if line.starts_with('/') {
        return String::from_str(alloc, line);
    }
    joined(
        alloc,
        folder_of(index),
        line.strip_prefix("./").unwrap_or(line),
    )
}

/// Adds a log.
fn add_log(log: String, logs: &mut Vec<String>) -> Result<(), Unlisted> {
    match logs.push(log) {
        Ok(()) => Ok(()),
        Err(_) => Err(Unlisted::Memory),
    }
}

/// Adds the logs that the text of an index file lists.
fn add_lines(
    alloc: Global,
    index: &str,
    text: &str,
    logs: &mut Vec<String>,
) -> Result<(), Unlisted> {
    let before = logs.len();
    for line in text.lines() {
        if !line.is_empty() {
            add_log(path_of(alloc, index, line)?, logs)?;
        }
    }
    if logs.len() == before {
        return Err(Unlisted::Empty);
    }
    Ok(())
}

/// Adds the logs that an index file lists.
fn add_index<R: Files + AllocGlobal>(
    rt: &R,
    index: &str,
    logs: &mut Vec<String>,
) -> Result<(), Unlisted> {
    match fs::read_to_string(rt, index) {
        Ok(text) => add_lines(rt.alloc(), index, &text, logs),
        Err(error) if error.kind() == ErrorKind::OutOfMemory => Err(Unlisted::Memory),
        Err(_) => Err(Unlisted::Unread),
    }
}

/// Adds the logs that the index file of a folder lists.
fn add_folder<R: Files + AllocGlobal>(
    rt: &R,
    folder: &str,
    logs: &mut Vec<String>,
) -> Result<(), Unlisted> {
    let alloc = rt.alloc();
    let folder = joined(alloc, folder, if folder.ends_with('/') { "" } else { "/" })?;
    for name in INDEX_NAMES {
        let index = joined(alloc, &folder, name)?;
        if fs::metadata(rt, &*index).is_ok() {
            return add_index(rt, &index, logs);
        }
    }
    Err(Unlisted::Folder)
}

/// Whether this is the path of a folder.
fn is_folder<R: Files + AllocGlobal>(rt: &R, path: &str) -> bool {
    match fs::metadata(rt, path) {
        Ok(metadata) => metadata.is_dir(),
        Err(_) => false,
    }
}

/// Adds the paths of the logs that a word of the command line names: those that the index file of a folder lists, or the index file
/// itself, whose name ends with `.index`; else the word is the path of a log.
///
/// - `Folder`: it is a folder without an index file.
/// - `Unread`, `Empty`: the index file can't be read, or lists no logs.
/// - `Memory`: out of memory.
pub fn add_logs<R: Files + AllocGlobal>(
    rt: &R,
    word: &str,
    logs: &mut Vec<String>,
) -> Result<(), Unlisted> {
    if is_folder(rt, word) {
        return add_folder(rt, word, logs);
    }
    if word.ends_with(INDEX_SUFFIX) {
        return add_index(rt, word, logs);
    }
    add_log(String::from_str(rt.alloc(), word)?, logs)
}
