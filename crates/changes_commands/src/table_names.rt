//! The databases and tables that options name.

use crate::refused::Unusable;
use clap::ArgMatches;

/// What stands for any bytes in the names of a table and its database.
const ANY: u8 = b'*';

/// What ends the name of a table's database.
const POINT: u8 = b'.';

/// Adds the databases that the values of an option name, with commas between them.
///
/// - `Value`: a name is empty, or it has `*`.
/// - `Memory`: out of memory.
pub(crate) fn add_databases<'w>(
    matches: &ArgMatches<'w>,
    option: &'static str,
    databases: &mut Vec<&'w [u8]>,
) -> Result<(), Unusable> {
    let Some(values) = matches.get_strs(option) else {
        return Ok(());
    };
    for value in values {
        let value: &'w str = *value;
        for name in value.split(',') {
            let name = name.as_bytes();
            if name.is_empty() || name.contains(&ANY) {
                return Err(Unusable::Value(option));
            }
            if let Err(_) = databases.push(name) {
                return Err(Unusable::Memory);
            }
        }
    }
    Ok(())
}

/// Adds the tables that the values of an option name, with commas between them: full names, and patterns where a name has `*`. The first
/// point ends the name of the database.
///
/// - `Value`: a name has no point, or nothing before or after it.
/// - `Memory`: out of memory.
pub(crate) fn add_tables<'w>(
    matches: &ArgMatches<'w>,
    option: &'static str,
    tables: &mut Vec<&'w [u8]>,
    patterns: &mut Vec<(&'w [u8], &'w [u8])>,
) -> Result<(), Unusable> {
    let Some(values) = matches.get_strs(option) else {
        return Ok(());
    };
    for value in values {
        let value: &'w str = *value;
        for name in value.split(',') {
            let Some((database, table)) = parts_of(name.as_bytes()) else {
                return Err(Unusable::Value(option));
            };
            let is_full = if name.as_bytes().contains(&ANY) {
                patterns.push((database, table)).is_err()
            } else {
                tables.push(name.as_bytes()).is_err()
            };
            if is_full {
                return Err(Unusable::Memory);
            }
        }
    }
    Ok(())
}

/// The names of a database and a table, with a point between them; None if one is missing.
fn parts_of(name: &[u8]) -> Option<(&[u8], &[u8])> {
    let at = name.iter().position(|byte| *byte == POINT)?;
    let (database, rest) = name.split_at(at);
    let (_, table) = rest.split_first()?;
    if database.is_empty() || table.is_empty() {
        return None;
    }
    Some((database, table))
}
