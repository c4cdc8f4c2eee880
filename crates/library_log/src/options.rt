//! What is read of a log, and how it is shown.

use crate::option_text::{is_line_feed, option_in, parts_of};
use changes_character_sets::CharacterSet;
use changes_origins::AddedMembers;
use changes_tables::{Shown, TableOptions};
use feed_change_log::Filter;
use std::alloc::Global;
use std::str;

/// The maximum length of the events of a compressed transaction, if no option says it: 1 GiB.
const USUAL_MAX_TRANSACTION: u32 = 1 << 30;

/// What stands for any bytes in the names of a table and its database.
const ANY: u8 = b'*';

/// Why options can't be taken.
#[derive(Clone, Copy, Debug, PartialEq, Eq)]
pub enum OptionsFault {
    /// There is no option of this name.
    Name,
    /// The value isn't one of the option's.
    Value,
    /// Out of memory.
    Memory,
}

/// What is read of a log, and how it is shown. Names and the name of the log are the bytes of the text that the options are in.
#[derive(Drop)]
pub struct LogOptions<'t> {
    /// The name of the log.
    pub file: &'t [u8],
    /// Whether transactions are shown as binary records, and not as JSON lines.
    pub as_records: bool,
    /// Whether a line is a transaction, and not a changed row or a statement.
    pub by_transaction: bool,
    /// The character set of columns whose character set isn't in the log.
    pub character_set: Option<CharacterSet>,
    /// Whether the numbers of BIGINT columns are shown as strings.
    pub quotes_numbers: bool,
    /// The members that lines have on request.
    pub added: AddedMembers,
    /// The maximum length of the events of a compressed transaction, in bytes.
    pub max_transaction: u32,
    /// Transactions that end after this position are taken.
    pub after: Option<u32>,
    /// Transactions that end at this position or before it are taken.
    pub up_to: Option<u32>,
    /// Transactions that were committed at this time or later are taken, in seconds since 1970.
    pub from_time: Option<u64>,
    /// Transactions that were committed before this time are taken.
    pub to_time: Option<u64>,
    databases: Vec<&'t [u8]>,
    tables: Vec<&'t [u8]>,
    table_patterns: Vec<(&'t [u8], &'t [u8])>,
    excluded: Vec<&'t [u8]>,
    excluded_patterns: Vec<(&'t [u8], &'t [u8])>,
}

/// The number that a text has.
fn number_in(value: &[u8]) -> Option<u64> {
    let text = str::from_utf8(value).ok()?;
    text.parse::<u64>().ok()
}

/// The position that a text has.
fn position_in(value: &[u8]) -> Option<u32> {
    let text = str::from_utf8(value).ok()?;
    text.parse::<u32>().ok()
}

/// The value, or the fault of one that isn't the option's.
fn known<T>(value: Option<T>) -> Result<T, OptionsFault> {
    match value {
        Some(value) => Ok(value),
        None => Err(OptionsFault::Value),
    }
}

/// Adds a table to the full names, or to the patterns.
fn add_table<'t>(
    name: &'t [u8],
    tables: &mut Vec<&'t [u8]>,
    patterns: &mut Vec<(&'t [u8], &'t [u8])>,
) -> Result<(), OptionsFault> {
    let parts = known(parts_of(name))?;
    let pushed = if name.contains(&ANY) {
        patterns.push(parts).is_ok()
    } else {
        tables.push(name).is_ok()
    };
    if pushed {
        Ok(())
    } else {
        Err(OptionsFault::Memory)
    }
}

impl<'t> LogOptions<'t> {
    /// All transactions of a log without a name.
    fn usual(alloc: Global) -> LogOptions<'t> {
        LogOptions {
            file: &[],
            as_records: false,
            by_transaction: false,
            character_set: None,
            quotes_numbers: false,
            added: AddedMembers::NONE,
            max_transaction: USUAL_MAX_TRANSACTION,
            after: None,
            up_to: None,
            from_time: None,
            to_time: None,
            databases: Vec::new(alloc),
            tables: Vec::new(alloc),
            table_patterns: Vec::new(alloc),
            excluded: Vec::new(alloc),
            excluded_patterns: Vec::new(alloc),
        }
    }

    /// The options in a text: a line for each, a name, `=` and a value.
    ///
    /// - `Name`: there is no option of a line's name.
    /// - `Value`: a value isn't one of its option's.
    /// - `Memory`: out of memory.
    pub fn of(alloc: Global, text: &'t [u8]) -> Result<LogOptions<'t>, OptionsFault> {
        let mut options = LogOptions::usual(alloc);
        for line in text.split(is_line_feed) {
            if !line.is_empty() {
                let (name, value) = option_in(line);
                options.set(name, value)?;
            }
        }
        Ok(options)
    }

    /// Sets an option.
    fn set(&mut self, name: &[u8], value: &'t [u8]) -> Result<(), OptionsFault> {
        if name == b"file".as_slice() {
            self.file = value;
            return Ok(());
        }
        if name == b"with".as_slice() {
            return self.add_member(value);
        }
        if name == b"character-set".as_slice() {
            let named = match str::from_utf8(value) {
                Ok(named) => CharacterSet::named(named),
                Err(_) => None,
            };
            self.character_set = Some(known(named)?);
            return Ok(());
        }
        if name == b"max-transaction".as_slice() {
            self.max_transaction = known(position_in(value))?;
            return Ok(());
        }
        if self.set_flag(name, value)? || self.set_bound(name, value)? {
            return Ok(());
        }
        self.add_name(name, value)
    }

    /// Sets a flag, whose value is `1` or `0`. Returns whether it is one.
    fn set_flag(&mut self, name: &[u8], value: &[u8]) -> Result<bool, OptionsFault> {
        let is_transactions = name == b"transactions".as_slice();
        let is_records = name == b"records".as_slice();
        if !is_transactions && !is_records && name != b"numbers-as-strings".as_slice() {
            return Ok(false);
        }
        let flag = value == b"1".as_slice();
        if !flag && value != b"0".as_slice() {
            return Err(OptionsFault::Value);
        }
        if is_transactions {
            self.by_transaction = flag;
        } else if is_records {
            self.as_records = flag;
        } else {
            self.quotes_numbers = flag;
        }
        Ok(true)
    }

    /// Sets a bound of positions or times. Returns whether it is one.
    fn set_bound(&mut self, name: &[u8], value: &[u8]) -> Result<bool, OptionsFault> {
        if name == b"after".as_slice() {
            self.after = Some(known(position_in(value))?);
            return Ok(true);
        }
        if name == b"up-to".as_slice() {
            self.up_to = Some(known(position_in(value))?);
            return Ok(true);
        }
        if name == b"from-time".as_slice() {
            self.from_time = Some(known(number_in(value))?);
            return Ok(true);
        }
        if name == b"to-time".as_slice() {
            self.to_time = Some(known(number_in(value))?);
            return Ok(true);
        }
        Ok(false)
    }

    /// Adds a member that lines have.
    fn add_member(&mut self, name: &[u8]) -> Result<(), OptionsFault> {
        if name == b"begin".as_slice() {
            self.added.begin = true;
        } else if name == b"ts_ms".as_slice() {
            self.added.ts_ms = true;
        } else if name == b"xid".as_slice() {
            self.added.xid = true;
        } else if name == b"thread_id".as_slice() {
            self.added.thread_id = true;
        } else if name == b"query".as_slice() {
            self.added.query = true;
        } else if name == b"row".as_slice() {
            self.added.row = true;
        } else if name == b"all".as_slice() {
            self.added = AddedMembers::ALL;
        } else {
            return Err(OptionsFault::Value);
        }
        Ok(())
    }

    /// Adds a database or a table.
    fn add_name(&mut self, name: &[u8], value: &'t [u8]) -> Result<(), OptionsFault> {
        if name == b"database".as_slice() {
            if value.is_empty() || value.contains(&ANY) {
                return Err(OptionsFault::Value);
            }
            return match self.databases.push(value) {
                Ok(()) => Ok(()),
                Err(_) => Err(OptionsFault::Memory),
            };
        }
        if name == b"table".as_slice() {
            return add_table(value, &mut self.tables, &mut self.table_patterns);
        }
        if name == b"exclude-table".as_slice() {
            return add_table(value, &mut self.excluded, &mut self.excluded_patterns);
        }
        Err(OptionsFault::Name)
    }

    /// Which transactions and which of their changes are taken.
    pub fn filter(&self) -> Filter<'_> {
        Filter {
            databases: &self.databases,
            tables: &self.tables,
            table_patterns: &self.table_patterns,
            excluded: &self.excluded,
            excluded_patterns: &self.excluded_patterns,
            after: self.after,
            up_to: self.up_to,
            from_time: self.from_time,
            to_time: self.to_time,
        }
    }

    /// What tables are shown by.
    pub fn table_options(&self) -> TableOptions {
        TableOptions {
            unnamed: match self.character_set {
                Some(set) => Shown::Text(set),
                None => Shown::Unknown,
            },
            quotes_numbers: self.quotes_numbers,
        }
    }
}
