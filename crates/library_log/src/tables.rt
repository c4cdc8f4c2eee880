//! The tables of records.

ghost use Rattle.std.specs.Prelude.{◌≤◌, [], OnOk, vec_len};
ghost use Rattle.library_log.specs.RecordLayouts.{AppendsElements};

use crate::columns::put_table;
use crate::numbers::{put_half, put_text};
use changes_tables::{Shown, ShownColumn, ShownTable, TableOptions};
use feed_change_log::TableRows;
use std::alloc::{AllocError, Global};
use std::collections::BTreeMap;

/// The kind of a table's element.
const TABLE: u32 = 5;

/// How many tables are kept from record to record.
const MAX_TABLES: usize = 4096;

/// A table: the body of its table map, the content of its element, and its columns.
#[derive(Drop)]
pub(crate) struct RecordTable {
    map: Vec<u8>,
    content: Vec<u8>,
    pub(crate) columns: Vec<ShownColumn>,
    /// The number of the newest record that it is in, and its index there.
    record: u64,
    pub(crate) index: u32,
}

/// The tables of the records so far, by their ids.
#[derive(Drop)]
pub(crate) struct RecordTables {
    alloc: Global,
    tables: BTreeMap<u64, RecordTable>,
    /// The number of the open record, and of its tables so far.
    record: u64,
    count: u32,
}

/// The table of these rows, in no record yet.
fn table_of(alloc: Global, rows: TableRows<'_>) -> Result<RecordTable, AllocError> {
    let map = rows.table_map(alloc)?;
    let options = TableOptions {
        unnamed: Shown::Unknown,
        quotes_numbers: false,
    };
    let ShownTable { columns, .. } = ShownTable::of(alloc, options, &map)?;
    let mut content = Vec::new(alloc);
    put_table(alloc, &map, &mut content)?;
    Ok(RecordTable {
        map: Vec::from_slice(alloc, rows.table_map_bytes())?,
        content,
        columns,
        record: 0,
        index: 0,
    })
}

/// Appends the element of the table with this index, which has this content.
fn put_element(index: u32, content: &[u8], out: &mut Vec<u8>) -> Result<(), AllocError>
    ensures appended { OnOk result (AppendsElements [] out.old.items out.new.items) }
    ensures more { OnOk result (vec_len out.old ≤ vec_len out.new) }
{
    put_half(TABLE, out)?;
    put_half(index, out)?;
    put_text(content, out)
}

impl RecordTables {
    /// No tables.
    pub(crate) fn new(alloc: Global) -> RecordTables {
        RecordTables {
            alloc,
            tables: BTreeMap::new(alloc),
            record: 0,
            count: 0,
        }
    }

    /// Begins a record.
    pub(crate) fn begin(&mut self) {
        if self.tables.len() > MAX_TABLES {
            self.tables.clear();
        }
        self.record = self.record.saturating_add(1);
        self.count = 0;
    }

    /// Whether the table of these rows is known.
    fn has(&self, rows: TableRows<'_>) -> bool {
        match self.tables.get(&rows.table_id()) {
            Some(table) => table.map.as_slice() == rows.table_map_bytes(),
            None => false,
        }
    }

    /// Appends the element of the table of these rows, if it isn't in the record yet. `AllocError`: out of memory.
    pub(crate) fn put(&mut self, rows: TableRows<'_>, out: &mut Vec<u8>) -> Result<(), AllocError>
        ensures appended { OnOk result (AppendsElements [] out.old.items out.new.items) }
        ensures more { OnOk result (vec_len out.old ≤ vec_len out.new) }
    {
        let id = rows.table_id();
        if !self.has(rows) {
            self.tables.insert(id, table_of(self.alloc, rows)?)?;
        }
        let Some(table) = self.tables.get_mut(&id) else {
            return Err(AllocError);
        };
        if table.record == self.record {
            return Ok(());
        }
        table.record = self.record;
        table.index = self.count;
        self.count = self.count.saturating_add(1);
        put_element(table.index, &table.content, out)
    }

    /// The table of these rows, once it is in a record.
    pub(crate) fn get(&self, rows: TableRows<'_>) -> Option<&RecordTable> {
        self.tables.get(&rows.table_id())
    }
}
