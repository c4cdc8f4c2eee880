//! The tables so far.

use crate::no_statement::NoStatement;
use crate::sql_table::SqlTable;
use feed_change_log::TableRows;
use std::alloc::Global;
use std::collections::BTreeMap;

/// The length of a table's id and flags, which differ where the table is the same.
const ID_LEN: usize = 8;

/// The tables so far, by the bytes of their table maps after the id.
#[derive(Drop)]
pub struct SqlTables {
    alloc: Global,
    tables: Vec<SqlTable>,
    /// The indexes of the tables by the bytes of their table maps.
    indexes: BTreeMap<Vec<u8>, usize>,
    /// The indexes of the tables by their names.
    names: BTreeMap<Vec<u8>, usize>,
}

impl SqlTables {
    /// No tables.
    pub fn new(alloc: Global) -> SqlTables {
        SqlTables {
            alloc,
            tables: Vec::new(alloc),
            indexes: BTreeMap::new(alloc),
            names: BTreeMap::new(alloc),
        }
    }

    /// Adds the table of an event with these bytes of its table map.
    fn add(&mut self, rows: TableRows<'_>, bytes: &[u8]) -> Result<usize, NoStatement> {
        let map = rows.table_map(self.alloc)?;
        let table = SqlTable::of(self.alloc, &map)?;
        let index = self.tables.len();
        self.indexes
            .insert(Vec::from_slice(self.alloc, bytes)?, index)?;
        self.tables.push(table)?;
        Ok(index)
    }

    /// Whether the table with this index is the one that had its name before.
    fn is_same(&mut self, index: usize) -> Result<bool, NoStatement> {
        let Some(table) = self.tables.get(index) else {
            return Ok(false);
        };
        if let Some(before) = self.names.get(&table.name) {
            return Ok(*before == index);
        }
        let name = Vec::from_slice(self.alloc, &table.name)?;
        self.names.insert(name, index)?;
        Ok(true)
    }

    /// The table of an event.
    ///
    /// - `Names`: the log doesn't name the columns.
    /// - `OtherColumns`: the table had other columns before, and it has to have the same.
    /// - `Memory`: out of memory.
    pub fn table_of(
        &mut self,
        rows: TableRows<'_>,
        must_be_same: bool,
    ) -> Result<&SqlTable, NoStatement> {
        let bytes = match rows.table_map_bytes().get(ID_LEN..) {
            Some(bytes) => bytes,
            None => return Err(NoStatement::Row),
        };
        let index = match self.indexes.get(bytes) {
            Some(index) => *index,
            None => self.add(rows, bytes)?,
        };
        if must_be_same && !self.is_same(index)? {
            return Err(NoStatement::OtherColumns);
        }
        match self.tables.get(index) {
            Some(table) => Ok(table),
            None => Err(NoStatement::Row),
        }
    }
}
