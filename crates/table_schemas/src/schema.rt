//! The tables of one schema, by their names.

ghost use Rattle.std.specs.Prelude.{◌≡◌, ◌≤◌, ℕ, [], List, length, IfOk, OnOk, OnErr, is_none};
ghost use Rattle.std.specs.Option.{option_copied};
ghost use Rattle.table_schemas.specs.NamedTables.{names_of as names_bytes};

use crate::schema_table::SchemaTable;
use std::alloc::{AllocError, Global};
use std::collections::BTreeMap;

/// The tables of a schema, by their names as table maps have them.
#[derive(Drop)]
pub struct Schema {
    alloc: Global,
    tables: BTreeMap<Vec<u8>, SchemaTable>,
}

/// The names of a table as table maps have them: each after its length, and with a zero after it.
fn names_of(alloc: Global, database: &[u8], table: &[u8]) -> Result<Vec<u8>, AllocError>
    requires database { length database.now ≤ 255 }
    requires table { length table.now ≤ 255 }
    ensures { IfOk result (λ v. v.items ≡ names_bytes database.now table.now) }
{
    let mut names = Vec::new(alloc);
    names.push(database.len() as u8)?;
    names.extend_from_slice(database)?;
    names.push(0)?;
    names.push(table.len() as u8)?;
    names.extend_from_slice(table)?;
    names.push(0)?;
    Ok(names)
}

impl Schema {
    ghost use Rattle.table_schemas.specs.NamedTables.{AddsTable, named_in, table_named};

    /// Returns no tables.
    pub fn new(alloc: Global) -> Schema
        ensures { named_in result ≡ [] }
    {
        Schema {
            alloc,
            tables: BTreeMap::new(alloc),
        }
    }

    /// Adds a table, and returns whether there was none with its names. Names have 255 bytes at most.
    ///
    /// - `AllocError`: out of memory; the tables are unchanged.
    pub fn add(
        &mut self,
        database: &[u8],
        table: &[u8],
        columns: SchemaTable,
    ) -> Result<bool, AllocError>
        requires database { length database.now ≤ 255 }
        requires table { length table.now ≤ 255 }
        ensures new { IfOk result (λ is_new. is_new ≡ is_none (table_named (names_bytes database.now table.now) (named_in self.old))) }
        ensures added { OnOk result (AddsTable (names_bytes database.now table.now) columns (named_in self.old) (named_in self.new)) }
        ensures err { OnErr result (named_in self.new ≡ named_in self.old) }
    {
        let names = names_of(self.alloc, database, table)?;
        match self.tables.insert(names, columns) {
            Ok(old) => Ok(old.is_none()),
            Err(_) => Err(AllocError),
        }
    }

    /// The table with these names.
    pub(crate) fn get(&self, names: &[u8]) -> Option<&SchemaTable>
        ensures { option_copied result ≡ table_named names.now (named_in self.now) }
    {
        self.tables.get(names)
    }
}
