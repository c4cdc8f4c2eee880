//! The tables so far.

ghost use Rattle.std.specs.Prelude.{◌≡◌, ◌↔◌, List, ℕ, [], Option, Some, IsTrue, OnOk, OnErr, IsSomeAnd};
ghost use Rattle.std.specs.Option.{option_copied};
ghost use Rattle.rows_table_map.specs.TableMaps.{TableMap};
ghost use Rattle.rows_table_map.specs.MapViews.{map_of};
ghost use Rattle.changes_tables.specs.ShownTables.{IsShownTable, lacks_of};
ghost use Rattle.changes_tables.specs.TablesSoFar.{Keeps, IsNewest, both_lack, lacks_nothing, newest_table};

use crate::columns::TableOptions;
use crate::tables::{Lacks, ShownTable};
use rows_table_map::TableMapEvent;
use std::alloc::{AllocError, Global};
use std::collections::BTreeMap;

/// The tables are dropped once they have so many columns in all.
const MAX_COLUMNS: usize = 131_072;

/// A table and the bytes of its table map.
#[derive(Drop)]
struct KeptTable {
    map: Vec<u8>,
    table: ShownTable,
}

/// The tables so far, by the bytes of their table maps. Different tables must have different bytes; one whose bytes aren't known has
/// none, is added and not selected.
///
/// [`ShownTables::select`] finds the table of a table map, [`ShownTables::add`] adds it, and [`ShownTables::newest`] is the table that
/// was found or added last. A table takes memory until its columns and those of later tables are 131,072.
#[derive(Drop)]
pub struct ShownTables {
    alloc: Global,
    options: TableOptions,
    tables: Vec<KeptTable>,
    /// The indexes of the tables by the bytes of their table maps.
    indexes: BTreeMap<Vec<u8>, usize>,
    newest: usize,
    /// The columns of all tables.
    columns: usize,
    /// What the maps of all tables so far lack.
    lacks: Lacks,
}

impl ShownTables {
    /// Returns no tables, for tables that are shown by these options.
    pub fn new(alloc: Global, options: TableOptions) -> ShownTables
        ensures options { result.options ≡ options }
        ensures tables { result.tables.items ≡ [] }
        ensures lacks { result.lacks ≡ lacks_nothing }
    {
        ShownTables {
            alloc,
            options,
            tables: Vec::new(alloc),
            indexes: BTreeMap::new(alloc),
            newest: 0,
            columns: 0,
            lacks: Lacks {
                signs: false,
                character_sets: false,
            },
        }
    }

    /// Returns what the maps of all tables so far lack.
    pub fn lacks(&self) -> Lacks
        ensures { result ≡ self.now.lacks }
    {
        self.lacks
    }

    /// Returns whether the newest table has a map of these bytes.
    fn is_newest(&self, map: &[u8]) -> bool
        ensures { IsTrue result ↔ IsNewest map.now self.now }
    {
        match self.tables.get(self.newest) {
            Some(kept) => kept.map.as_slice() == map,
            None => false,
        }
    }

    /// Makes the table with a table map of these bytes the newest, and returns whether there is one.
    pub fn select(&mut self, map: &[u8]) -> bool
        ensures newest { IsTrue result ↔ IsNewest map.now self.new }
        ensures unchanged { self.new ≡ record self.old { newest = self.new.newest } }
    {
        if self.is_newest(map) {
            return true;
        }
        if let Some(index) = self.indexes.get(map) {
            self.newest = *index;
        }
        self.is_newest(map)
    }

    /// Drops all tables if they have too many columns.
    fn drop_many(&mut self)
        ensures options { self.new.options ≡ self.old.options }
        ensures kept { (reads : List ℕ → Option TableMap) → Keeps reads self.old → Keeps reads self.new }
        ensures lacks { self.new.lacks ≡ self.old.lacks }
    {
        if self.columns >= MAX_COLUMNS {
            self.tables.clear();
            self.indexes.clear();
            self.columns = 0;
        }
    }

    /// Adds the table with this table map, whose bytes these are, and makes it the newest.
    ///
    /// - `AllocError`: out of memory; there may be no newest table then.
    pub fn add(&mut self, map: &TableMapEvent<'_>, bytes: &[u8]) -> Result<(), AllocError>
        ensures options { self.new.options ≡ self.old.options }
        ensures kept { (reads : List ℕ → Option TableMap) → Keeps reads self.old → ((m : TableMap) → reads bytes.now ≡ Some m → m ≡ map_of map.now) → Keeps reads self.new }
        ensures newest { OnOk result (IsNewest bytes.now self.new) }
        ensures shown { OnOk result (IsSomeAnd (newest_table self.new) (IsShownTable self.new.options (map_of map.now))) }
        ensures lacks { OnOk result (self.new.lacks ≡ both_lack self.old.lacks (lacks_of (map_of map.now))) }
        ensures err { OnErr result (self.new.lacks ≡ self.old.lacks) }
    {
        let table = ShownTable::of(self.alloc, self.options, map)?;
        let lacks = Lacks {
            signs: self.lacks.signs || table.lacks.signs,
            character_sets: self.lacks.character_sets || table.lacks.character_sets,
        };
        let kept = Vec::from_slice(self.alloc, bytes)?;
        let key = Vec::from_slice(self.alloc, bytes)?;
        self.drop_many();
        let index = self.tables.len();
        let count = self.columns.saturating_add(table.columns.len());
        self.indexes.insert(key, index)?;
        self.tables.push(KeptTable { map: kept, table })?;
        self.newest = index;
        self.columns = count;
        self.lacks = lacks;
        Ok(())
    }

    /// Returns the newest table; None if there is none.
    pub fn newest(&self) -> Option<&ShownTable>
        ensures table { option_copied result ≡ newest_table self.now }
        ensures shown { (reads : List ℕ → Option TableMap) (bytes : List ℕ) (m : TableMap) → Keeps reads self.now → reads bytes ≡ Some m → IsNewest bytes self.now → IsSomeAnd result (λ table. IsShownTable self.now.options m table.now) }
    {
        match self.tables.get(self.newest) {
            Some(kept) => Some(&kept.table),
            None => None,
        }
    }
}
