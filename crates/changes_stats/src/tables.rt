//! The tables of all transactions.

ghost use Rattle.std.specs.Prelude.{◌≡◌, ◌∷◌, ◌++◌, List, [], OnOk};
ghost use Rattle.changes_stats.specs.TableSums.{AddsRows, tables_in};

use crate::counts::RowCounts;
use std::alloc::{AllocError, Global};
use std::collections::BTreeMap;

/// Adds rows of the table with this name. `AllocError`: out of memory.
pub(crate) fn add_rows(
    alloc: Global,
    tables: &mut BTreeMap<Vec<u8>, RowCounts>,
    name: &[u8],
    counts: RowCounts,
) -> Result<(), AllocError>
    ensures { OnOk result (AddsRows (tables_in tables.old) (tables_in tables.new) (record { name = name.now; counts = counts })) }
{
    if let Some(so_far) = tables.get_mut(name) {
        *so_far = so_far.plus(counts);
        return Ok(());
    }
    let counts = RowCounts::NONE.plus(counts);
    tables.insert(Vec::from_slice(alloc, name)?, counts)?;
    Ok(())
}

/// The rows of a table, and in how many transactions they are.
#[derive(Clone, Copy)]
pub struct TableTotals {
    /// The number of the table: in the order of the transactions with their first rows, and of the names of one transaction.
    pub number: usize,
    pub counts: RowCounts,
    /// It stays at 2^64 - 1 once it is there.
    pub transactions: u64,
}

/// Tables of one transaction, up to which each two of them are counted.
const MANY_TABLES: usize = 32;

/// Adds one to each pair of these tables. `AllocError`: out of memory.
fn add_pairs(
    numbers: &[usize],
    pairs: &mut BTreeMap<(usize, usize), u64>,
) -> Result<(), AllocError> {
    for one in numbers {
        for other in numbers {
            if one < other {
                let mut count = 0;
                if let Some(so_far) = pairs.get(&(*one, *other)) {
                    count = *so_far;
                }
                pairs.insert((*one, *other), count.saturating_add(1))?;
            }
        }
    }
    Ok(())
}

/// The tables of all transactions.
#[derive(Drop)]
pub struct TableList {
    alloc: Global,
    /// The names of the tables by their numbers.
    pub(crate) names: Vec<Vec<u8>>,
    /// The tables by their names.
    pub(crate) totals: BTreeMap<Vec<u8>, TableTotals>,
    /// The numbers of the tables of the newest transaction.
    newest: Vec<usize>,
    /// In how many transactions two tables are together, by their numbers, the lower one first. It stays at 2^64 - 1 once it is there.
    pub(crate) pairs: BTreeMap<(usize, usize), u64>,
}

impl TableList {
    ghost use Rattle.changes_stats.specs.TableSums.{AreTables, NamedCounts};

    /// No tables.
    pub(crate) fn new(alloc: Global) -> TableList
        ensures { AreTables result [] }
    {
        TableList {
            alloc,
            names: Vec::new(alloc),
            totals: BTreeMap::new(alloc),
            newest: Vec::new(alloc),
            pairs: BTreeMap::new(alloc),
        }
    }

    /// Adds the rows of a table in a transaction. `AllocError`: out of memory.
    fn add_table(&mut self, name: &[u8], counts: RowCounts) -> Result<(), AllocError>
        ensures { OnOk result ((l : List NamedCounts) → AreTables self.old l → AreTables self.new (l ++ record { name = name.now; counts = counts } ∷ [])) }
    {
        if let Some(table) = self.totals.get_mut(name) {
            table.counts = table.counts.plus(counts);
            table.transactions = table.transactions.saturating_add(1);
            self.newest.push(table.number)?;
            return Ok(());
        }
        let number = self.names.len();
        self.names.push(Vec::from_slice(self.alloc, name)?)?;
        self.newest.push(number)?;
        let table = TableTotals {
            number,
            counts: RowCounts::NONE.plus(counts),
            transactions: 1,
        };
        self.totals
            .insert(Vec::from_slice(self.alloc, name)?, table)?;
        Ok(())
    }

    /// Adds the tables of a transaction. `AllocError`: out of memory.
    pub(crate) fn add(&mut self, tables: &BTreeMap<Vec<u8>, RowCounts>) -> Result<(), AllocError>
        ensures { OnOk result ((l : List NamedCounts) → AreTables self.old l → AreTables self.new (l ++ tables_in tables.now)) }
    {
        self.newest.clear();
        for (name, counts) in tables {
            self.add_table(name, *counts)?;
        }
        if self.newest.len() <= MANY_TABLES {
            add_pairs(&self.newest, &mut self.pairs)?;
        }
        Ok(())
    }

    /// The numbers of the tables, those with the most rows first, each after 2^64 - 1 less its rows. `AllocError`: out of memory.
    pub(crate) fn by_rows(&self) -> Result<Vec<(u64, usize)>, AllocError> {
        let mut order = Vec::new(self.alloc);
        for (_, table) in &self.totals {
            order.push((u64::MAX - table.counts.rows(), table.number))?;
        }
        order.sort()?;
        Ok(order)
    }

    /// The name of the table with a number; no bytes if there is none.
    pub(crate) fn name(&self, number: usize) -> &[u8] {
        match self.names.get(number) {
            Some(name) => name,
            None => &[],
        }
    }
}
