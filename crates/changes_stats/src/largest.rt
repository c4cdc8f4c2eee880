//! The largest transactions.

ghost use Rattle.std.specs.Prelude.{◌≡◌, ◌≤◌, ◌∷◌, ◌++◌, List, [], IfOk, OnOk, map, vec_len};
ghost use Rattle.changes_stats.specs.CountedTransactions.{large, transaction_of};
ghost use Rattle.changes_stats.specs.Largest.{Large, large_of};
ghost use Rattle.changes_stats.specs.TableNames.{names_text};
ghost use Rattle.changes_stats.specs.TableSums.{tables_in};

use crate::counts::RowCounts;
use crate::recorder::StatsRecorder;
use feed_transactions::KeptGtid;
use std::alloc::{AllocError, Global};
use std::collections::BTreeMap;

/// One of the largest transactions.
#[derive(Drop)]
pub struct LargeTransaction {
    pub rows: u64,
    pub bytes: u64,
    /// Its log, the position at which it begins, and the position after it.
    pub file: Vec<u8>,
    pub begin: u32,
    pub end: u32,
    pub seconds: u32,
    pub gtid: KeptGtid,
    /// The names of its tables, with commas between them.
    pub tables: Vec<u8>,
}

impl LargeTransaction {
    /// The newest transaction of a recorder, of a log with this name. `AllocError`: out of memory.
    fn of(
        alloc: Global,
        file: &[u8],
        newest: &StatsRecorder<'_>,
    ) -> Result<LargeTransaction, AllocError>
        ensures { IfOk result (λ t. large_of t ≡ large (transaction_of file.now newest.now)) }
    {
        let end = newest.commit.log_pos();
        let mut gtid = KeptGtid::new(alloc);
        gtid.keep_of(&newest.gtid)?;
        Ok(LargeTransaction {
            rows: newest.all.rows(),
            bytes: u64::from(end.wrapping_sub(newest.begin)),
            file: Vec::from_slice(alloc, file)?,
            begin: newest.begin,
            end,
            seconds: newest.commit.timestamp(),
            gtid,
            tables: names_of(alloc, &newest.tables)?,
        })
    }
}

/// The names of tables, with commas between them. `AllocError`: out of memory.
fn names_of(alloc: Global, tables: &BTreeMap<Vec<u8>, RowCounts>) -> Result<Vec<u8>, AllocError>
    ensures { IfOk result (λ v. v.items ≡ names_text (map (λ t. t.name) (tables_in tables.now))) }
{
    let mut names = Vec::new(alloc);
    let mut rest = tables.iter();
    let Some((first, _)) = rest.next() else {
        return Ok(names);
    };
    names.extend_from_slice(first)?;
    for (name, _) in rest {
        names.extend_from_slice(b", ")?;
        names.extend_from_slice(name)?;
    }
    Ok(names)
}

/// The largest transactions, the largest first.
#[derive(Drop)]
pub struct LargestTransactions {
    alloc: Global,
    /// How many are kept.
    count: usize,
    pub list: Vec<LargeTransaction>,
}

impl LargestTransactions {
    ghost use Rattle.changes_stats.specs.Largest.{AreLargest, index_of};

    /// No transactions; so many will be kept.
    pub(crate) fn new(alloc: Global, count: usize) -> LargestTransactions
        ensures none { AreLargest result [] }
        ensures count { result.count ≡ count }
    {
        LargestTransactions {
            alloc,
            count,
            list: Vec::new(alloc),
        }
    }

    /// The index at which a transaction of so many rows belongs: after those with as many.
    fn index_of(&self, rows: u64) -> usize
        ensures index { result ≡ index_of rows (map large_of self.now.list.items) }
        ensures within { result ≤ vec_len self.now.list }
    {
        for (index, other) in self.list.iter().enumerate() {
            if other.rows < rows {
                return index;
            }
        }
        self.list.len()
    }

    /// Adds the newest transaction of a recorder, of a log with this name, if it has rows and is one of the largest. `AllocError`: out of
    /// memory.
    pub(crate) fn add(&mut self, file: &[u8], newest: &StatsRecorder<'_>) -> Result<(), AllocError>
        ensures count { self.new.count ≡ self.old.count }
        ensures added { OnOk result ((l : List Large) → AreLargest self.old l → AreLargest self.new (l ++ large (transaction_of file.now newest.now) ∷ [])) }
    {
        let rows = newest.all.rows();
        if rows == 0 {
            return Ok(());
        }
        let index = self.index_of(rows);
        if index >= self.count {
            return Ok(());
        }
        let large = LargeTransaction::of(self.alloc, file, newest)?;
        self.list.insert(index, large)?;
        self.list.truncate(self.count);
        Ok(())
    }
}
