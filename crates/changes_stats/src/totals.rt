//! The counts of all transactions.

ghost use Rattle.std.specs.Prelude.{◌≡◌, ◌++◌, List, [], OnOk, max};
ghost use Rattle.changes_stats.specs.CountedTransactions.{Counted, counted};

use crate::counts::Counts;
use crate::course::Course;
use crate::largest::LargestTransactions;
use crate::recorder::StatsRecorder;
use crate::tables::TableList;
use std::alloc::{AllocError, Global};

/// The counts of all transactions.
#[derive(Drop)]
pub struct Totals {
    pub counts: Counts,
    pub tables: TableList,
    pub largest: LargestTransactions,
    pub course: Course,
}

impl Totals {
    ghost use Rattle.changes_stats.specs.CountedTransactions.{AreTotals};

    /// No transactions. The course is by periods of so many seconds, and so many of the largest transactions are kept.
    pub fn new(alloc: Global, period: u32, largest: usize) -> Totals
        ensures none { AreTotals result [] }
        ensures period { result.course.period ≡ max period 1 }
        ensures kept { result.largest.count ≡ largest }
    {
        Totals {
            counts: Counts::NONE,
            tables: TableList::new(alloc),
            largest: LargestTransactions::new(alloc, largest),
            course: Course::new(alloc, period),
        }
    }

    /// Adds the newest transaction of a recorder, of a log with this name, if it has rows or statements.
    ///
    /// - `AllocError`: out of memory; a part of it may be added.
    pub fn add(&mut self, file: &[u8], newest: &StatsRecorder<'_>) -> Result<(), AllocError>
        ensures period { self.new.course.period ≡ self.old.course.period }
        ensures kept { self.new.largest.count ≡ self.old.largest.count }
        ensures added { OnOk result ((l : List Counted) → AreTotals self.old l → AreTotals self.new (l ++ counted file.now newest.now)) }
    {
        if newest.is_empty() {
            return Ok(());
        }
        let bytes = u64::from(newest.commit.log_pos().wrapping_sub(newest.begin));
        self.counts = self
            .counts
            .with_transaction(newest.all, newest.statements, bytes);
        self.course
            .add(newest.commit.timestamp(), newest.all.rows())?;
        self.tables.add(&newest.tables)?;
        self.largest.add(file, newest)?;
        Ok(())
    }
}
