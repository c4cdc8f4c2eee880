//! The course of the transactions over time.

ghost use Rattle.std.specs.Prelude.{◌≡◌, ◌<◌, ◌∷◌, ◌++◌, ℕ, List, [], OnOk, max};

use std::alloc::{AllocError, Global};
use std::collections::BTreeMap;

/// Rows and transactions. Each stays at 2^64 - 1 once it is there.
#[derive(Clone, Copy)]
pub struct PeriodTotals {
    pub rows: u64,
    pub transactions: u64,
}

/// The course over time.
#[derive(Drop)]
pub struct Course {
    /// The length of a period in seconds.
    pub period: u32,
    /// The time of the first and of the last transaction.
    pub times: Option<(u32, u32)>,
    /// The periods with transactions by the second at which they begin.
    pub periods: BTreeMap<u32, PeriodTotals>,
    ghost some: { 0 < period },
}

impl Course {
    ghost use Rattle.changes_stats.specs.Courses.{IsCourse};

    /// No transactions. A period of 0 seconds is one of 1.
    pub(crate) fn new(alloc: Global, period: u32) -> Course
        ensures none { IsCourse result [] }
        ensures period { result.period ≡ max period 1 }
    {
        Course {
            period: period.max(1),
            times: None,
            periods: BTreeMap::new(alloc),
        }
    }

    /// Adds a transaction of so many rows. `AllocError`: out of memory.
    pub(crate) fn add(&mut self, seconds: u32, rows: u64) -> Result<(), AllocError>
        ensures period { self.new.period ≡ self.old.period }
        ensures added { OnOk result ((l : List (ℕ × ℕ)) → IsCourse self.old l → IsCourse self.new (l ++ (seconds, rows) ∷ [])) }
    {
        self.times = match self.times {
            None => Some((seconds, seconds)),
            Some((first, last)) => Some((first.min(seconds), last.max(seconds))),
        };
        let start = seconds - seconds % self.period;
        let mut period = PeriodTotals {
            rows: 0,
            transactions: 0,
        };
        if let Some(so_far) = self.periods.get(&start) {
            period = *so_far;
        }
        period.rows = period.rows.saturating_add(rows);
        period.transactions = period.transactions.saturating_add(1);
        self.periods.insert(start, period)?;
        Ok(())
    }

    /// The most rows of a period.
    pub(crate) fn most_rows(&self) -> u64 {
        let mut most = 0;
        for (_, period) in &self.periods {
            most = most.max(period.rows);
        }
        most
    }
}
