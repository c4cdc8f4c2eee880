//! The columns of a table that have a plan.

ghost use Rattle.std.specs.Prelude.{◌≡◌, ℕ, [], IfOk, Ok, Err, false, is_ok};
ghost use Rattle.rows_errors.specs.Readings.{map_reading};
ghost use Rattle.rows_table_map.specs.Lists.{strings};
ghost use Rattle.rows_event_body.specs.Plans.{Table};
ghost use Rattle.rows_event_body.specs.Walks.{IsWalkAt, AreColumns};

use crate::column::PlannedColumn;
use crate::walk::ColumnWalk;
use rows_errors::RowsError;
use rows_table_map::{ColumnNames, IterNames, OptionalMetaExtractor, TableMapEvent};
use std::alloc::{AllocError, Global};

/// The columns of a table, from the first on, about which its table map has all that reading a row needs.
#[derive(Drop)]
pub(crate) struct ColumnRun {
    columns: Vec<PlannedColumn>,
    /// The names of the columns, as encoded in the optional metadata.
    names: Vec<u8>,
    /// Whether the fields of the optional metadata could be read; if not, there is no plan for any number of columns.
    is_served: bool,
    /// The error of the first column that has no plan, or of the optional metadata.
    stop: RowsError,
}

impl ColumnRun {
    ghost use Rattle.rows_event_body.specs.PlanViews.{plan_of, planned, columns_shown, is_within_reach};
    ghost use Rattle.rows_table_map.specs.MetadataViews.{remaining_names};

    /// Creates the run of a table. Returns `AllocError` if out of memory, and for a table of 2^32 or more columns, which no event
    /// can have.
    pub(crate) fn new(alloc: Global, table_map: &TableMapEvent<'_>) -> Result<ColumnRun, AllocError>
        ensures { IfOk result (λ run. (n : ℕ) → planned run n ≡ plan_of table_map.now n) }
    {
        let metadata = match OptionalMetaExtractor::new(table_map.iter_optional_meta()) {
            Ok(metadata) => metadata,
            Err(fault) => return Ok(ColumnRun::without_columns(alloc, fault)),
        };
        let mut columns = Vec::new(alloc);
        let walk = ColumnWalk::new(table_map.columns(), &metadata);
        let stop = append_columns(walk, &mut columns)?;
        Ok(ColumnRun {
            columns,
            names: Vec::from_slice(alloc, metadata.column_names().value())?,
            is_served: true,
            stop,
        })
    }

    /// Creates the run of a table whose optional metadata has this error.
    fn without_columns(alloc: Global, fault: RowsError) -> ColumnRun
        ensures served { result.is_served ≡ false }
        ensures stop { result.stop ≡ fault }
    {
        ColumnRun {
            columns: Vec::new(alloc),
            names: Vec::new(alloc),
            is_served: false,
            stop: fault,
        }
    }

    /// Returns the first `count` columns; or the error of the first of them that has no plan, or of the optional metadata.
    #[tactic(auto, using(crate::proofs::PlanLemmas::taken_from))]
    pub(crate) fn first(&self, count: usize) -> Result<&[PlannedColumn], RowsError>
        ensures { map_reading (columns_shown (strings self.now.names.items)) result ≡ planned self.now count }
    {
        if self.is_served && count <= self.columns.len() {
            Ok(&self.columns[..count])
        } else {
            Err(self.stop)
        }
    }

    /// Iterates over the names that the optional metadata has for the columns, in order.
    pub(crate) fn names(&self) -> IterNames<'_>
        ensures { remaining_names result ≡ strings self.now.names.items }
    {
        ColumnNames::of_value(&self.names).iter_names()
    }

    /// Returns the greatest number of columns that have a plan; None if there is no plan, not even for zero columns.
    pub(crate) fn reach(&self) -> Option<u64>
        ensures { (n : ℕ) → is_ok (planned self.now n) ≡ is_within_reach n result }
    {
        if self.is_served {
            Some(self.columns.len() as u64)
        } else {
            None
        }
    }
}

/// Appends the columns up to the first that has an error, and returns that error.
fn append_columns(
    walk: ColumnWalk<'_>,
    columns: &mut Vec<PlannedColumn>,
) -> Result<RowsError, AllocError>
    requires none { columns.old.items ≡ [] }
    requires json { walk.json_columns ≡ 0 }
    ensures { IfOk result (λ stop. (t : Table) → IsWalkAt walk.entry t 0 → AreColumns t columns.new.items stop) }
{
    let mut walk = walk;
    loop {
        let Ok(column_index) = u32::try_from(columns.len()) else {
            return Err(AllocError);
        };
        match walk.next_column(column_index) {
            Ok(column) => columns.push(column)?,
            Err(fault) => return Ok(fault),
        }
    }
}
