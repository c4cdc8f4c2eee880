//! The plan of a table's columns.

ghost use Rattle.std.specs.Prelude.{◌≡◌, ℕ, IfOk, is_ok};

use crate::run::ColumnRun;
use rows_table_map::TableMapEvent;
use std::alloc::{AllocError, Global};

/// What reading a row needs to know about each column of a table, for as many columns, from the first on, as have it all.
#[derive(Drop)]
pub struct ColumnPlan {
    pub(crate) run: ColumnRun,
    pub(crate) database: Vec<u8>,
    pub(crate) table: Vec<u8>,
    json_columns: usize,
}

impl ColumnPlan {
    ghost use Rattle.rows_event_body.specs.ImageShapes.{table_plan};
    ghost use Rattle.rows_event_body.specs.PlanViews.{IsPlanOf, planned, is_within_reach};

    /// Creates the plan of a table's columns. Returns `AllocError` if out of memory, and for a table of 2^32 or more columns,
    /// which no event can have.
    pub fn new(alloc: Global, table_map: &TableMapEvent<'_>) -> Result<ColumnPlan, AllocError>
        ensures { IfOk result (λ plan. IsPlanOf plan table_map.now) }
    {
        Ok(ColumnPlan {
            run: ColumnRun::new(alloc, table_map)?,
            database: Vec::from_slice(alloc, table_map.database_name_raw())?,
            table: Vec::from_slice(alloc, table_map.table_name_raw())?,
            json_columns: table_map.json_column_count(),
        })
    }

    /// Returns the greatest number of columns that have a plan; None if there is no plan, not even for zero columns.
    pub fn reach(&self) -> Option<u64>
        ensures { (n : ℕ) → is_ok (planned self.now.run n) ≡ is_within_reach n result }
    {
        self.run.reach()
    }

    /// Returns the number of columns of type JSON in the table.
    pub fn json_columns(&self) -> usize
        ensures { result ≡ (table_plan self.now).json_columns }
    {
        self.json_columns
    }
}
