//! SQL statements of the changes of rows, and of what takes changes back: `INSERT`, `UPDATE` and `DELETE`, as a MySQL or MariaDB server
//! executes them.
//!
//! [`SqlTable`] is a table by its table map: its name, the names of its columns and its key. [`put_statement`] appends the statement of a
//! change, and [`put_literal`] the literal of a cell, which `specs/SqlLiterals.antt` defines. Texts are right in any `sql_mode`: strings have
//! no backslash, and names are in backticks. `specs/RowChanges.antt` defines what changes do to tables, as bags of rows, and what takes a
//! list of changes back, the last first; [`undo_laws`] states that it does.
//!
//! [`add_rows`] adds a statement for each row of an event, or what takes it back, and [`SqlTables`] keeps the tables so far. The texts are
//! kept until their transaction ends ([`TextList`]), and written in their order or, to take changes back, in its reverse ([`NewestFirst`]).
#![tactic(auto)]

mod documents;
pub mod laws;
mod literals;
mod newest_first;
mod no_statement;
mod numbers;
mod quoting;
mod row_cells;
mod row_change;
mod rows;
mod sql_table;
mod sql_tables;
mod statements;
mod text_list;
mod texts;
mod times;
mod transactions;
pub mod undo_laws;

pub use literals::{Scratch, put_literal};
pub use newest_first::NewestFirst;
pub use no_statement::NoStatement;
pub use quoting::put_name;
pub use row_cells::RowCells;
pub use row_change::RowChange;
pub use rows::{Direction, RowCounts, RowsTaken, add_rows, change_of, read_row};
pub use sql_table::{SqlColumn, SqlTable};
pub use sql_tables::SqlTables;
pub use statements::put_statement;
pub use text_list::{TextList, Texts};
pub use texts::put_utf8;
pub use times::{
    datetime_parts, day_of, old_datetime_parts, old_time_parts, put_instant, time_parts,
};
pub use transactions::{SESSION, keep_transaction, write_transaction, write_undo};
