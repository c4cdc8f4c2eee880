//! Tables as JSON lines show them, by the optional metadata of their table maps.
//!
//! [`ShownTable::of`] makes a table from a table map. `specs/ShownTables.antt` defines what it is: the names of the columns, how
//! their values are shown, the members of ENUM and SET columns, and the primary key. MySQL Internals: Table_map_event, optional
//! metadata.
#![tactic(auto)]

mod collations;
mod columns;
mod fields;
mod key;
mod members;
mod names;
mod shown_column;
mod shown_tables;
mod tables;
mod texts;
mod types;

pub use columns::{Shown, TableOptions};
pub use shown_column::{LABEL_LEN, ShownColumn};
pub use shown_tables::ShownTables;
pub use tables::{Lacks, ShownTable};
