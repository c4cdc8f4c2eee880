//! Tables as a schema from outside has them, the files that it comes in, and the table maps that it completes.
//!
//! A server may log no names, keys, members, signs and character sets of columns. A [`Schema`] has tables by their names, and [`Schemas`]
//! has several, each from where it begins on, and completes table maps: it appends the fields of the optional metadata that the log lacks,
//! as servers write them with `binlog_row_metadata=FULL`. `fields` writes fields, `values` has the values of these, [`SchemaTable`] has
//! them as bytes, `logged` says which ones a table map has, and `fits` whether its columns are those of the schema. MariaDB's signs of
//! columns, which has some of YEAR columns, become MySQL's in `signs`.
//!
//! [`CompletedEvents`] is the source of events that gives what another gives, with MariaDB's table maps as MySQL's servers write them, and
//! with table maps that a schema completes: `described` knows MariaDB's logs, `mysql_maps` makes their table maps, and `laws` has what
//! holds for the events.
//!
//! [`read_schema`] adds the tables of a file, as a query of `information_schema` prints them: `tabs` reads cells between tabs, `json` JSON
//! lines, `rows` has the columns of a line, `type_text` reads the type of a column, and `tables` makes tables of the columns.
#![tactic(auto)]

mod completed_events;
mod described;
mod fault;
mod fields;
mod fits;
mod json;
pub mod laws;
mod lengths;
mod logged;
mod mysql_maps;
mod numbers;
mod rows;
mod schema;
mod schema_column;
mod schema_start;
mod schema_table;
mod schemas;
mod signs;
mod tables;
mod tabs;
mod type_text;
mod values;

pub use completed_events::CompletedEvents;
pub use fault::{SchemaFault, SchemaFaultKind};
pub use fields::{packed, put_field, put_number, put_string};
pub use fits::Difference;
pub use schema::Schema;
pub use schema_column::{KeyColumn, SchemaColumn};
pub use schema_start::SchemaStart;
pub use schema_table::SchemaTable;
pub use schemas::{Misfit, Schemas, checked, put_longer};
pub use signs::{YearSigns, year_signs};
pub use tables::read_schema;
