//! The errors of reading rows, and three rules for JSON documents that are made to break a reader.
//!
//! [`RowsError`] says why a table map, a row, a value or a JSON document can't be read; `specs/Readings.antt` defines the results of
//! reading, and `specs/ConvertedFaults.antt` the error for each `WireFault`. [`check_place`], [`take_value`] and [`set_member`] are three
//! rules for documents that are made to break a reader.
#![tactic(auto)]

mod fault;
mod json_rules;

pub use fault::{JsonbError, RowsError};
pub use json_rules::{check_place, set_member, take_value};
