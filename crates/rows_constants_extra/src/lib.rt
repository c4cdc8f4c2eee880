//! The named numbers and flag sets of binary logs that no program needs, and the laws of all of them.
//!
//! `specs/` has the number of each constant; `FlagTables` of `rows_constants` has the bits of each flag.
#![tactic(auto)]

mod binlog_row_value_options;
mod gno;
mod gtid_flags;
mod incident_type;
mod intvar_event_type;
pub mod laws;
mod load_duplicate_handling;
mod status_var_key;
mod transaction_payload_compression_type;
mod transaction_payload_fields;
mod user_var_flags;

pub use binlog_row_value_options::{BinlogRowValueOptions, UnknownBinlogRowValueOptions};
pub use gno::{Gno, InvalidGno};
pub use gtid_flags::{GtidFlags, UnknownGtidFlags};
pub use incident_type::{IncidentType, UnknownIncidentType};
pub use intvar_event_type::{IntvarEventType, UnknownIntvarEventType};
pub use load_duplicate_handling::{LoadDuplicateHandling, UnknownDuplicateHandling};
pub use status_var_key::{StatusVarKey, UnknownStatusVarKey};
pub use transaction_payload_compression_type::{
    TransactionPayloadCompressionType, UnknownTransactionPayloadCompressionType,
};
pub use transaction_payload_fields::{TransactionPayloadFields, UnknownTransactionPayloadFields};
pub use user_var_flags::{UnknownUserVarFlags, UserVarFlags};
