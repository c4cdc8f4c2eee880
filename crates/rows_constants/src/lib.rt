//! The named numbers and flag sets of binary logs that reading frames and rows needs, and their conversions.
//!
//! `specs/` has the number of each constant and the bits of each flag. `wire_constants` specifies, once for all types, how a number is
//! converted to a constant or a set, and when that is an error.
#![tactic(auto)]

mod binlog_checksum_alg;
mod binlog_version;
mod event_flags;
mod event_type;
mod lengths;
mod optional_metadata_field_type;
mod rows_event_flags;
mod semi_sync_flags;

pub use binlog_checksum_alg::{BinlogChecksumAlg, UnknownChecksumAlg};
pub use binlog_version::{BinlogVersion, UnknownBinlogVersion};
pub use event_flags::{EventFlags, UnknownEventFlags};
pub use event_type::{EventType, UnknownEventType};
pub use lengths::{
    BINLOG_CHECKSUM_ALG_DESC_LEN, BINLOG_CHECKSUM_LEN, CHECKSUM_VERSION_PRODUCT,
    ENCODED_SID_LENGTH, GTID_HEADER_LEN, LOGICAL_TIMESTAMP_TYPECODE, QUERY_HEADER_LEN,
    ROTATE_HEADER_LEN, ROWS_HEADER_LEN_V1, ROWS_HEADER_LEN_V2, SERVER_VER_LEN,
    TABLE_MAP_HEADER_LEN,
};
pub use optional_metadata_field_type::{
    OptionalMetadataFieldType, UnknownOptionalMetadataFieldType,
};
pub use rows_event_flags::{RowsEventFlags, UnknownRowsEventFlags};
pub use semi_sync_flags::{SemiSyncFlags, UnknownSemiSyncFlags};
