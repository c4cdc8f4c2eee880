//! The constants of MySQL's protocol that reading frames and rows needs: column types, geometry types, column flags.
//!
//! The tables are in `specs/`: `ColumnTypes` and `GeometryTypes` give the number of each constant, `ColumnFlagBits` the bits of each flag.
//! `Numbering` says how a number is converted to a constant or a set of flags, and when that is an error.
#![tactic(auto)]

mod column_flags;
mod column_type;
mod constant;
mod geometry_type;
mod limits;

pub use column_flags::{ColumnFlags, UnknownColumnFlags};
pub use column_type::{ColumnType, UnknownColumnType};
pub use constant::Constant;
pub use geometry_type::{GeometryType, UnknownGeometryType};
pub use limits::{
    DEFAULT_MAX_ALLOWED_PACKET, MAX_PAYLOAD_LEN, UTF8_GENERAL_CI, UTF8MB4_GENERAL_CI,
};
