//! Packed times: their arithmetic, and the values of TIME2, DATETIME2 and TIMESTAMP2 cells.
//!
//! `specs/PackedTimes.antt` defines the number that the bytes of a cell pack. `rows_values` re-exports all of this, and has the
//! calls that read from a reader.
#![tactic(auto)]

mod cells;
mod packed;

pub use cells::{
    DATETIMEF_INT_OFS, TIMEF_INT_OFS, TIMEF_OFS, datetime_of, fraction_size, time_of, timestamp_of,
};
pub use packed::{
    my_packed_time_get_frac_part, my_packed_time_get_int_part, my_packed_time_make,
    my_packed_time_make_int,
};
