//! The laws of the packet layer, each proved as the contract of a function that does nothing.

pub use crate::packet_laws::{
    framings_are_read_back, framings_are_uniquely_read, packets_are_a_prefix, packets_are_longest,
    packets_end, streams_have_a_split, versions_are_their_numbers, worked_framings,
    worked_versions,
};
pub use wire_fields_extra::laws::{
    encodings_are_shortest, read_back, read_back_bytes, worked_numbers, worked_widths,
};
