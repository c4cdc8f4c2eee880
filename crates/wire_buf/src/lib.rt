//! The buffer that fields are read from, the traits of a field, and reads and writes that say which bytes were moved.
//!
//! [`ParseBuf`] holds the remaining bytes of a source; its calls read integers, strings and whole values from
//! the start. [`MyDeserialize`] and [`MySerialize`] are the two directions of a field. Their contracts say
//! which bytes encode a value (`specs/Encoding.antt`) and that the bytes encode no other value.
//! [`read_exact`], [`read_more`] and [`write_all`] move runs of bytes from a reader and to a writer; their
//! contracts say which bytes were moved before an error (`specs/Transfers.antt`). [`Watched`] is a reader or
//! a writer that remembers whether it failed.
#![tactic(auto)]

mod bytes;
mod fault;
mod pair;
mod parse_buf;
mod reading;
mod traits;
mod undo;
mod watched;
mod writing;

pub use fault::WireFault;
pub use pair::PairSize;
pub use parse_buf::ParseBuf;
pub use reading::{MAX_READS, read_exact, read_more};
pub use traits::{AnySize, FieldFault, FixedSize, Inner, MyDeserialize, MySerialize, WireSize};
pub use undo::truncate_on_error;
pub use watched::Watched;
pub use writing::write_all;
