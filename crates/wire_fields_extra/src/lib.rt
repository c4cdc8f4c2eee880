//! The constants and fields of MySQL's packets that the feed does not need, and the laws of all encodings.
//!
//! Constants: commands, types of results, the options of a query's session. Fields: strings that a zero byte ends or that follow a
//! length of four bytes, constants, sequences, constant bytes, fields of one of two formats, halves of a number, and integers whose
//! first byte shows their size. It also reads and writes integers and strings over readers, writers and buffers.
#![tactic(auto)]

mod buf_mut_ext;
mod command;
mod const_bytes;
mod consts;
mod counted_bytes;
mod counts;
mod either;
mod halves;
mod item_result;
mod items;
pub mod laws;
mod null_bytes;
mod query_flags;
mod raw_seq;
mod read_ext;
mod seq;
mod seq_repr;
mod varlen_uint;
mod write_ext;

pub use buf_mut_ext::BufMutExt;
pub use command::Command;
pub use const_bytes::{ConstBytes, ConstBytesValue, ConstU8, ConstU32};
pub use consts::Const;
pub use counted_bytes::U32Bytes;
pub use counts::Unknown;
pub use either::Either;
pub use halves::{LeU32LowerHalf, LeU32UpperHalf};
pub use item_result::{ItemResult, UnknownItemResultType};
pub use null_bytes::NullBytes;
pub use query_flags::{Flags2, SqlMode, UnknownFlags2, UnknownSqlMode};
pub use raw_seq::RawSeq;
pub use read_ext::ReadMysqlExt;
pub use seq::Seq;
pub use seq_repr::SeqRepr;
pub use varlen_uint::{read_varlen_uint, varlen_uint_size, write_varlen_uint};
pub use write_ext::WriteMysqlExt;
