//! Fields of packets and events: integers and byte strings in their encodings, raw constants, flags, and bytes without meaning.
//!
//! A field is a type with `MyDeserialize` and `MySerialize`. An encoding of integers is a type with the trait [`IntRepr`], and
//! one of byte strings a type with [`BytesRepr`]; the contracts of these traits have their laws. [`RawInt`] and [`RawBytes`] are
//! fields in such an encoding. `specs/Ints.antt` and `specs/ByteStrings.antt` say which bytes encode a number or a string, and how
//! much of it is written.
#![tactic(auto)]

mod byte;
mod bytes_repr;
mod consts;
mod counted_bytes;
mod fixed;
mod flags;
mod int_repr;
mod lenenc;
mod number;
mod plain_bytes;
mod raw_bytes;
mod skip;
mod varlen;
mod version;

pub use bytes_repr::{BytesRepr, InnerBytes};
pub use consts::RawConst;
pub use counted_bytes::U8Bytes;
pub use fixed::{
    BeI16, BeI24, BeI32, BeI40, BeI48, BeI56, BeI64, BeI128, BeU16, BeU24, BeU32, BeU40, BeU48,
    BeU56, BeU64, BeU128, Fixed, InBytes, LeI16, LeI24, LeI32, LeI40, LeI48, LeI56, LeI64, LeI128,
    LeU16, LeU24, LeU32, LeU40, LeU48, LeU56, LeU64, LeU128,
};
pub use flags::RawFlags;
pub use int_repr::{IntRepr, RawInt};
pub use lenenc::{
    InvalidLengthEncodedInteger, LenEnc, lenenc_bytes, lenenc_int_len, lenenc_str_len,
};
pub use number::{Number, Unsigned};
pub use plain_bytes::{BareBytes, BareU8Bytes, BareU16Bytes, EofBytes, FixedLengthText};
pub use raw_bytes::RawBytes;
pub use skip::Skip;
pub use varlen::{VarLen, varlen_bytes};
pub use version::split_version;
