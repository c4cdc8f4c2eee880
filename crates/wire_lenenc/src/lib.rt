//! The length-encoded integer at the start of bytes.
//!
//! `specs/LenencSplit.antt` computes it. `wire_buf` has the readers, and the encodings that they read.
#![tactic(auto)]

ghost use Rattle.std.specs.Prelude.{◌≡◌, option_map};
ghost use Rattle.wire_lenenc.specs.LenencSplit.{split_lenenc};

use byteorder::{ByteOrder, LittleEndian};

/// Returns the length-encoded integer at the start of the bytes and the bytes after it, or None if bytes are
/// missing or the first is 251 or 255.
///
/// MySQL's manual: Protocol::LengthEncodedInteger.
#[tactic(auto, unfolding(crate::specs::LenencSplit::split_lenenc, crate::specs::LenencSplit::split_number))]
pub fn split_lenenc_int(bytes: &[u8]) -> Option<(u64, &[u8])>
    ensures { option_map (λ p. (p.0, p.1.now)) result ≡ split_lenenc bytes.now }
{
    let (first, rest) = bytes.split_first()?;
    let first = *first;
    if first <= 250 {
        return Some((u64::from(first), rest));
    }
    match first {
        252 if rest.len() >= 2 => Some((u64::from(LittleEndian::read_u16(rest)), &rest[2..])),
        253 if rest.len() >= 3 => Some((u64::from(LittleEndian::read_u24(rest)), &rest[3..])),
        254 if rest.len() >= 8 => Some((LittleEndian::read_u64(rest), &rest[8..])),
        _ => None,
    }
}
