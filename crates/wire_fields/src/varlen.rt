//! Integers of seven bits a byte, the lowest first; the top bit of a byte is set if more bytes follow
//! (LEB128).

ghost use Rattle.std.specs.Prelude.{◌≡◌, ◌≤◌, Some, option_map, take, nat_le};
ghost use Rattle.std.specs.List.{list_all};
ghost use Rattle.wire_fields.specs.Sevens.{IsVarLen, sevens_split, varlen_encoded};
ghost use Rattle.wire_fields.specs.IntFaults.{varlen_fault};

use crate::int_repr::IntRepr;
use std::alloc::Allocator;
use wire_buf::{AnySize, ParseBuf, WireFault};

/// A `u32` in at most five bytes of seven bits each. An encoding longer than needed is accepted, within the
/// five bytes. `mysql_common` reads more bits and cuts them.
pub struct VarLen;

impl IntRepr for VarLen {
    const SIZE: Option<usize> = None;

    type Size = AnySize;

    type Primitive = u32;

    ghost encodes = { IsVarLen };

    ghost encoded = { λ v. Some (varlen_encoded v) };

    ghost fault_at = { varlen_fault };

    fn deserialize(buf: &mut ParseBuf<'_>) -> Result<u32, WireFault> {
        let Some((value, rest)) = split_sevens(*buf) else {
            return Err(missing_fault(buf));
        };
        if value > 0xffff_ffff {
            return Err(WireFault::BadNumber);
        }
        *buf = rest;
        Ok(value as u32)
    }

    fn serialize<A: Allocator>(val: u32, buf: &mut Vec<u8, A>) -> Result<(), WireFault> {
        let (bytes, len) = varlen_bytes(val);
        buf.extend_from_slice(&bytes[..len])?;
        Ok(())
    }

    ghost sized = { λ v bytes h. tt };
}

/// Returns the number in at most five bytes of seven bits each, and the bytes after it.
fn split_sevens<'a>(buf: ParseBuf<'a>) -> Option<(u64, ParseBuf<'a>)>
    ensures { option_map (λ p. (p.0, p.1.0.now)) result ≡ sevens_split 5 buf.entry.0.now }
{
    let mut rest = buf;
    let mut value = 0;
    let mut scale = 1;
    'bytes: for i in 0..5u8 {
        let byte = u64::from(rest.checked_eat_u8()?);
        if byte < 128 {
            return Some((value + scale * byte, rest));
        }
        value += scale * (byte - 128);
        scale *= 128;
    }
    None
}

/// Returns the number's shortest encoding as a [`VarLen`]: an array and the count of its bytes that are used.
pub fn varlen_bytes(val: u32) -> ([u8; 5], usize)
    ensures size { result.1 ≤ 5 }
    ensures bytes { take result.1 result.0 ≡ varlen_encoded val }
{
    let mut bytes = [0u8; 5];
    let mut len = 0;
    let mut rest = val;
    while rest >= 0x80 {
        bytes[len] = (rest % 0x80) as u8 + 0x80;
        len += 1;
        rest /= 0x80;
    }
    bytes[len] = rest as u8;
    (bytes, len + 1)
}

/// Returns the error for bytes that begin with no number.
fn missing_fault(buf: &ParseBuf<'_>) -> WireFault
    ensures { result ≡ varlen_fault buf.now.0.now }
{
    if buf.len() < 5 && has_only_continuations(buf.0) {
        WireFault::Eof
    } else {
        WireFault::BadNumber
    }
}

/// Returns whether the top bit of each byte is set, so that more bytes follow.
fn has_only_continuations(bytes: &[u8]) -> bool
    ensures { result ≡ list_all (λ b. nat_le 128 b) bytes.now }
{
    bytes.iter().all(|byte| *byte >= 0x80)
}
