//! Length-encoded integers: one byte up to 250, else 252, 253 or 254 and two, three or eight bytes. MySQL's
//! manual: Protocol::LengthEncodedInteger.

ghost use Rattle.std.specs.Prelude.{◌≡◌, ◌≤◌, ◌-◌, ◌^◌, Some, length, min, take};
ghost use Rattle.wire_buf.specs.Numbers.{IsLenenc, lenenc_encoded};
ghost use Rattle.wire_fields.specs.Strings.{lenenc_string_encoded};
ghost use Rattle.wire_fields.specs.IntFaults.{lenenc_fault};
ghost use Rattle.wire_buf.specs.declared.fault.WireFault.TheVariants.{BadNumber};

use crate::int_repr::IntRepr;
use std::alloc::Allocator;
use thiserror::Error;
use wire_buf::{AnySize, ParseBuf, WireFault};

/// The first byte of a length-encoded integer is 251 or 255. `WireFault::BadNumber` means the same.
#[derive(Clone, Copy, Debug, PartialEq, Eq, Hash, Error)]
#[error("invalid length-encoded integer value")]
pub struct InvalidLengthEncodedInteger;

impl From<InvalidLengthEncodedInteger> for WireFault {
    ghost from_gives = { λ e f. f ≡ BadNumber };

    fn from(_error: InvalidLengthEncodedInteger) -> WireFault {
        WireFault::BadNumber
    }
}

/// A length-encoded integer in one, three, four or nine bytes.
pub struct LenEnc;

impl IntRepr for LenEnc {
    const SIZE: Option<usize> = None;

    type Size = AnySize;

    type Primitive = u64;

    ghost encodes = { IsLenenc };

    ghost encoded = { λ v. Some (lenenc_encoded v) };

    ghost fault_at = { lenenc_fault };

    fn deserialize(buf: &mut ParseBuf<'_>) -> Result<u64, WireFault> {
        let Some(value) = buf.checked_eat_lenenc_int() else {
            return Err(missing_fault(buf));
        };
        Ok(value)
    }

    fn serialize<A: Allocator>(val: u64, buf: &mut Vec<u8, A>) -> Result<(), WireFault> {
        let (bytes, len) = lenenc_bytes(val);
        buf.extend_from_slice(&bytes[..len])?;
        Ok(())
    }

    ghost sized = { λ v bytes h. tt };
}

/// Returns the integer's shortest encoding: an array and the count of its bytes that are used.
#[tactic(auto, unfolding(wire_buf::specs::Numbers::lenenc_encoded))]
pub fn lenenc_bytes(x: u64) -> ([u8; 9], usize)
    ensures count { result.1 ≡ length (lenenc_encoded x) }
    ensures size { result.1 ≤ 9 }
    ensures bytes { take result.1 result.0 ≡ lenenc_encoded x }
{
    let b = x.to_le_bytes();
    match x {
        0..=0xfa => ([b[0], 0, 0, 0, 0, 0, 0, 0, 0], 1),
        0xfb..=0xffff => ([252, b[0], b[1], 0, 0, 0, 0, 0, 0], 3),
        0x1_0000..=0xff_ffff => ([253, b[0], b[1], b[2], 0, 0, 0, 0, 0], 4),
        _ => ([254, b[0], b[1], b[2], b[3], b[4], b[5], b[6], b[7]], 9),
    }
}

/// Returns the error for bytes that begin with no length-encoded integer.
fn missing_fault(buf: &ParseBuf<'_>) -> WireFault
    ensures { result ≡ lenenc_fault buf.now.0.now }
{
    match buf.0.first() {
        Some(251 | 255) => WireFault::BadNumber,
        _ => WireFault::Eof,
    }
}

/// Returns the number of bytes of the length-encoded `x`: 1, 3, 4 or 9.
#[tactic(auto, unfolding(wire_buf::specs::Numbers::lenenc_encoded))]
pub fn lenenc_int_len(x: u64) -> u64
    ensures { result ≡ length (lenenc_encoded x) }
{
    match x {
        0..=0xfa => 1,
        0xfb..=0xffff => 3,
        0x1_0000..=0xff_ffff => 4,
        _ => 9,
    }
}

/// Returns the number of bytes of `s` as a length-encoded string, at most `u64::MAX`, which no slice in
/// memory reaches.
pub fn lenenc_str_len(s: &[u8]) -> u64
    ensures { result ≡ min (length (lenenc_string_encoded s.now)) (2 ^ 64 - 1) }
{
    let length = s.len() as u64;
    lenenc_int_len(length).saturating_add(length)
}
