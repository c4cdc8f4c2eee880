//! Fields of the optional metadata, and what their values consist of.

ghost use Rattle.std.specs.Prelude.{◌≡◌, ◌≤◌, ◌<◌, ◌+◌, ◌++◌, ◌^◌, IfOk, OnOk};
ghost use Rattle.wire_buf.specs.Numbers.{lenenc_encoded};
ghost use Rattle.wire_fields.specs.Strings.{lenenc_string_encoded};
ghost use Rattle.table_schemas.specs.WrittenFields.{field_or_none, bit_number, packed_byte, packed};

use std::alloc::{AllocError, Global};
use wire_fields::lenenc_bytes;

/// Appends a length-encoded integer. `AllocError`: out of memory.
pub fn put_number(number: u64, out: &mut Vec<u8>) -> Result<(), AllocError>
    ensures { OnOk result (out.new.items ≡ out.old.items ++ lenenc_encoded number) }
{
    let (bytes, len) = lenenc_bytes(number);
    out.extend_from_slice(&bytes[..len])
}

/// Appends a length-encoded string. `AllocError`: out of memory.
pub fn put_string(string: &[u8], out: &mut Vec<u8>) -> Result<(), AllocError>
    ensures { OnOk result (out.new.items ≡ out.old.items ++ lenenc_string_encoded string.now) }
{
    put_number(string.len() as u64, out)?;
    out.extend_from_slice(string)
}

/// Appends a field of this type with this value, unless the value has no bytes. `AllocError`: out of memory.
pub fn put_field(number: u8, value: &[u8], out: &mut Vec<u8>) -> Result<(), AllocError>
    ensures { OnOk result (out.new.items ≡ out.old.items ++ field_or_none number value.now) }
{
    if value.is_empty() {
        return Ok(());
    }
    out.push(number)?;
    put_string(value, out)
}

/// The bit at an index as a number; 0 after the last.
fn bit_at(bits: &[bool], index: usize) -> u8
    ensures bit { result ≡ bit_number bits.now index }
    ensures low { result ≤ 1 }
{
    match bits.get(index) {
        Some(true) => 1,
        _ => 0,
    }
}

/// The byte of eight bits from an index on, the first the highest.
fn byte_at(bits: &[bool], index: usize) -> u8
    requires { index + 8 < 2 ^ 64 }
    ensures { result ≡ packed_byte bits.now index }
{
    128 * bit_at(bits, index)
        + (64 * bit_at(bits, index + 1)
            + (32 * bit_at(bits, index + 2)
                + (16 * bit_at(bits, index + 3)
                    + (8 * bit_at(bits, index + 4)
                        + (4 * bit_at(bits, index + 5)
                            + (2 * bit_at(bits, index + 6) + bit_at(bits, index + 7)))))))
}

/// Bits in as few bytes as they need, the first the highest of the first byte. `AllocError`: out of memory.
pub fn packed(alloc: Global, bits: &[bool]) -> Result<Vec<u8>, AllocError>
    ensures { IfOk result (λ v. v.items ≡ packed bits.now) }
{
    let mut bytes = Vec::new(alloc);
    for index in 0..bits.len().div_ceil(8) {
        bytes.push(byte_at(bits, 8 * index))?;
    }
    Ok(bytes)
}
