//! The variable-length unsigned integers of MySQL's serialization library, as in `mysql_common`: the number
//! of trailing one bits of the first byte is the number of bytes after it.

ghost use Rattle.std.specs.Prelude.{◌≡◌, ◌≤◌, ◌<◌, ◌^◌, ◌⊎◌, Some, length, IfOk, IfErr, OnOk};
ghost use Rattle.wire_buf.specs.Encoding.{Reads, Lacks, Alone};
ghost use Rattle.wire_buf.specs.Writing.{Writes};
ghost use Rattle.wire_buf.specs.declared.fault.WireFault.TheVariants.{Eof, Memory};
ghost use Rattle.wire_fields_extra.specs.TrailingOnes.{HasTrailingOnes, IsVarlenUint, trailing_ones_number, varlen_uint_len, varlen_uint_encoded};

use byteorder::{ByteOrder, LittleEndian};
use std::alloc::Allocator;
use wire_buf::{ParseBuf, WireFault};

/// Reads the integer at the start of `buf`. An encoding longer than needed is accepted. If bytes are missing,
/// returns `Eof` and takes none.
pub fn read_varlen_uint(buf: &mut ParseBuf<'_>) -> Result<u64, WireFault>
    ensures ok { IfOk result
        (λ v. Reads (Alone IsVarlenUint) v buf.old.0.now buf.new.0.now) }
    ensures err { IfErr result (λ e. (e ≡ Eof) × Lacks (Alone IsVarlenUint) buf.old.0.now
        × (buf.new.0.now ≡ buf.old.0.now)) }
{
    let mut rest = *buf;
    let Some(first) = rest.checked_eat_u8() else {
        return Err(WireFault::Eof);
    };
    let ones = trailing_ones(first);
    if ones == 8 {
        let Some(value) = rest.checked_eat_u64_le() else {
            return Err(WireFault::Eof);
        };
        *buf = rest;
        return Ok(value);
    }
    let size = ones + 1;
    if buf.len() < size {
        return Err(WireFault::Eof);
    }
    let number = LittleEndian::read_uint(buf.0, size);
    buf.skip(size);
    Ok(number >> size)
}

/// Appends the integer's shortest encoding. Returns `Memory` if the buffer can't grow; nothing is then
/// appended.
pub fn write_varlen_uint<A: Allocator>(value: u64, buf: &mut Vec<u8, A>) -> Result<(), WireFault>
    ensures ok { OnOk result (Writes (λ v. Some (varlen_uint_encoded v)) IsVarlenUint value
        buf.old.items buf.new.items) }
    ensures err { IfErr result (λ e. (e ≡ Memory) × (buf.new.items ≡ buf.old.items)) }
{
    let size = fewest_bytes(value);
    if size == 9 {
        let bytes = value.to_le_bytes();
        buf.extend_from_slice(&[
            255, bytes[0], bytes[1], bytes[2], bytes[3], bytes[4], bytes[5], bytes[6], bytes[7],
        ])?;
        return Ok(());
    }
    let mut bytes = [0u8; 8];
    LittleEndian::write_uint(&mut bytes, with_trailing_ones(value, size), size);
    buf.extend_from_slice(&bytes[..size])?;
    Ok(())
}

/// Returns the number of bytes that `write_varlen_uint` appends: 1 to 9.
#[tactic(auto, using(crate::proofs::OnesLemmas::encoded_length))]
pub fn varlen_uint_size(value: u64) -> usize
    ensures { result ≡ length (varlen_uint_encoded value) }
{
    fewest_bytes(value)
}

/// Returns the number of bytes of the shortest encoding: one for every seven bits, and nine from 57 bits on.
#[tactic(auto, unfolding(crate::specs::TrailingOnes::varlen_uint_len))]
fn fewest_bytes(value: u64) -> usize
    ensures { result ≡ varlen_uint_len value }
{
    match value {
        0..=0x7f => 1,
        0x80..=0x3fff => 2,
        0x4000..=0x1f_ffff => 3,
        0x20_0000..=0xfff_ffff => 4,
        0x1000_0000..=0x7_ffff_ffff => 5,
        0x8_0000_0000..=0x3ff_ffff_ffff => 6,
        0x400_0000_0000..=0x1_ffff_ffff_ffff => 7,
        0x2_0000_0000_0000..=0xff_ffff_ffff_ffff => 8,
        _ => 9,
    }
}

/// Returns the integer shifted left by `size` bits, with `size` - 1 trailing one bits.
fn with_trailing_ones(value: u64, size: usize) -> u64
    requires low { 1 ≤ size }
    requires high { size ≤ 8 }
    requires fits { value < 128 ^ size }
    ensures value { result ≡ trailing_ones_number size value }
    ensures within { result < 256 ^ size }
{
    (value << size) + ((1 << (size - 1)) - 1)
}

/// Returns the number of trailing one bits of the byte.
fn trailing_ones(byte: u8) -> usize
    ensures { ((result ≡ 8) × (byte ≡ 255)) ⊎ ((result ≤ 7) × HasTrailingOnes result byte) }
{
    byte.trailing_ones() as usize
}
