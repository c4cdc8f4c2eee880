//! The register of a CRC, which reads a message byte by byte.
//!
//! It is linear: the contribution of each word of the message can be looked up separately, as if all later
//! bytes were zeros, and the exclusive-or of the contributions is the register after the last word. So the
//! look-ups of sixteen bytes don't wait for each other.

ghost use Rattle.std.specs.Prelude.{◌≡◌, ◌≤◌, ◌<◌, ◌+◌, ◌∷◌, [], length, replicate};
ghost use Rattle.crc32.specs.Checksums.{after_bytes};

use crate::tables::TABLES;
use byteorder::{ByteOrder, LittleEndian};

/// The register before the first byte, and the mask that inverts it after the last one.
pub(crate) const ONES: u32 = 0xffff_ffff;

/// Returns the register after one more byte.
fn register_after_byte(register: u32, byte: u8) -> u32
    ensures { result ≡ after_bytes register (byte ∷ []) }
{
    TABLES[0][((register ^ u32::from(byte)) & 255) as usize] ^ (register >> 8)
}

/// Returns the register that `register` becomes after four zero bytes and `after` more of them.
fn register_after_zeros(register: u32, after: usize) -> u32
    requires { after ≤ 12 }
    ensures { result ≡ after_bytes register (replicate (after + 4) 0) }
{
    let first = TABLES[after + 3][(register & 255) as usize];
    let second = TABLES[after + 2][((register >> 8) & 255) as usize];
    let third = TABLES[after + 1][((register >> 16) & 255) as usize];
    let fourth = TABLES[after][((register >> 24) & 255) as usize];
    (first ^ second) ^ (third ^ fourth)
}

/// Returns the register after eight more bytes and the bytes after them, or, if there are fewer, both unchanged.
#[inline(always)]
fn take_eight(register: u32, bytes: &[u8]) -> (u32, &[u8])
    ensures few { length bytes.now < 16 → length result.1.now < 8 }
    ensures same { after_bytes result.0 result.1.now ≡ after_bytes register bytes.now }
{
    if bytes.len() < 8 {
        return (register, bytes);
    }
    let first = LittleEndian::read_u32(bytes);
    let second = LittleEndian::read_u32(&bytes[4..]);
    let later = register_after_zeros(second, 0);
    (
        later ^ register_after_zeros(first ^ register, 4),
        &bytes[8..],
    )
}

/// Returns the register after four more bytes and the bytes after them, or, if there are fewer, both unchanged.
#[inline(always)]
fn take_four(register: u32, bytes: &[u8]) -> (u32, &[u8])
    ensures few { length bytes.now < 8 → length result.1.now < 4 }
    ensures same { after_bytes result.0 result.1.now ≡ after_bytes register bytes.now }
{
    if bytes.len() < 4 {
        return (register, bytes);
    }
    let word = LittleEndian::read_u32(bytes);
    (register_after_zeros(word ^ register, 0), &bytes[4..])
}

/// Returns the register after two more bytes and the bytes after them, or, if there are fewer, both unchanged.
#[inline(always)]
fn take_two(register: u32, bytes: &[u8]) -> (u32, &[u8])
    ensures few { length bytes.now < 4 → length result.1.now < 2 }
    ensures same { after_bytes result.0 result.1.now ≡ after_bytes register bytes.now }
{
    if bytes.len() < 2 {
        return (register, bytes);
    }
    let both = u32::from(LittleEndian::read_u16(bytes)) ^ register;
    let first = TABLES[1][(both & 255) as usize];
    let second = TABLES[0][((both >> 8) & 255) as usize];
    ((first ^ second) ^ (both >> 16), &bytes[2..])
}

/// Returns the register after fewer than sixteen more bytes.
#[inline(always)]
fn register_after_few(start: u32, bytes: &[u8]) -> u32
    requires { length bytes.now < 16 }
    ensures { result ≡ after_bytes start bytes.now }
{
    let (register, rest) = take_eight(start, bytes);
    let (register, rest) = take_four(register, rest);
    let (register, rest) = take_two(register, rest);
    match rest.first() {
        Some(last) => register_after_byte(register, *last),
        None => register,
    }
}

/// Returns the register after more bytes, read sixteen at a time.
#[inline(always)]
pub(crate) fn register_after(start: u32, bytes: &[u8]) -> u32
    ensures { result ≡ after_bytes start bytes.now }
{
    let mut register = start;
    let mut at = 0;
    while bytes.len() - at >= 16 {
        let first = LittleEndian::read_u32(&bytes[at..]);
        let second = LittleEndian::read_u32(&bytes[at + 4..]);
        let third = LittleEndian::read_u32(&bytes[at + 8..]);
        let fourth = LittleEndian::read_u32(&bytes[at + 12..]);
        // The look-up that waits for the register comes last.
        let later = register_after_zeros(second, 8)
            ^ register_after_zeros(third, 4)
            ^ register_after_zeros(fourth, 0);
        register = later ^ register_after_zeros(first ^ register, 12);
        at += 16;
    }
    register_after_few(register, &bytes[at..])
}
