//! CRC-32 of zlib and IEEE 802.3, with which MySQL checksums the events of a binary log.
//!
//! `crc32` reads sixteen bytes at a time with the sixteen tables of `tables`. A long message is first reduced
//! to its last bytes, to which all others are added (`shorten`). The function is proved equal to the bit-by-bit
//! definition (`Checksums`), and that definition to the remainder of a division of polynomials (`Division`).
//! `laws` states that law, and worked values.
#![tactic(auto)]

ghost use Rattle.std.specs.Prelude.{◌≡◌};
ghost use Rattle.crc32.specs.Checksums.{initial_register, after_bytes, crc32_of};

pub mod laws;
mod register;
mod shorten;
mod tables;

use register::{ONES, register_after};
use shorten::{register_after_long, register_after_very_long};

/// From this length on it is faster to shorten a message first.
const LONG: usize = 576;

/// From this length on it is faster to have room for more of the removed bytes.
const VERY_LONG: usize = 2048;

/// Returns the CRC-32 of the bytes. A server checksums all bytes of an event before the checksum, with the
/// flag `LOG_EVENT_BINLOG_IN_USE_F` cleared.
pub fn crc32(bytes: &[u8]) -> u32
    ensures { result ≡ crc32_of bytes.now }
{
    register_after_all(bytes) ^ ONES
}

/// Returns the register after all bytes of a message.
#[inline(always)]
fn register_after_all(bytes: &[u8]) -> u32
    ensures { result ≡ after_bytes initial_register bytes.now }
{
    if bytes.len() < LONG {
        return register_after(ONES, bytes);
    }
    if bytes.len() < VERY_LONG {
        return register_after_long(bytes);
    }
    register_after_very_long(bytes)
}
