//! Shortens long messages before their bytes are looked up in the tables.
//!
//! The register is the same if a byte is removed (set to zero) and added to the bytes 145, 183, 211 and 300
//! offsets after it. All bytes but about the last three hundred are removed this way from the start, sixteen
//! at a time and twice a turn: none of the sixteen is added to another of them. (K. Russell, "Chorba: A novel
//! CRC32 implementation", arXiv 2412.16398.)

ghost use Rattle.std.specs.Prelude.{◌≡◌, ◌≤◌, ◌<◌, ◌+◌, ◌%◌, List, length, bit_xor, drop};
ghost use Rattle.crc32.specs.Checksums.{initial_register, after_bytes};
ghost use Rattle.crc32.specs.Shortening.{AreByteValues, AreLanes, added, number_at, pending};

use crate::register::register_after;
use std::simd::prelude::*;

/// The number of removed bytes that are kept, because they are added to later bytes.
const KEPT_LEN: usize = 304;

/// The number of bytes that one turn of the loop removes.
const STEP: usize = 32;

/// The removed bytes of a long message: those that are kept, followed by a block of 1,024 bytes.
const REMOVED_LEN: usize = 1328;

/// Those of a very long message: the block has 1,728 bytes, so that the kept bytes are moved less often.
const MORE_REMOVED_LEN: usize = 2032;

/// Each of the first four bytes of a message is inverted if this is added to it.
const INVERTING: u8 = 255;

/// Returns sixteen bytes of the message from offset `from` on, with all that the removed bytes add to them.
#[inline(always)]
fn removed_sums(bytes: &[u8], from: usize, taken: &[u8], at: usize) -> u8x16
    requires in_message { from + 16 ≤ length bytes.now }
    requires in_block { at + 304 ≤ length taken.now }
    ensures sums { AreLanes result (bit_xor (added at 16 taken.now) (number_at from 16 bytes.now)) }
    ensures small { AreByteValues taken.now }
{
    u8x16::from_slice(&taken[at + 4..])
        ^ u8x16::from_slice(&taken[at + 93..])
        ^ u8x16::from_slice(&taken[at + 121..])
        ^ u8x16::from_slice(&taken[at + 159..])
        ^ u8x16::from_slice(&bytes[from..])
}

/// Removes sixteen bytes from the message at offset `from`. The bytes that were removed before are kept at offset `at`.
#[inline(always)]
fn remove_sixteen(taken: &mut [u8], at: usize, bytes: &[u8], from: usize)
    requires in_block { at + 320 ≤ length taken.old }
    requires in_message { from + 320 ≤ length bytes.now }
    ensures { after_bytes (pending (at + 16) taken.new) (drop (from + 16) bytes.now) ≡ after_bytes (pending at taken.old) (drop from bytes.now) }
{
    removed_sums(bytes, from, taken, at).copy_to_slice(&mut taken[at + KEPT_LEN..]);
}

/// Removes `len` bytes, a multiple of 32, from the message at offset `from`.
#[inline(always)]
fn remove_bytes(taken: &mut [u8], bytes: &[u8], from: usize, len: usize)
    requires in_block { len + 304 ≤ length taken.old }
    requires whole { len % 32 ≡ 0 }
    requires in_message { from + len + 304 ≤ length bytes.now }
    ensures { after_bytes (pending 0 taken.new) (drop (from + len) bytes.now) ≡ after_bytes (pending 0 taken.old) (drop from bytes.now) }
{
    let mut at = 0;
    while at < len {
        remove_sixteen(taken, at, bytes, from + at);
        remove_sixteen(taken, at + 16, bytes, from + at + 16);
        at += STEP;
    }
    taken.copy_within(len..len + KEPT_LEN, 0);
}

/// Returns the register after the bytes that aren't removed, with the removed ones added to them.
#[inline(always)]
fn register_after_last(taken: &mut [u8], last: &[u8]) -> u32
    requires room { 608 ≤ length taken.old }
    requires last { length last.now ≡ 304 }
    ensures { result ≡ after_bytes (pending 0 taken.old) last.now }
{
    taken[KEPT_LEN..KEPT_LEN + KEPT_LEN].fill(0);
    let mut bytes = [0; KEPT_LEN];
    let mut at = 0;
    while at < KEPT_LEN {
        removed_sums(last, at, taken, at).copy_to_slice(&mut bytes[at..]);
        at += 16;
    }
    register_after(0, &bytes)
}

/// Returns the register after a message, with the bytes that are kept in `taken` added to it. The rest of `taken` is room for
/// the bytes that are removed.
#[inline(always)]
fn register_after_removed(taken: &mut [u8], bytes: &[u8]) -> u32
    requires room { 608 ≤ length taken.old }
    requires long { 304 ≤ length bytes.now }
    ensures { result ≡ after_bytes (pending 0 taken.old) bytes.now }
{
    let block = (taken.len() - KEPT_LEN) / STEP * STEP;
    let mut at = 0;
    while bytes.len() - at >= KEPT_LEN + STEP {
        let len = ((bytes.len() - at - KEPT_LEN) / STEP * STEP).min(block);
        remove_bytes(taken, bytes, at, len);
        at += len;
    }
    let register = register_after_last(taken, &bytes[at..at + KEPT_LEN]);
    register_after(register, &bytes[at + KEPT_LEN..])
}

/// Returns the register after a long message.
#[cold]
#[inline(never)]
pub(crate) fn register_after_long(bytes: &[u8]) -> u32
    requires { 304 ≤ length bytes.now }
    ensures { result ≡ after_bytes initial_register bytes.now }
{
    let mut taken = [0; REMOVED_LEN];
    taken[4] = INVERTING;
    taken[5] = INVERTING;
    taken[6] = INVERTING;
    taken[7] = INVERTING;
    register_after_removed(&mut taken, bytes)
}

/// Does what [`register_after_long`] does. It is faster for very long messages.
#[cold]
#[inline(never)]
pub(crate) fn register_after_very_long(bytes: &[u8]) -> u32
    requires { 304 ≤ length bytes.now }
    ensures { result ≡ after_bytes initial_register bytes.now }
{
    let mut taken = [0; MORE_REMOVED_LEN];
    taken[4] = INVERTING;
    taken[5] = INVERTING;
    taken[6] = INVERTING;
    taken[7] = INVERTING;
    register_after_removed(&mut taken, bytes)
}
