//! The header of a chunk.

ghost use Rattle.std.specs.Prelude.{◌≡◌, ◌<◌, ◌≤◌, ◌+◌, ◌++◌, ℕ, List, ◌↔◌, true, IsTrue, IsNone, IfSome, None, Some, length};
ghost use Rattle.wire_packets.specs.Framing.{max_chunk_len, chunk};
ghost use Rattle.wire_packets.specs.NextChunk.{IsNextChunk, HasHeader};
ghost use Rattle.wire_packets.specs.Packets.{payload_in};
ghost use Rattle.wire_packets.specs.Reading.{has_chunk_of, payload_len_at, chunk_payload, IsHeader};

use crate::error::PacketCodecError;
use byteorder::{ByteOrder, LittleEndian};
use wire_constants::MAX_PAYLOAD_LEN;

/// The length of a chunk's header, in bytes: three bytes of length, and the sequence id.
pub const PACKET_HEADER_LEN: usize = 4;

/// Returns the header of a chunk with a payload of `len` bytes: the length in three little-endian bytes, and
/// the sequence id.
pub fn chunk_header(len: usize, number: u8) -> [u8; 4]
    requires { len ≤ max_chunk_len }
    ensures { (bytes : List ℕ) → length bytes ≡ len → result ++ bytes ≡ chunk number bytes }
{
    let len = (len as u32).to_le_bytes();
    [len[0], len[1], len[2], number]
}

/// The header of a chunk: the four bytes before its payload.
#[derive(Clone, Copy)]
pub struct ChunkHeader {
    /// The number of payload bytes after the header.
    pub len: usize,
    /// The chunk's sequence id.
    pub number: u8,
}

/// What bytes begin with: less than a chunk, a chunk with a payload of this length, or an error.
#[derive(Clone, Copy)]
pub enum NextChunk {
    /// More bytes are needed.
    Partial,
    /// A whole chunk with so many payload bytes.
    Chunk(usize),
    /// The error at these bytes.
    Fault(PacketCodecError),
}

/// Returns the header that the bytes begin with, or None if there are fewer than four.
pub fn read_header(bytes: &[u8]) -> Option<ChunkHeader>
    ensures none { IsNone result ↔ (length bytes.now < 4) }
    ensures some { IfSome result (HasHeader bytes.now) }
{
    if bytes.len() < PACKET_HEADER_LEN {
        return None;
    }
    Some(ChunkHeader {
        len: LittleEndian::read_u24(bytes) as usize,
        number: bytes[3],
    })
}

/// Returns whether `gathered` and `len` bytes together exceed the limit.
pub fn is_over_limit(limit: usize, gathered: usize, len: usize) -> bool
    ensures { IsTrue result ↔ (limit < gathered + len) }
{
    gathered > limit || len > limit - gathered
}

/// Returns what the bytes begin with: a whole chunk with sequence id `number`, an error, or less than a chunk.
/// `gathered` bytes of the packet precede them.
#[tactic(auto, using(crate::proofs::ReadingLemmas::header_short, crate::proofs::ReadingLemmas::too_large, crate::proofs::ReadingLemmas::chunk_short, crate::proofs::ReadingLemmas::out_of_number, crate::proofs::ReadingLemmas::taken))]
pub fn next_chunk(limit: usize, number: u8, gathered: usize, bytes: &[u8]) -> NextChunk
    ensures { IsNextChunk limit number gathered bytes.now result }
{
    let Some(header) = read_header(bytes) else {
        return NextChunk::Partial;
    };
    if is_over_limit(limit, gathered, header.len) {
        return NextChunk::Fault(PacketCodecError::PacketTooLarge);
    }
    if bytes.len() - PACKET_HEADER_LEN < header.len {
        return NextChunk::Partial;
    }
    if header.number != number {
        return NextChunk::Fault(PacketCodecError::PacketsOutOfSync);
    }
    NextChunk::Chunk(header.len)
}

/// Returns the length of the payload if the bytes begin with a whole packet of one chunk with sequence id
/// `number`, else None.
#[tactic(auto, using(crate::proofs::ReadingLemmas::no_chunk, crate::proofs::ReadingLemmas::full_chunk, crate::proofs::ReadingLemmas::one_chunk))]
pub fn whole_packet_len(limit: usize, number: u8, bytes: &[u8]) -> Option<usize>
    ensures some { IfSome result (λ n. (has_chunk_of number limit 0 bytes.now ≡ true) × IsHeader bytes.now × (n ≡ payload_len_at bytes.now) × (n < max_chunk_len)) }
    ensures payload { IfSome result (λ n. payload_in 1 limit number 0 bytes.now ≡ Some (chunk_payload bytes.now)) }
    ensures none { result ≡ None → payload_in 1 limit number 0 bytes.now ≡ None }
{
    match next_chunk(limit, number, 0, bytes) {
        NextChunk::Chunk(len) => {
            if len < MAX_PAYLOAD_LEN {
                Some(len)
            } else {
                None
            }
        }
        NextChunk::Partial => None,
        NextChunk::Fault(_) => None,
    }
}
