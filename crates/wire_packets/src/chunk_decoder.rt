//! Reading one chunk of a packet.

ghost use Rattle.std.specs.Prelude.{◌≡◌, ◌+◌, ◌≤◌, ◌++◌, length, OnOk, IfOk, IfSome};
ghost use Rattle.wire_packets.specs.Reading.{payload_len_at};
ghost use Rattle.wire_packets.specs.Chunks.{held_header, EatsHeader, DecodesChunk};

use crate::error::PacketCodecError;
use crate::header::{PACKET_HEADER_LEN, is_over_limit, read_header};
use bytes::BytesMut;
use wire_constants::MAX_PAYLOAD_LEN;

/// Whether a chunk ends its packet, and the chunk's sequence id.
#[derive(Clone, Copy, Debug, PartialEq, Eq)]
pub enum ChunkInfo {
    /// A chunk of `MAX_PAYLOAD_LEN` bytes: more of the packet follows.
    Middle(u8),
    /// A shorter chunk, which ends the packet.
    Last(u8),
}

/// Reads one chunk at a time, whatever its sequence id is.
#[derive(Clone, Copy, Debug, PartialEq, Eq)]
pub enum ChunkDecoder {
    /// The next byte is the first of a chunk's header.
    Idle,
    /// A header was read: the chunk's sequence id, and the number of its payload bytes.
    Chunk { seq_id: u8, needed: usize },
}

impl ChunkDecoder {
    /// Appends the next chunk's payload to `dst` once all of it is in `src`. Returns None if more bytes are
    /// needed.
    ///
    /// - `PacketTooLarge`: with the chunk that the header announces, `dst` would exceed `max_allowed_packet`
    ///   bytes.
    /// - `Memory`: out of memory.
    ///
    /// An error leaves `dst` unchanged and loses no byte: a header that was taken from `src` is held by the
    /// decoder.
    pub fn decode(
        &mut self,
        src: &mut BytesMut,
        dst: &mut Vec<u8>,
        max_allowed_packet: usize,
    ) -> Result<Option<ChunkInfo>, PacketCodecError>
        ensures chunk { DecodesChunk max_allowed_packet self.old (held_header self.old ++ src.old.items)
            (held_header self.new ++ src.new.items) dst.old.items dst.new.items result }
        // After a chunk the next header is still in `src`.
        ensures idle { IfOk result (λ found. IfSome found (λ info. self.new ≡ ChunkDecoder.Idle)) }
        // A header that is still in `src` is checked against the limit as soon as it is complete.
        ensures limit { self.old ≡ ChunkDecoder.Idle → 4 ≤ length src.old.items
            → OnOk result (length dst.old.items + payload_len_at src.old.items ≤ max_allowed_packet) }
    {
        if let Err(fault) = self.eat_header(src, dst.len(), max_allowed_packet) {
            return Err(fault);
        }
        let ChunkDecoder::Chunk { seq_id, needed } = *self else {
            return Ok(None);
        };
        if src.len() < needed {
            return Ok(None);
        }
        if let Err(_) = dst.extend_from_slice(&src.as_slice()[..needed]) {
            return Err(PacketCodecError::Memory);
        }
        src.advance(needed);
        *self = ChunkDecoder::Idle;
        if needed < MAX_PAYLOAD_LEN {
            return Ok(Some(ChunkInfo::Last(seq_id)));
        }
        Ok(Some(ChunkInfo::Middle(seq_id)))
    }

    /// Reads the next header if it is complete and the limit allows its chunk.
    #[tactic(auto, using(crate::proofs::ChunkLemmas::header_eaten))]
    fn eat_header(
        &mut self,
        src: &mut BytesMut,
        gathered: usize,
        limit: usize,
    ) -> Result<(), PacketCodecError>
        ensures same { held_header self.new ++ src.new.items ≡ held_header self.old ++ src.old.items }
        ensures eaten { EatsHeader limit gathered self.old self.new src.old.items src.new.items result }
    {
        if let ChunkDecoder::Chunk { .. } = *self {
            return Ok(());
        }
        let Some(header) = read_header(src.as_slice()) else {
            return Ok(());
        };
        if is_over_limit(limit, gathered, header.len) {
            return Err(PacketCodecError::PacketTooLarge);
        }
        src.advance(PACKET_HEADER_LEN);
        *self = ChunkDecoder::Chunk {
            seq_id: header.number,
            needed: header.len,
        };
        Ok(())
    }
}
