//! Packets over a stream that is cut anywhere.

ghost use Rattle.std.specs.Prelude.{◌≡◌, ℕ, ◌+◌, ◌<◌, ◌≤◌, ◌++◌, List, [], true, length, take, drop, OnOk, OnErr, IfOk, IfErr, IfSome, None, Some, Err, IsErrOf, ◌↔◌, ◌⊎◌};
ghost use Rattle.wire_packets.specs.Framing.{framing, next_sequence_id};

use crate::error::PacketCodecError;
use crate::framing::packet_to_chunks;
use crate::header::{NextChunk, PACKET_HEADER_LEN, next_chunk, whole_packet_len};
use bytes::BytesMut;
use wire_constants::{DEFAULT_MAX_ALLOWED_PACKET, MAX_PAYLOAD_LEN};

/// Writes payloads as packets, and reads packets from a stream that arrives in pieces of any size.
///
/// An incomplete chunk stays in the input buffer; the whole chunks of an incomplete packet are in the output
/// buffer. The codec stores their number of bytes, the next sequence id and the first error.
#[derive(Debug, Drop)]
pub struct PacketCodec {
    /// The largest length of a payload, in bytes, in both directions.
    pub max_allowed_packet: usize,
    seq_id: u8,
    gathered: usize,
    fault: Option<PacketCodecError>,
}

impl Default for PacketCodec {
    ghost use Rattle.wire_packets.specs.CodecState.{IsFresh, IsBeforeStreams};

    ghost is_default = { λ codec. IsFresh 4194304 0 codec × IsBeforeStreams codec };

    /// Returns a codec with the limit `DEFAULT_MAX_ALLOWED_PACKET` and the first sequence id 0.
    fn default() -> PacketCodec {
        PacketCodec::with_number(DEFAULT_MAX_ALLOWED_PACKET, 0)
    }
}

impl PacketCodec {
    ghost use Rattle.wire_packets.specs.Packets.{payload_in};
    ghost use Rattle.wire_packets.specs.CodecState.{IsFresh, IsBetweenPackets, IsBeforeStreams, HasRead, GivesPacket, Decodes, codec_limit, codec_sequence_id, codec_gathered, codec_fault};

    /// Returns a codec with this limit, in bytes, and this first sequence id.
    pub fn with_number(max_allowed_packet: usize, number: u8) -> PacketCodec
        ensures fresh { IsFresh max_allowed_packet number result }
        ensures before { IsBeforeStreams result }
    {
        PacketCodec {
            max_allowed_packet,
            seq_id: number,
            gathered: 0,
            fault: None,
        }
    }

    /// Sets the next sequence id to 0, as at the start of a command.
    pub fn reset_seq_id(&mut self)
        ensures number { codec_sequence_id self.new ≡ 0 }
        ensures limit { codec_limit self.new ≡ codec_limit self.old }
        ensures gathered { codec_gathered self.new ≡ codec_gathered self.old }
        ensures fault { codec_fault self.new ≡ codec_fault self.old }
        ensures before { IsBetweenPackets self.old → IsBeforeStreams self.new }
    {
        self.seq_id = 0;
    }

    /// Changes nothing: without compression there is no second sequence id to synchronize.
    pub fn sync_seq_id(&mut self)
        ensures { self.new ≡ self.old }
    {}

    /// Takes the chunks of the next packet from `src` and appends their payload to `dst`.
    ///
    /// Returns true if the payload is complete; `dst` may then be cleared. Returns false if `src` has no
    /// further whole chunk: append more bytes to it, leave `dst` unchanged, and call again.
    ///
    /// - `PacketTooLarge`: a chunk's header announces a payload of more than `max_allowed_packet` bytes so far;
    ///   returned as soon as the header is there.
    /// - `PacketsOutOfSync`: a chunk has a wrong sequence id; returned once the chunk is complete.
    /// - `Memory`: out of memory.
    ///
    /// After an error, every call returns that error and takes nothing.
    pub fn decode(
        &mut self,
        src: &mut BytesMut,
        dst: &mut Vec<u8>,
    ) -> Result<bool, PacketCodecError>
        ensures state { (k : ℕ) (s : List ℕ) (ps : List (List ℕ)) (g d : List ℕ)
            → HasRead self.old k s ps g src.old.items → dst.old.items ≡ d ++ g
            → Decodes self.new k s ps d dst.new.items src.new.items result }
        ensures limit { codec_limit self.new ≡ codec_limit self.old }
        ensures again { IfSome (codec_fault self.old) (λ e. (result ≡ Err e)
            × (self.new ≡ self.old) × (src.new ≡ src.old) × (dst.new.items ≡ dst.old.items)) }
        ensures fault { IfErr result (λ e. codec_fault self.new ≡ Some e) }
        ensures kinds { IfErr result (λ e. codec_fault self.old ≡ Some e ⊎ (e ≡ PacketCodecError.PacketTooLarge)
            ⊎ (e ≡ PacketCodecError.PacketsOutOfSync) ⊎ (e ≡ PacketCodecError.Memory)) }
        ensures shorter { IfOk result (λ whole. whole ≡ true → length src.new.items < length src.old.items) }
    {
        if let Some(fault) = self.fault {
            return Err(fault);
        }
        loop {
            let bytes = src.as_slice();
            let len = match next_chunk(self.max_allowed_packet, self.seq_id, self.gathered, bytes) {
                NextChunk::Chunk(len) => len,
                NextChunk::Partial => return Ok(false),
                NextChunk::Fault(fault) => {
                    self.fault = Some(fault);
                    return Err(fault);
                }
            };
            if let Err(_) = dst.extend_from_slice(
                &bytes[PACKET_HEADER_LEN..PACKET_HEADER_LEN + len],
            ) {
                self.fault = Some(PacketCodecError::Memory);
                return Err(PacketCodecError::Memory);
            }
            src.advance(PACKET_HEADER_LEN + len);
            self.seq_id = self.seq_id.wrapping_add(1);
            if len < MAX_PAYLOAD_LEN {
                self.gathered = 0;
                return Ok(true);
            }
            self.gathered += len;
        }
    }

    /// Borrows the payload of the next packet if `src` begins with the whole packet in one chunk. The packet
    /// stays in `src`: before the next call drop its header of `PACKET_HEADER_LEN` bytes and its payload.
    ///
    /// Returns None and changes nothing if `src` begins with no such packet, if a packet is incomplete, or
    /// after an error: call `decode` then.
    pub fn decode_in_place<'a>(&mut self, src: &'a [u8]) -> Option<&'a [u8]>
        ensures state { (k : ℕ) (s : List ℕ) (ps : List (List ℕ)) → HasRead self.old k s ps [] src.now
            → IfSome result (λ payload. GivesPacket self.new k s ps [] payload.now (drop (4 + length payload.now) src.now)) }
        ensures found { IfSome result (λ payload. payload_in 1 (codec_limit self.old) (codec_sequence_id self.old) 0 src.now ≡ Some payload.now) }
        ensures offset { IfSome result (λ payload. (4 + length payload.now ≤ length src.now) × (payload.now ≡ take (length payload.now) (drop 4 src.now))) }
        ensures between { IfSome result (λ payload. IsBetweenPackets self.old) }
        ensures missing { result ≡ None → IsBetweenPackets self.old → payload_in 1 (codec_limit self.old) (codec_sequence_id self.old) 0 src.now ≡ None }
        ensures none { result ≡ None → self.new ≡ self.old }
        ensures limit { codec_limit self.new ≡ codec_limit self.old }
    {
        if self.gathered > 0 || self.fault.is_some() {
            return None;
        }
        let len = whole_packet_len(self.max_allowed_packet, self.seq_id, src)?;
        self.seq_id = self.seq_id.wrapping_add(1);
        Some(&src[PACKET_HEADER_LEN..PACKET_HEADER_LEN + len])
    }

    /// Appends the framing of a payload to `dst`, with the next sequence ids.
    ///
    /// - `PacketTooLarge`: the payload exceeds `max_allowed_packet`.
    /// - `Memory`: `dst` can't grow.
    ///
    /// An error appends nothing and keeps the sequence id.
    pub fn encode(&mut self, src: &[u8], dst: &mut BytesMut) -> Result<(), PacketCodecError>
        ensures framing { OnOk result (dst.new.items ≡ dst.old.items ++ framing (codec_sequence_id self.old) src.now) }
        ensures next { OnOk result (codec_sequence_id self.new ≡ next_sequence_id (codec_sequence_id self.old) src.now) }
        ensures limit { codec_limit self.new ≡ codec_limit self.old }
        ensures gathered { codec_gathered self.new ≡ codec_gathered self.old }
        ensures fault { codec_fault self.new ≡ codec_fault self.old }
        ensures err { OnErr result ((self.new ≡ self.old) × (dst.new.items ≡ dst.old.items)) }
        ensures too_large { IsErrOf result PacketCodecError.PacketTooLarge ↔ (codec_limit self.old < length src.now) }
        ensures kinds { IfErr result (λ e. (e ≡ PacketCodecError.PacketTooLarge) ⊎ (e ≡ PacketCodecError.Memory)) }
        ensures before { IsBetweenPackets self.old → IsBeforeStreams self.new }
    {
        if src.len() > self.max_allowed_packet {
            return Err(PacketCodecError::PacketTooLarge);
        }
        self.seq_id = packet_to_chunks(self.seq_id, src, dst)?;
        Ok(())
    }

    /// Returns the error that every `decode` returns from now on.
    pub(crate) fn fault(&self) -> Option<PacketCodecError>
        ensures { result ≡ codec_fault self.now }
    {
        self.fault
    }

    /// Makes every later call return `Memory`. Returns that error.
    pub(crate) fn fail_with_memory(&mut self) -> PacketCodecError
        ensures limit { codec_limit self.new ≡ codec_limit self.old }
        ensures fault { codec_fault self.new ≡ Some PacketCodecError.Memory }
        ensures result { result ≡ PacketCodecError.Memory }
    {
        self.fault = Some(PacketCodecError::Memory);
        PacketCodecError::Memory
    }
}
