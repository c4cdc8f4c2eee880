//! The packets of an answer that arrives in pieces of any lengths.

ghost use Rattle.std.specs.Prelude.{◌≡◌, ◌<◌, ◌+◌, ◌++◌, List, ℕ, [], IfOk, IfSome, OnOk, OnErr, IsTrue, length};
ghost use Rattle.wire_packets.specs.CodecState.{HasRead, codec_limit};
ghost use Rattle.feed_replication.specs.Incoming.{IsFresh, IsFound, FindsNext, found_payload, after};

use bytes::BytesMut;
use std::alloc::{AllocError, Global};
use wire_packets::{PACKET_HEADER_LEN, PacketCodec, PacketCodecError};

/// The sequence number of an answer's first packet.
const FIRST_NUMBER: u8 = 1;

/// Where the payload of a complete packet is.
#[derive(Clone, Copy)]
pub(crate) enum Found {
    /// In the received bytes, after the packet's header; the length of the payload in bytes.
    Received(usize),
    /// In the buffer that gathers a packet's chunks.
    Gathered,
}

/// The packets of a server's answer. The payload of a packet of one chunk is borrowed from the received bytes.
#[derive(Drop)]
pub(crate) struct Incoming {
    codec: PacketCodec,
    /// The received bytes that aren't taken yet.
    received: BytesMut,
    /// The chunks of the next packet that the codec has gathered.
    gathered: Vec<u8>,
}

impl Incoming {
    /// The state before the first byte of an answer. `limit` is the maximum length of a payload in bytes.
    pub(crate) fn new(alloc: Global, limit: usize) -> Incoming
        ensures fresh { IsFresh result }
        ensures limit { codec_limit result.codec ≡ limit }
    {
        Incoming {
            codec: PacketCodec::with_number(limit, FIRST_NUMBER),
            received: BytesMut::new(alloc),
            gathered: Vec::new(alloc),
        }
    }

    /// Returns to that state for another answer, and keeps the buffers.
    pub(crate) fn restart(&mut self)
        ensures fresh { IsFresh self.new }
        ensures limit { codec_limit self.new.codec ≡ codec_limit self.old.codec }
    {
        self.codec = PacketCodec::with_number(self.codec.max_allowed_packet, FIRST_NUMBER);
        self.received.clear();
        self.gathered.clear();
    }

    /// Appends bytes of the answer. An error keeps the bytes received before.
    pub(crate) fn receive(&mut self, piece: &[u8]) -> Result<(), AllocError>
        ensures ok { OnOk result (self.new.received.items ≡ self.old.received.items ++ piece.now) }
        ensures err { OnErr result (self.new.received.items ≡ self.old.received.items) }
        ensures codec { self.new.codec ≡ self.old.codec }
        ensures gathered { self.new.gathered ≡ self.old.gathered }
    {
        self.received.extend_from_slice(piece)
    }

    /// Whether no bytes were received of a packet that isn't taken yet.
    pub(crate) fn is_empty(&self) -> bool
        ensures received { IsTrue result → self.now.received.items ≡ [] }
        ensures gathered { IsTrue result → self.now.gathered.items ≡ [] }
    {
        if !self.received.is_empty() {
            return false;
        }
        self.gathered.is_empty()
    }

    /// Finds the payload of the next packet; returns `None` if there is no further complete packet. Call `drop_found` on it before the
    /// next call. Errors are those of `PacketCodec::decode`.
    pub(crate) fn next(&mut self) -> Result<Option<Found>, PacketCodecError>
        ensures next { (s : List ℕ) (ps : List (List ℕ)) → HasRead self.old.codec 1 s ps self.old.gathered.items self.old.received.items
            → FindsNext self.new s ps result }
        ensures there { IfOk result (λ next. IfSome next (λ found. IsFound self.new found)) }
        ensures shorter { IfOk result (λ next. IfSome next (λ found. length (after self.new found) < length self.old.received.items)) }
        ensures limit { codec_limit self.new.codec ≡ codec_limit self.old.codec }
    {
        if let Some(payload) = self.codec.decode_in_place(self.received.as_slice()) {
            return Ok(Some(Found::Received(payload.len())));
        }
        match self.codec.decode(&mut self.received, &mut self.gathered) {
            Ok(true) => Ok(Some(Found::Gathered)),
            Ok(false) => Ok(None),
            Err(fault) => Err(fault),
        }
    }

    /// Returns the payload that was found there.
    pub(crate) fn payload(&self, found: Found) -> &[u8]
        requires { IsFound self.now found }
        ensures { result.now ≡ found_payload self.now found }
    {
        match found {
            Found::Received(len) => {
                let received = self.received.as_slice();
                &received[PACKET_HEADER_LEN..PACKET_HEADER_LEN + len]
            }
            Found::Gathered => self.gathered.as_slice(),
        }
    }

    /// Drops the packet that was found there.
    pub(crate) fn drop_found(&mut self, found: Found)
        requires { IsFound self.old found }
        ensures received { self.new.received.items ≡ after self.old found }
        ensures gathered { self.new.gathered.items ≡ [] }
        ensures codec { self.new.codec ≡ self.old.codec }
    {
        if let Found::Received(len) = found {
            self.received.advance(PACKET_HEADER_LEN);
            self.received.advance(len);
        }
        self.gathered.clear();
    }
}
