//! The packets of a list of pieces.

ghost use Rattle.std.specs.Prelude.{◌≡◌, ℕ, List, [], ◌++◌, IfErr, IfSome, IfNone, Some};
ghost use Rattle.wire_packets.specs.CodecState.{HasRead, codec_limit, codec_fault};
ghost use Rattle.wire_packets.specs.StreamPieces.{TakesPackets, IsReading, DrainsStream, vec_items, joined_pieces};

use crate::error::PacketCodecError;
use crate::packet_codec::PacketCodec;
use bytes::BytesMut;
use std::alloc::Global;
use std::mem;

/// Returns the packets of the joined pieces, in order, and the first error.
///
/// The errors are those of `PacketCodec::decode`. At `Memory` only some of the first packets are returned.
/// After an error, every call with the codec returns that error. The bytes after the last whole packet are
/// dropped, but the codec has counted their whole chunks.
pub fn decode_pieces(
    alloc: Global,
    codec: &mut PacketCodec,
    pieces: &[&[u8]],
) -> (Vec<Vec<u8>>, Option<PacketCodecError>)
    ensures reading { (k : ℕ) → HasRead codec.old k [] [] [] []
        → IsReading (codec_limit codec.old) k (joined_pieces pieces.now) (vec_items result.0.items) result.1 }
    ensures rests { (k : ℕ) → HasRead codec.old k [] [] [] []
        → IfNone result.1 (DrainsStream codec.new k (joined_pieces pieces.now) (vec_items result.0.items)) }
    ensures limit { codec_limit codec.new ≡ codec_limit codec.old }
    ensures again { IfSome (codec_fault codec.old) (λ e. (result.0.items ≡ []) × (result.1 ≡ Some e)
        × (codec.new ≡ codec.old)) }
    ensures fault { IfSome result.1 (λ e. codec_fault codec.new ≡ Some e) }
{
    let mut packets = Vec::new(alloc);
    if let Some(fault) = codec.fault() {
        return (packets, Some(fault));
    }
    let mut src = BytesMut::new(alloc);
    let mut packet = Vec::new(alloc);
    for piece in pieces {
        if let Err(fault) = take_piece(alloc, codec, &mut src, &mut packet, &mut packets, piece) {
            return (packets, Some(fault));
        }
    }
    (packets, None)
}

/// Reads the packets of one more piece.
fn take_piece(
    alloc: Global,
    codec: &mut PacketCodec,
    src: &mut BytesMut,
    packet: &mut Vec<u8>,
    packets: &mut Vec<Vec<u8>>,
    piece: &[u8],
) -> Result<(), PacketCodecError>
    ensures takes { (k : ℕ) (s : List ℕ)
        → HasRead codec.old k s (vec_items packets.old.items) packet.old.items src.old.items
        → TakesPackets codec.new k (s ++ piece.now) (vec_items packets.new.items) packet.new.items src.new.items result }
    ensures limit { codec_limit codec.new ≡ codec_limit codec.old }
    ensures fault { IfErr result (λ e. codec_fault codec.new ≡ Some e) }
{
    if let Err(_) = src.extend_from_slice(piece) {
        return Err(codec.fail_with_memory());
    }
    drain(alloc, codec, src, packet, packets)
}

/// Reads each packet that is complete.
fn drain(
    alloc: Global,
    codec: &mut PacketCodec,
    src: &mut BytesMut,
    packet: &mut Vec<u8>,
    packets: &mut Vec<Vec<u8>>,
) -> Result<(), PacketCodecError>
    ensures takes { (k : ℕ) (s : List ℕ)
        → HasRead codec.old k s (vec_items packets.old.items) packet.old.items src.old.items
        → TakesPackets codec.new k s (vec_items packets.new.items) packet.new.items src.new.items result }
    ensures limit { codec_limit codec.new ≡ codec_limit codec.old }
    ensures fault { IfErr result (λ e. codec_fault codec.new ≡ Some e) }
{
    loop {
        let is_whole = match codec.decode(src, packet) {
            Ok(is_whole) => is_whole,
            Err(fault) => return Err(fault),
        };
        if !is_whole {
            return Ok(());
        }
        let whole = mem::replace(packet, Vec::new(alloc));
        if let Err(_) = packets.push(whole) {
            return Err(codec.fail_with_memory());
        }
    }
}
