//! Writing a payload as chunks.

ghost use Rattle.std.specs.Prelude.{◌≡◌, ◌≤◌, ◌+◌, ◌*◌, ◌++◌, length, OnOk, OnErr, IfOk, IsOkUnless};
ghost use Rattle.wire_packets.specs.Framing.{max_chunk_len, chunk, framing, next_sequence_id};

use crate::error::PacketCodecError;
use crate::header::PACKET_HEADER_LEN;
use bytes::BytesMut;
use wire_constants::MAX_PAYLOAD_LEN;

/// Appends the framing of a payload to `dst`. Returns the sequence id of the chunk after it.
///
/// The payload is split into chunks of `MAX_PAYLOAD_LEN` bytes; the last chunk is shorter and may be empty.
/// Each chunk follows its length, in three little-endian bytes, and its sequence id, which counts from `id`
/// modulo 256. Returns `Memory` if `dst` can't grow; nothing is then appended.
///
/// MySQL's manual: MySQL Packets.
pub fn packet_to_chunks(id: u8, src: &[u8], dst: &mut BytesMut) -> Result<u8, PacketCodecError>
    ensures framing { OnOk result (dst.new.items ≡ dst.old.items ++ framing id src.now) }
    ensures next { IfOk result (λ n. n ≡ next_sequence_id id src.now) }
    ensures memory_only { IsOkUnless result PacketCodecError.Memory }
    ensures err { OnErr result (dst.new.items ≡ dst.old.items) }
{
    let count = src.len() / MAX_PAYLOAD_LEN + 1;
    dst.reserve(src.len() + PACKET_HEADER_LEN * count)?;
    let mut number = id;
    let mut rest = src;
    for i in 0..count {
        let (slice, after) = rest.split_at(MAX_PAYLOAD_LEN.min(rest.len()));
        put_chunk(number, slice, dst);
        number = number.wrapping_add(1);
        rest = after;
    }
    Ok(number)
}

/// Appends one chunk; `dst` has room for it.
fn put_chunk(number: u8, slice: &[u8], dst: &mut BytesMut)
    requires short { length slice.now ≤ max_chunk_len }
    requires room { 4 + length slice.now ≤ dst.old.spare }
    ensures chunk { dst.new.items ≡ dst.old.items ++ chunk number slice.now }
    ensures spare { dst.new.spare + (4 + length slice.now) ≡ dst.old.spare }
{
    let len = (slice.len() as u32).to_le_bytes();
    dst.extend_reserved(&[len[0], len[1], len[2], number]);
    dst.extend_reserved(slice);
}
