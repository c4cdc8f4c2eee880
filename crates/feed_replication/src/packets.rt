//! Writes packets from the bytes of their payloads: to a writer, or to the bytes that wait for it.

ghost use Rattle.std.specs.Prelude.{◌≡◌, ℕ, List, ◌+◌, ◌≤◌, ◌++◌, length, OnOk, IfOk, IfErr};
ghost use Rattle.std.specs.Io.KnownBytes.{Appends};
ghost use Rattle.wire_buf.specs.Watched.{inner_of, has_failed};
ghost use Rattle.wire_packets.specs.Framing.{max_chunk_len, chunk, framing, next_sequence_id};
ghost use Rattle.feed_transactions.specs.InterruptedWrites.{IsInterruptedWrite};
ghost use Rattle.feed_transactions.specs.Waiting.{bytes_of};
ghost use Rattle.feed_transactions.specs.declared.waiting.TheConstants.{MAX_WAITING_LEN};

use crate::format::MAX_LEAD_LEN;
use feed_checks::Verdict;
use feed_transactions::{WaitingBytes, put_all};
use feed_writers::put_bytes;
use std::io::Write;
use wire_buf::Watched;
use wire_constants::MAX_PAYLOAD_LEN;
use wire_packets::{PACKET_HEADER_LEN, chunk_header};

/// The maximum length of what precedes an event in its packet, in bytes.
pub(crate) const MAX_PREFIX_LEN: usize = PACKET_HEADER_LEN + MAX_LEAD_LEN;

/// The maximum length of an event whose packet waits, in bytes: 16 KiB. Longer events are written without a copy.
pub(crate) const SHORT_LEN: usize = 0x4000;

/// Writes one chunk: its length in three bytes, its sequence number, and its bytes, `lead` and then `slice`. The header and
/// `lead` are written at once. `Write`: the writer failed after a prefix of the chunk.
fn put_chunk<W: Write>(
    writer: &mut Watched<W>,
    number: u8,
    lead: &[u8],
    slice: &[u8],
) -> Result<(), Verdict>
    requires lead { length lead.now ≤ MAX_LEAD_LEN }
    requires short { length lead.now + length slice.now ≤ max_chunk_len }
    ensures ok { OnOk result (Appends (W.contents (inner_of writer.old)) (W.contents (inner_of writer.new)) (chunk number (lead.now ++ slice.now))) }
    ensures fault { IfErr result (IsInterruptedWrite (W.contents (inner_of writer.old)) (W.contents (inner_of writer.new)) (chunk number (lead.now ++ slice.now)) (has_failed writer.new)) }
{
    let mut prefix = [0; MAX_PREFIX_LEN];
    let begin = put_bytes(
        &mut prefix,
        0,
        &chunk_header(lead.len() + slice.len(), number),
    );
    let end = put_bytes(&mut prefix, begin, lead);
    put_all(writer, &prefix[..end])?;
    put_all(writer, slice)
}

/// Writes the packet of the payload `lead` and then `body`, in chunks with sequence numbers from `number` on, and returns the
/// number after the last. `Write`: the writer failed after a prefix of the packet.
pub(crate) fn put_packet<W: Write>(
    writer: &mut Watched<W>,
    number: u8,
    lead: &[u8],
    body: &[u8],
) -> Result<u8, Verdict>
    requires { length lead.now ≤ MAX_LEAD_LEN }
    ensures ok { OnOk result (Appends (W.contents (inner_of writer.old)) (W.contents (inner_of writer.new)) (framing number (lead.now ++ body.now))) }
    ensures next { IfOk result (λ n. n ≡ next_sequence_id number (lead.now ++ body.now)) }
    ensures fault { IfErr result (IsInterruptedWrite (W.contents (inner_of writer.old)) (W.contents (inner_of writer.new)) (framing number (lead.now ++ body.now)) (has_failed writer.new)) }
{
    let (slice, mut rest) = body.split_at(body.len().min(MAX_PAYLOAD_LEN - lead.len()));
    put_chunk(writer, number, lead, slice)?;
    let mut number = number.wrapping_add(1);
    let mut is_whole = lead.len() + slice.len() == MAX_PAYLOAD_LEN;
    while is_whole {
        let (slice, after) = rest.split_at(rest.len().min(MAX_PAYLOAD_LEN));
        put_chunk(writer, number, &[], slice)?;
        number = number.wrapping_add(1);
        is_whole = slice.len() == MAX_PAYLOAD_LEN;
        rest = after;
    }
    Ok(number)
}

/// Appends the packet of the payload `lead` and then `event` to the bytes that wait.
#[inline(always)]
pub(crate) fn keep_packet(packets: &mut WaitingBytes, number: u8, lead: &[u8], event: &[u8])
    requires lead { length lead.now ≤ MAX_LEAD_LEN }
    requires short { length event.now ≤ SHORT_LEN }
    requires room { length (bytes_of packets.old) + MAX_PREFIX_LEN + length event.now ≤ MAX_WAITING_LEN }
    ensures { bytes_of packets.new ≡ bytes_of packets.old ++ framing number (lead.now ++ event.now) }
{
    packets.append(&chunk_header(lead.len() + event.len(), number));
    packets.append(lead);
    packets.append(event);
}
