//! Sends events after packets that wait to be written, so that many are written at once.

ghost use Rattle.std.specs.Prelude.{◌≡◌, ◌≤◌, ◌+◌, ◌++◌, length, OnOk, IfOk, IfErr};
ghost use Rattle.wire_buf.specs.Watched.{inner_of, has_failed};
ghost use Rattle.wire_packets.specs.Framing.{framing, next_sequence_id};
ghost use Rattle.feed_transactions.specs.Waiting.{bytes_of, WritesSome};
ghost use Rattle.feed_transactions.specs.declared.waiting.TheConstants.{MAX_WAITING_LEN};
ghost use Rattle.feed_replication.specs.Streams.{payload_of};
ghost use Rattle.feed_replication.specs.WaitingPackets.{IsWaitingSendError};

use crate::format::{MAX_LEAD_LEN, PayloadFormat, lead_of};
use crate::packets::{MAX_PREFIX_LEN, SHORT_LEN, keep_packet};
use crate::sending::send_event;
use feed_checks::Verdict;
use feed_transactions::WaitingBytes;
use std::io::Write;
use wire_buf::Watched;

/// Sends an event in this format after the waiting packets, and returns the sequence number after its packet. The packet of a
/// short event waits.
///
/// - `TooLarge`: the payload is longer than the limit; only the waiting packets were written.
/// - `Write`: the writer failed after a prefix of the waiting packets and of the event's.
#[inline(always)]
pub(crate) fn send_or_keep<W: Write>(
    packets: &mut WaitingBytes,
    format: PayloadFormat,
    limit: usize,
    number: u8,
    event: &[u8],
    writer: &mut Watched<W>,
) -> Result<u8, Verdict>
    ensures fits { OnOk result (length (payload_of format event.now) ≤ limit) }
    ensures ok { OnOk result (WritesSome (W.contents (inner_of writer.old)) (W.contents (inner_of writer.new)) (bytes_of packets.old) (framing number (payload_of format event.now)) (bytes_of packets.new)) }
    ensures next { IfOk result (λ n. n ≡ next_sequence_id number (payload_of format event.now)) }
    ensures err { IfErr result (IsWaitingSendError (W.contents (inner_of writer.old)) (W.contents (inner_of writer.new)) (bytes_of packets.old) limit number (payload_of format event.now) (has_failed writer.new)) }
{
    let len = event.len();
    if len > SHORT_LEN || MAX_LEAD_LEN + len > limit {
        packets.write_all(writer)?;
        return send_event(format, limit, number, event, writer);
    }
    packets.write_if(packets.room() < MAX_PREFIX_LEN + len, writer)?;
    keep_event(packets, format, number, event);
    Ok(number.wrapping_add(1))
}

/// Appends the packet of an event in this format. In each arm the length of what precedes the event is known when it is compiled.
#[inline(always)]
fn keep_event(packets: &mut WaitingBytes, format: PayloadFormat, number: u8, event: &[u8])
    requires short { length event.now ≤ SHORT_LEN }
    requires room { length (bytes_of packets.old) + MAX_PREFIX_LEN + length event.now ≤ MAX_WAITING_LEN }
    ensures { bytes_of packets.new ≡ bytes_of packets.old ++ framing number (payload_of format event.now) }
{
    match format {
        PayloadFormat::Plain => {
            keep_packet(packets, number, lead_of(PayloadFormat::Plain, event), event);
        }
        PayloadFormat::SemiSync => {
            keep_packet(
                packets,
                number,
                lead_of(PayloadFormat::SemiSync, event),
                event,
            );
        }
    }
}
