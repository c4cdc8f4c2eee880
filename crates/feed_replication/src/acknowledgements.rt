//! Acknowledgements for a semi-synchronous source.

ghost use Rattle.std.specs.Prelude.{◌≡◌, false, if◌then◌else◌, ◌%◌, ◌==◌, ◌++◌, ◌≤◌, ◌+◌, List, ℕ, [], ◌∷◌, OnOk, OnErr, length};
ghost use Rattle.std.specs.Int.{w64, to_le_bytes};
ghost use Rattle.wire_packets.specs.Framing.{max_chunk_len, chunk, framing};
ghost use Rattle.feed_checks.specs.LogFormat.{joined};
ghost use Rattle.feed_replication.specs.Acknowledgements.{is_ack_requested};

use crate::format::PayloadFormat;
use crate::requests::LogName;
use bitflags::Flags;
use rows_constants::SemiSyncFlags;
use std::alloc::AllocError;
use wire_packets::{PACKET_HEADER_LEN, chunk_header};

/// The magic number that an acknowledgement begins with.
const ACK: u8 = 0xef;

/// The length of an acknowledgement without its name, in bytes.
const ACK_LEN: usize = 9;

/// Appends the packet that acknowledges an event; `position` is the position after it in its log. An error changes nothing.
#[tactic(auto, using(crate::proofs::AcknowledgementLemmas::packet_is))]
#[inline(never)]
fn put_acknowledgement(
    position: u32,
    name: &LogName,
    due_acks: &mut Vec<u8>,
) -> Result<(), AllocError>
    ensures ok { OnOk result (due_acks.new.items ≡ due_acks.old.items ++ framing 0 (239 ∷ to_le_bytes w64 position ++ name.now.bytes.items)) }
    ensures err { OnErr result (due_acks.new.items ≡ due_acks.old.items) }
{
    let name = name.as_slice();
    let len = ACK_LEN + name.len();
    due_acks.reserve(PACKET_HEADER_LEN + len)?;
    due_acks.extend_from_slice(&chunk_header(len, 0))?;
    due_acks.extend_from_slice(&[ACK])?;
    due_acks.extend_from_slice(&(position as u64).to_le_bytes())?;
    due_acks.extend_from_slice(name)
}

/// Whether a flag byte asks for an acknowledgement. Unknown bits are ignored.
#[inline(always)]
fn is_ack_flag_set(bits: u8) -> bool
    ensures { result ≡ (bits % 2 == 1) }
{
    SemiSyncFlags::from_bits_truncate(bits).contains(SemiSyncFlags::SEMI_SYNC_ACK_REQ)
}

/// Whether a payload asks for an acknowledgement of its event.
#[inline(always)]
pub(crate) fn is_ack_requested(format: PayloadFormat, payload: &[u8]) -> bool
    ensures { result ≡ is_ack_requested format payload.now }
{
    match format {
        PayloadFormat::Plain => false,
        PayloadFormat::SemiSync => payload.len() > 2 && is_ack_flag_set(payload[2]),
    }
}

/// Appends the acknowledgement of an event if it is requested; `position` is the position after the event in its log. An error changes
/// nothing.
#[inline(always)]
pub(crate) fn put_requested_acknowledgement(
    is_requested: bool,
    position: u32,
    name: &LogName,
    due_acks: &mut Vec<u8>,
) -> Result<(), AllocError>
    ensures ok { OnOk result (due_acks.new.items ≡ due_acks.old.items ++ joined (if is_requested then framing 0 (239 ∷ to_le_bytes w64 position ++ name.now.bytes.items) ∷ [] else [])) }
    ensures err { OnErr result (due_acks.new.items ≡ due_acks.old.items) }
    ensures plain { is_requested ≡ false → due_acks.new.items ≡ due_acks.old.items }
{
    if !is_requested {
        return Ok(());
    }
    put_acknowledgement(position, name, due_acks)
}
