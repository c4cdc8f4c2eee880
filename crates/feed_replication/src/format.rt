//! The format of an answer's payloads: what precedes the event.

ghost use Rattle.std.specs.Prelude.{◌≡◌, ◌≤◌, ◌++◌, [], ◌∷◌, true, false, None, IfSome, length, drop};
ghost use Rattle.feed_checks.specs.EventFields.{type_of};
ghost use Rattle.feed_checks.specs.PastLists.{is_among};
ghost use Rattle.feed_replication.specs.Streams.{Plain, SemiSync, holds_event, event_in, is_one_event, payload_of};

use events_frames::{BinlogEventHeader, TYPE_OFFSET, event_size};
use rows_constants::EventType;

/// The magic number of a semi-synchronous payload, its second byte.
const SEMI_SYNC: u8 = 0xef;

/// The maximum length of what precedes an event in a payload, in bytes.
pub(crate) const MAX_LEAD_LEN: usize = 3;

/// What precedes an event in a plain payload.
const PLAIN_LEAD: &[u8] = b"\x00";

/// What precedes an event in a semi-synchronous payload, without and with SEMI_SYNC_ACK_REQ.
const SEMI_SYNC_LEAD: &[u8] = b"\x00\xef\x00";

const SEMI_SYNC_ACK_LEAD: &[u8] = b"\x00\xef\x01";

/// The format of an answer's payloads (MySQL Internals: Binlog Network Stream).
#[derive(Clone, Copy, Debug, PartialEq, Eq)]
pub enum PayloadFormat {
    /// A zero byte, and the event.
    Plain,
    /// A zero byte, 0xef, a byte of `SemiSyncFlags`, and the event.
    SemiSync,
}

/// Whether the bytes are exactly one event, as long as its header says.
fn is_one_event(bytes: &[u8]) -> bool
    ensures { result ≡ is_one_event bytes.now }
{
    bytes.len() >= BinlogEventHeader::LEN && event_size(bytes) as usize == bytes.len()
}

/// Returns the event of a plain payload if it holds exactly one.
#[tactic(auto, unfolding(crate::specs::Streams::holds_event))]
fn plain_event(payload: &[u8]) -> Option<&[u8]>
    ensures some { IfSome result (λ event. holds_event Plain payload.now ≡ true) }
    ensures event { IfSome result (λ event. event.now ≡ drop 1 payload.now) }
    ensures none { result ≡ None → holds_event Plain payload.now ≡ false }
{
    if payload.len() <= BinlogEventHeader::LEN || payload[0] != 0 {
        return None;
    }
    let (_, event) = payload.split_at(1);
    if is_one_event(event) {
        Some(event)
    } else {
        None
    }
}

/// Returns the event of a semi-synchronous payload if it holds exactly one.
#[tactic(auto, unfolding(crate::specs::Streams::holds_event))]
fn semi_synchronous_event(payload: &[u8]) -> Option<&[u8]>
    ensures some { IfSome result (λ event. holds_event SemiSync payload.now ≡ true) }
    ensures event { IfSome result (λ event. event.now ≡ drop 3 payload.now) }
    ensures none { result ≡ None → holds_event SemiSync payload.now ≡ false }
{
    if payload.len() < BinlogEventHeader::LEN + 3 || payload[0] != 0 || payload[1] != SEMI_SYNC {
        return None;
    }
    let (_, event) = payload.split_at(3);
    if is_one_event(event) {
        Some(event)
    } else {
        None
    }
}

/// Returns the event of a payload if it is in this format and holds exactly one.
pub(crate) fn find_event(format: PayloadFormat, payload: &[u8]) -> Option<&[u8]>
    ensures some { IfSome result (λ event. holds_event format payload.now ≡ true) }
    ensures event { IfSome result (λ event. event.now ≡ event_in format payload.now) }
    ensures none { result ≡ None → holds_event format payload.now ≡ false }
{
    match format {
        PayloadFormat::Plain => plain_event(payload),
        PayloadFormat::SemiSync => semi_synchronous_event(payload),
    }
}

/// Returns what precedes an event in a payload of this format. SEMI_SYNC_ACK_REQ is set for QUERY_EVENT and XID_EVENT.
#[inline(always)]
pub(crate) fn lead_of(format: PayloadFormat, event: &[u8]) -> &'static [u8]
    ensures payload { result.now ++ event.now ≡ payload_of format event.now }
    ensures short { length result.now ≤ MAX_LEAD_LEN }
{
    match format {
        PayloadFormat::Plain => PLAIN_LEAD,
        PayloadFormat::SemiSync => {
            if is_acknowledged(event) {
                SEMI_SYNC_ACK_LEAD
            } else {
                SEMI_SYNC_LEAD
            }
        }
    }
}

/// Whether a source asks for the acknowledgement of an event: of QUERY_EVENT and XID_EVENT.
#[inline(always)]
fn is_acknowledged(event: &[u8]) -> bool
    ensures { result ≡ is_among (2 ∷ 16 ∷ []) (type_of event.now) }
{
    let Some(number) = event.get(TYPE_OFFSET) else {
        return false;
    };
    *number == EventType::QUERY_EVENT as u8 || *number == EventType::XID_EVENT as u8
}
