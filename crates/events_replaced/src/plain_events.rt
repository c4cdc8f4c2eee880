//! Events that a source gives as they are, and that change nothing it knows: most of a log's, which take a short way.

ghost use Rattle.std.specs.Prelude.{◌≡◌, ◌≤◌, ◌<◌, IsTrue, IsFalse, length};
ghost use Rattle.wire_buf.specs.Watched.{inner_of, reads_of};
ghost use Rattle.events_replaced.specs.PlainEvents.{GivesPlain, has_plain_statement, is_plain};

use crate::stamped::event_len;
use byteorder::{ByteOrder, LittleEndian};
use events_frames::{EventSource, Events, NextFrame, type_number};
use rows_constants::EventType;
use std::io::Read;
use wire_buf::Watched;

/// The length of a QUERY_EVENT's header, its fields before the status variables, and the byte before the statement.
const STATEMENT_START: usize = 33;

/// The offsets of the schema's length, and of the status variables' length, in a QUERY_EVENT.
const SCHEMA_LEN_OFFSET: usize = 27;

const STATUS_LEN_OFFSET: usize = 30;

/// Whether the statement of a QUERY_EVENT is neither an XA statement nor ROLLBACK, by its first byte.
#[inline(always)]
fn has_plain_statement(event: &[u8]) -> bool
    ensures { result ≡ has_plain_statement event.now }
{
    if event.len() <= STATEMENT_START {
        return false;
    }
    let schema_len = usize::from(event[SCHEMA_LEN_OFFSET]);
    let status_len = usize::from(LittleEndian::read_u16(&event[STATUS_LEN_OFFSET..]));
    let start = STATEMENT_START + status_len + schema_len;
    if event.len() <= start {
        return false;
    }
    event[start] != b'X' && event[start] != b'R'
}

/// Whether each source gives an event as it is, and it changes nothing that they know, unless a transaction is open that is kept.
#[inline(always)]
fn is_plain(event: &[u8]) -> bool
    requires { 19 ≤ length event.now }
    ensures { result ≡ is_plain event.now }
{
    let number = type_number(event);
    if number == EventType::QUERY_EVENT as u8 {
        return has_plain_statement(event);
    }
    number < EventType::TRANSACTION_PAYLOAD_EVENT as u8
        && number != EventType::FORMAT_DESCRIPTION_EVENT as u8
        && number != EventType::XA_PREPARE_LOG_EVENT as u8
}

/// A source that passes plain events on.
pub trait PlainEvents<R: Read>: Events<R> {
    /// Its newest event is the log's own, nothing is left to be given in place of one, and plain events are given as they are.
    ghost IsIdle: { Self → Type 0 };

    /// Whether it is known to be idle.
    fn is_idle(&self) -> bool
        ensures { IsTrue result → IsIdle self.now };

    /// Goes on to the next event, if that is at hand and plain. It reads nothing, and without such an event it changes nothing.
    fn next_plain(&mut self, reader: &mut Watched<R>) -> bool
        requires idle { IsIdle self.old }
        ensures given { IsTrue result → GivesPlain (Self.MayGive self.old (R.remaining (inner_of reader.old))) (Self.MayGive self.new (R.remaining (inner_of reader.new))) (Self.newest self.new) (Self.at_hand self.new) }
        ensures none { IsFalse result → self.new ≡ self.old }
        ensures unread { reader.new ≡ reader.old }
        ensures idle { IsIdle self.new }
        ensures counted { IsTrue result → Self.to_come self.new (reads_of reader.new) < Self.to_come self.old (reads_of reader.old) };

    /// The newest event of an idle source.
    fn own_event(&self) -> &[u8]
        requires { IsIdle self.now }
        ensures { result.now ≡ Self.newest self.now };
}

impl<R: Read> PlainEvents<R> for EventSource {
    ghost use Rattle.std.specs.Prelude.{⊤};

    ghost IsIdle = { λ s. ⊤ };

    #[inline(always)]
    fn is_idle(&self) -> bool {
        true
    }

    #[inline(always)]
    fn next_plain(&mut self, reader: &mut Watched<R>) -> bool {
        let waiting = self.waiting();
        let Some(len) = event_len(waiting) else {
            return false;
        };
        let (event, _) = waiting.split_at(len);
        if !is_plain(event) {
            return false;
        }
        matches!(EventSource::next_frame(self, reader), Ok(NextFrame::Event))
    }

    #[inline(always)]
    fn own_event(&self) -> &[u8] {
        EventSource::event(self)
    }
}
