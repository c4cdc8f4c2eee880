//! The members with the time of an event and the id of its server.

ghost use Rattle.std.specs.Prelude.{◌≡◌, ◌≤◌, ◌+◌, ◌++◌, length, take};
ghost use Rattle.changes_lines.specs.Origins.{time_members};

use events_frames::BinlogEventHeader;
use feed_text::{TextBuffer, Writing};
use feed_writers::{put_bytes, put_number};
use std::alloc::{AllocError, Allocator};

/// The room for the members, in bytes: they are copied at once.
const HEADER_ROOM: usize = 64;

/// The members with the time of an event and the id of its server, each after a comma. They are kept for the next event, which mostly
/// has the same.
#[derive(Drop)]
pub(crate) struct HeaderText {
    timestamp: u32,
    server_id: u32,
    text: [u8; HEADER_ROOM],
    len: usize,
    ghost within: { len ≤ 64 },
    ghost text_is: { take len text ≡ time_members timestamp server_id },
}

/// Writes the members at the start of a text, and returns their length.
fn put_members(text: &mut [u8], timestamp: u32, server_id: u32) -> usize
    requires { 64 ≤ length text.old }
    ensures most { result ≤ 64 }
    ensures text { take result text.new ≡ time_members timestamp server_id }
{
    let end = put_bytes(text, 0, b",\"ts\":");
    let end = put_number(text, end, u64::from(timestamp));
    let end = put_bytes(text, end, b",\"server_id\":");
    put_number(text, end, u64::from(server_id))
}

impl HeaderText {
    ghost use Rattle.std.specs.Prelude.{OnOk, OnErr};
    ghost use Rattle.events_frames.specs.Headers.{event_header_of};
    ghost use Rattle.feed_text.specs.Buffers.{text_in};
    ghost use Rattle.changes_lines.specs.Origins.{header_members};

    /// The members of this time and this server.
    pub(crate) fn new(timestamp: u32, server_id: u32) -> HeaderText
        ensures timestamp { result.timestamp ≡ timestamp }
        ensures server_id { result.server_id ≡ server_id }
    {
        let mut text = [0; HEADER_ROOM];
        let len = put_members(&mut text, timestamp, server_id);
        HeaderText {
            timestamp,
            server_id,
            text,
            len,
        }
    }

    /// Makes the members those of an event.
    #[inline(always)]
    fn keep(&mut self, header: BinlogEventHeader)
        ensures timestamp { self.new.timestamp ≡ header.timestamp }
        ensures server_id { self.new.server_id ≡ header.server_id }
    {
        if self.timestamp == header.timestamp() && self.server_id == header.server_id() {
            return;
        }
        *self = HeaderText::new(header.timestamp(), header.server_id());
    }

    /// Appends the members of an event. Out of memory: the text is unchanged.
    #[inline(always)]
    pub(crate) fn put<A: Allocator>(
        &mut self,
        header: BinlogEventHeader,
        text: &mut TextBuffer<A>,
    ) -> Result<(), AllocError>
        ensures ok { OnOk result (text_in text.new ≡ text_in text.old ++ header_members (event_header_of header)) }
        ensures err { OnErr result (text_in text.new ≡ text_in text.old) }
    {
        self.keep(header);
        text.put_writing(&*self)
    }
}

impl Writing for HeaderText {
    ghost content = { λ h. time_members h.timestamp h.server_id };

    ghost most = { λ h. 64 };

    #[inline(always)]
    fn room(&self) -> Option<usize> {
        Some(HEADER_ROOM)
    }

    #[inline(always)]
    fn put(&self, text: &mut [u8], at: usize) -> usize {
        let _end = put_bytes(text, at, &self.text);
        at + self.len
    }
}
