//! The place in the logs at which reading can begin again.

ghost use Rattle.std.specs.Prelude.{◌≡◌, ◌++◌, ◌||◌, [], false, Some, None, OnErr, OnOk, if◌then◌else◌};
ghost use Rattle.feed_text.specs.Buffers.{text_in};
ghost use Rattle.changes_lines.specs.FactMembers.{resume_member};

use changes_origins::put_utf8;
use events_frames::BinlogFileHeader;
use feed_text::TextBuffer;
use std::alloc::{AllocError, Allocator, Global};
use std::mem;

/// The newest place in the logs at which no XA transaction is prepared: the end of a transaction, or where reading began.
#[derive(Drop)]
pub(crate) struct ResumePlace {
    /// The name of its log.
    file: Vec<u8>,
    position: u32,
    /// Whether a transaction ends there.
    is_end: bool,
    /// Whether another log has begun since, and the name of that.
    has_next: bool,
    next_file: Vec<u8>,
    /// Whether an XA transaction is prepared where the newest transaction ends.
    is_earlier: bool,
    /// The place as text.
    text: TextBuffer<Global>,
}

impl ResumePlace {
    ghost use Rattle.changes_lines.specs.ResumePlaces.{begun_place, earlier_in, ends_earlier, has_log, has_read, log_in, moved_place, place_in};

    /// No log has begun.
    pub(crate) fn new(alloc: Global) -> ResumePlace
        ensures place { place_in result ≡ record { file = []; position = 4 } }
        ensures earlier { earlier_in result ≡ None }
        ensures log { has_log result ≡ false }
        ensures read { has_read result ≡ false }
    {
        ResumePlace {
            file: Vec::new(alloc),
            position: BinlogFileHeader::LEN as u32,
            is_end: false,
            has_next: false,
            next_file: Vec::new(alloc),
            is_earlier: false,
            text: TextBuffer::new(alloc),
        }
    }

    /// A log with this name begins. `AllocError`: out of memory; then its name isn't known.
    pub(crate) fn begin_log(&mut self, file: &[u8]) -> Result<(), AllocError>
        ensures log { OnOk result (log_in self.new ≡ file.now) }
        ensures place { OnOk result (place_in self.new ≡ begun_place self.old file.now) }
        ensures stays { OnErr result (place_in self.new ≡ place_in self.old) }
        ensures read { has_read self.new ≡ (has_read self.old || has_log self.old) }
        ensures earlier { ends_earlier self.new ≡ ends_earlier self.old }
    {
        if self.file.is_empty() && !self.has_next {
            return self.file.extend_from_slice(file);
        }
        self.has_next = true;
        self.next_file.clear();
        self.next_file.extend_from_slice(file)
    }

    /// Reading begins at this position, if nothing was read so far.
    pub(crate) fn begin_at(&mut self, position: u32)
        ensures place { place_in self.new ≡ moved_place self.old position }
        ensures log { log_in self.new ≡ log_in self.old }
        ensures begun { has_log self.new ≡ has_log self.old }
        ensures read { has_read self.new ≡ has_read self.old }
        ensures earlier { ends_earlier self.new ≡ ends_earlier self.old }
    {
        if !self.is_end && !self.has_next {
            self.position = position;
        }
    }

    /// A transaction of the newest log ends at this position. `is_clear` says that no XA transaction is prepared there.
    pub(crate) fn reach(&mut self, position: u32, is_clear: bool)
        ensures earlier { earlier_in self.new ≡ (if is_clear then None else Some (place_in self.old)) }
        ensures place { place_in self.new ≡ (if is_clear then record { file = log_in self.old; position = position } else place_in self.old) }
        ensures log { log_in self.new ≡ log_in self.old }
        ensures read { has_read self.new ≡ (is_clear || has_read self.old) }
    {
        self.is_earlier = !is_clear;
        if !is_clear {
            return;
        }
        self.position = position;
        self.is_end = true;
        if !self.has_next {
            return;
        }
        mem::swap(&mut self.file, &mut self.next_file);
        self.has_next = false;
    }

    /// Appends it as a member, after a comma, if the newest transaction doesn't end there. `AllocError`: out of memory.
    pub(crate) fn put<A: Allocator>(&mut self, text: &mut TextBuffer<A>) -> Result<(), AllocError>
        ensures member { OnOk result (text_in text.new ≡ text_in text.old ++ resume_member (earlier_in self.old)) }
        ensures earlier { earlier_in self.new ≡ earlier_in self.old }
        ensures place { place_in self.new ≡ place_in self.old }
        ensures log { log_in self.new ≡ log_in self.old }
    {
        if !self.is_earlier {
            return Ok(());
        }
        self.text.clear();
        self.text.put_text(&self.file)?;
        self.text.put(b':')?;
        self.text.put_number(u64::from(self.position))?;
        text.put_text(b",\"resume\":")?;
        put_utf8(self.text.as_slice(), text)
    }
}
