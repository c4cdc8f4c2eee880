//! How far the logs of an answer were read, for lines that say so.

ghost use Rattle.changes_commands.specs.GrowingTexts.{IsLonger};
ghost use Rattle.program_changes.specs.FollowedLines.{progress_line};

use changes_commands::Text;
use events_frames::{BinlogEventHeader, has_type, log_pos};
use rows_constants::EventType;
use std::time::Instant;

/// Tells whether a time has passed since it was set.
pub(crate) trait Timer {
    /// Whether at least so many seconds have passed; false where the time isn't known.
    fn has_passed(&self, seconds: u32) -> bool;

    /// Sets it to now.
    fn set(&mut self);
}

/// A timer by the clock of the system.
#[derive(Drop)]
pub(crate) struct Stopwatch<'r> {
    rt: &'r HostRuntime,
    since: Option<Instant>,
}

impl<'r> Stopwatch<'r> {
    /// One that is set now.
    pub(crate) fn new(rt: &'r HostRuntime) -> Stopwatch<'r> {
        Stopwatch {
            rt,
            since: Instant::now(rt).ok(),
        }
    }
}

impl Timer for Stopwatch<'_> {
    fn has_passed(&self, seconds: u32) -> bool {
        let Some(since) = self.since else {
            return false;
        };
        match since.elapsed(self.rt) {
            Ok(elapsed) => elapsed.as_secs() >= u64::from(seconds),
            Err(_) => false,
        }
    }

    fn set(&mut self) {
        self.since = Instant::now(self.rt).ok();
    }
}

/// How far the logs were read, and when a line said it.
#[derive(Drop)]
pub(crate) struct Reached<T: Timer> {
    /// After how many seconds a line says it again; None: no lines.
    seconds: Option<u32>,
    /// Set when the newest line was printed, or when reading began.
    timer: T,
    /// The position in the newest log.
    position: u32,
    /// Whether no line has it yet.
    is_new: bool,
}

impl<T: Timer> Reached<T> {
    /// Nothing was read. A line is to say it at most every so many seconds.
    pub(crate) fn new(timer: T, seconds: Option<u32>) -> Reached<T> {
        Reached {
            seconds,
            timer,
            position: 0,
            is_new: false,
        }
    }

    /// All transactions of the log up to this position were read, and none is open there.
    pub(crate) fn at(&mut self, position: u32) {
        self.is_new = self.is_new || position != self.position;
        self.position = position;
    }

    /// An event was read. A heartbeat has the position after the newest event of a log, a ROTATE_EVENT that of the next log's first,
    /// which is returned.
    pub(crate) fn after(&mut self, event: &[u8]) -> Option<u32> {
        if event.len() < BinlogEventHeader::LEN {
            return None;
        }
        if has_type(event, EventType::HEARTBEAT_EVENT) && log_pos(event) > 0 {
            self.at(log_pos(event));
        }
        if has_type(event, EventType::ROTATE_EVENT)
            && let [a, b, c, d, ..] = event.get(BinlogEventHeader::LEN..).unwrap_or(&[])
        {
            self.position = u32::from_le_bytes([*a, *b, *c, *d]);
            self.is_new = true;
            return Some(self.position);
        }
        None
    }

    /// Whether a line is to say it.
    pub(crate) fn is_due(&self) -> bool {
        match self.seconds {
            Some(seconds) if self.is_new => self.timer.has_passed(seconds),
            _ => false,
        }
    }

    /// Appends the line, for the log of this name.
    pub(crate) fn put(&self, file: &[u8], out: &mut Text)
        ensures { IsLonger out.old out.new (progress_line file.now self.now.position) }
    {
        out.words("{\"type\":\"progress\",\"file\":");
        out.text(file);
        out.words(",\"position\":");
        out.unsigned(u64::from(self.position));
        out.words("}\n");
    }

    /// A line said it now.
    pub(crate) fn was_said(&mut self) {
        self.timer.set();
        self.is_new = false;
    }
}
