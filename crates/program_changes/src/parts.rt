//! A log in parts, between which transactions that can't be read are left out.

use changes_commands::{Explanation, Failure, Log, LogReader, Options, Progress};
use changes_walks::{
    EndedWalk, LogEnd, LogEvents, SourceStates, beginning_of, explanation_of, is_passable,
    leave_out,
};
use events_frames::BinlogFileHeader;
use feed_change_log::Stop;
use feed_checks::Verdict;
use feed_transactions::Recorder;
use std::alloc::Global;
use std::io::Read;

/// A part of a log.
#[derive(Clone, Copy)]
pub(crate) struct Part<'l> {
    /// The log. It is the first if the start position is to be found in this part, or after it.
    pub(crate) log: Log<'l>,
    /// The offset at which it begins.
    begin: u64,
    /// What is added to the offsets in it.
    shift: u64,
    /// Where the last transaction before it ends.
    last_commit: Option<u32>,
}

/// What was left out of a log: how the log ended before it, the offset at which it goes on, and the length of what it begins with.
#[derive(Clone, Copy)]
struct Gap {
    stop: Stop,
    to: u64,
    beginning_len: u64,
}

impl<'l> Part<'l> {
    /// The first part of a log.
    fn first(log: Log<'l>) -> Part<'l> {
        Part {
            log,
            begin: BinlogFileHeader::LEN as u64,
            shift: 0,
            last_commit: None,
        }
    }

    /// How the log ended whose part ended so.
    fn end_of(self, end: LogEnd) -> LogEnd {
        match end {
            LogEnd::Read(stop) => LogEnd::Read(Stop {
                offset: stop.offset.saturating_add(self.shift),
                last_commit: stop.last_commit.or(self.last_commit),
                ..stop
            }),
            _ => end,
        }
    }

    /// Whether the start position was found before a stop.
    fn has_start(self, options: &Options<'_>, stop: Stop) -> bool {
        match options.range.start {
            Some(start) if self.log.is_first && u64::from(start) > BinlogFileHeader::LEN as u64 => {
                stop.last_commit.is_some_and(|last| start <= last)
            }
            _ => true,
        }
    }

    /// The part after a gap.
    fn after(self, options: &Options<'_>, gap: Gap) -> Part<'l> {
        let Gap {
            stop,
            to,
            beginning_len,
        } = gap;
        let is_at_start = options
            .range
            .start
            .is_some_and(|start| u64::from(start) == to);
        let has_start = is_at_start || self.has_start(options, stop);
        Part {
            log: Log {
                is_first: self.log.is_first && !has_start,
                ..self.log
            },
            begin: to,
            shift: to.saturating_sub(beginning_len),
            last_commit: stop.last_commit,
        }
    }

    /// Whether the stop position is at this offset or before it.
    fn is_over(self, options: &Options<'_>, to: u64) -> bool {
        match (options.range.stop, self.log.next) {
            (Some(stop), None) => u64::from(stop) <= to,
            _ => false,
        }
    }
}

/// What was left out of a log: from an offset to another, and why.
#[derive(Clone, Copy)]
pub(crate) struct FoundGap<'g> {
    pub(crate) log: Log<'g>,
    pub(crate) from: u64,
    pub(crate) to: u64,
    pub(crate) reason: &'g str,
}

/// What can't be read: how the log ended before it, and those bytes of it and after it that were read.
#[derive(Drop)]
pub(crate) struct Unreadable {
    stop: Stop,
    bytes: Vec<u8>,
}

/// What comes next in a log: something, or its end.
pub(crate) enum Next<T> {
    GoesOn(T),
    Ended(LogEnd),
}

/// Whether the event is left out at which a log ended so.
fn is_left_out(options: &Options<'_>, end: LogEnd) -> bool {
    match end {
        LogEnd::Read(stop) => options.skips_unreadable && is_passable(stop.verdict),
        _ => false,
    }
}

/// Gets the selected transactions of a log, part by part, and the gaps between the parts.
pub(crate) trait PartSink {
    /// Reads a part of a log, and gets its transactions. What comes next is what can't be read, if it is to be left out.
    fn take_part<R: Read + Drop>(
        &mut self,
        alloc: Global,
        options: &Options<'_>,
        part: Part<'_>,
        reader: &mut LogReader<R>,
        sources: &mut SourceStates,
        progress: &mut Progress<'_>,
    ) -> Next<Unreadable>;

    /// Gets a gap.
    fn take_gap(&mut self, alloc: Global, gap: FoundGap<'_>) -> Result<(), Failure>;
}

/// What comes after a part whose walk ended so.
pub(crate) fn next_of<R: Read + Drop, F: Fn(&[u8]) -> u32 + Drop, C: Recorder>(
    alloc: Global,
    options: &Options<'_>,
    part: Part<'_>,
    ended: EndedWalk<R, F, C, LogEvents<'_>>,
) -> Next<Unreadable> {
    let end = part.end_of(ended.end_in_log());
    let unread = if is_left_out(options, end) {
        ended.unread(alloc)
    } else {
        Ok(Vec::new(alloc))
    };
    drop(ended);
    match (end, unread) {
        (LogEnd::Read(stop), Ok(bytes)) if is_left_out(options, end) => {
            Next::GoesOn(Unreadable { stop, bytes })
        }
        (_, Ok(_)) => Next::Ended(end),
        (_, Err(_)) => Next::Ended(LogEnd::Failed(Failure::Memory)),
    }
}

/// Passes a gap up to this offset to a sink.
fn pass_gap<S: PartSink>(
    alloc: Global,
    part: Part<'_>,
    stop: Stop,
    to: u64,
    reason: &str,
    sink: &mut S,
) -> Result<(), Failure> {
    let last = u64::from(stop.last_commit.unwrap_or(0));
    let gap = FoundGap {
        log: part.log,
        from: last.max(part.begin),
        to,
        reason,
    };
    sink.take_gap(alloc, gap)
}

/// The part behind a gap up to this offset, which it passes to the sink unless the start position follows it.
fn part_behind<'l, S: PartSink>(
    alloc: Global,
    options: &Options<'_>,
    part: Part<'l>,
    gap: Gap,
    reason: &str,
    sink: &mut S,
) -> Next<Part<'l>> {
    let Gap { stop, to, .. } = gap;
    if part.has_start(options, stop)
        && let Err(failure) = pass_gap(alloc, part, stop, to, reason, sink)
    {
        return Next::Ended(LogEnd::Failed(failure));
    }
    if part.is_over(options, to) {
        let last = stop.last_commit.unwrap_or(BinlogFileHeader::LEN as u32);
        return Next::Ended(LogEnd::Stopped(last));
    }
    Next::GoesOn(part.after(options, gap))
}

/// Leaves out what can't be read. What comes next is the gap.
fn pass<R: Read + Drop>(
    alloc: Global,
    part: Part<'_>,
    unreadable: Unreadable,
    reader: LogReader<R>,
) -> (Next<Gap>, LogReader<R>) {
    let Unreadable { stop, bytes } = unreadable;
    let Some(first) = beginning_of(reader.first()) else {
        return (Next::Ended(LogEnd::Read(stop)), reader);
    };
    let Ok(beginning) = Vec::from_slice(alloc, first) else {
        return (Next::Ended(LogEnd::Failed(Failure::Memory)), reader);
    };
    let is_first = stop.offset == part.begin;
    let (place, reader) = leave_out(alloc, &beginning, stop, is_first, bytes, reader);
    let next = match place {
        Ok(to) => Next::GoesOn(Gap {
            stop,
            to,
            beginning_len: beginning.len() as u64,
        }),
        Err(verdict) => Next::Ended(LogEnd::Unread(verdict)),
    };
    (next, reader)
}

/// Passes the selected transactions of a log to a sink. It ends at the first event that can't be read, unless the options say that such
/// transactions are left out; then the sink gets a gap for each. Returns the reader too.
pub(crate) fn read_parts<R: Read + Drop, S: PartSink>(
    alloc: Global,
    options: &Options<'_>,
    log: Log<'_>,
    mut reader: LogReader<R>,
    sources: &mut SourceStates,
    progress: &mut Progress<'_>,
    sink: &mut S,
) -> (LogEnd, LogReader<R>) {
    let mut part = Part::first(log);
    for _ in 0..u64::MAX {
        let next = sink.take_part(
            alloc,
            options,
            part,
            &mut reader,
            &mut *sources,
            &mut *progress,
        );
        let unreadable = match next {
            Next::GoesOn(unreadable) => unreadable,
            Next::Ended(end) => return (end, reader),
        };
        let Explanation { meaning, .. } = explanation_of(
            unreadable.stop,
            sources.fault(),
            reader.first(),
        );
        let (next, same) = pass(alloc, part, unreadable, reader);
        reader = same;
        let gap = match next {
            Next::GoesOn(gap) => gap,
            Next::Ended(end) => return (end, reader),
        };
        part = match part_behind(alloc, options, part, gap, meaning, &mut *sink) {
            Next::GoesOn(behind) => behind,
            Next::Ended(end) => return (end, reader),
        };
    }
    (LogEnd::Unread(Verdict::Memory), reader)
}
