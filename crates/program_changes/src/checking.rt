//! The command `check`: whether logs are whole.

use crate::parts::{FoundGap, Next, Part, PartSink, Unreadable, next_of, read_parts};
use changes_commands::{Failure, Log, LogReader, Options, Progress, Text};
use changes_walks::{
    Checked, EachChange, LogEnd, SourceStates, TransactionCounter, checked, count, put_gap,
    put_gap_words,
};
use crc32::crc32;
use std::alloc::Global;
use std::io::Read;
use std::mem;

/// Counts the selected transactions of a log, and its gaps.
#[derive(Drop)]
struct CheckSink<'s> {
    counter: TransactionCounter,
    gaps: u64,
    /// Whether a gap is a JSON object.
    is_json: bool,
    /// The lines of the gaps.
    lines: &'s mut Text,
}

impl PartSink for CheckSink<'_> {
    fn take_part<R: Read + Drop>(
        &mut self,
        alloc: Global,
        options: &Options<'_>,
        part: Part<'_>,
        reader: &mut LogReader<R>,
        sources: &mut SourceStates,
        progress: &mut Progress<'_>,
    ) -> Next<Unreadable> {
        let mut counter = mem::replace(&mut self.counter, TransactionCounter::new());
        let mut sink = EachChange(&mut counter);
        let ended = count(
            alloc,
            options,
            part.log,
            &mut *reader,
            &mut *sources,
            crc32,
            &mut *progress,
            &mut sink,
        );
        let next = next_of(alloc, options, part, ended);
        drop(sink);
        self.counter = counter;
        next
    }

    fn take_gap(&mut self, _alloc: Global, gap: FoundGap<'_>) -> Result<(), Failure> {
        self.gaps = self.gaps.saturating_add(1);
        let path = gap.log.path;
        if self.is_json {
            put_gap(path.as_bytes(), gap.from, gap.to, gap.reason, self.lines);
        } else {
            put_gap_words(path, gap.from, gap.to, gap.reason, self.lines);
        }
        Ok(())
    }
}

/// Checks a log. Appends a line for each of its gaps, if transactions that can't be read are left out. Returns what is found, or how the
/// run ended, and the reader too.
pub(crate) fn check<'l, R: Read + Drop>(
    rt: &HostRuntime,
    options: &Options<'_>,
    log: Log<'l>,
    reader: LogReader<R>,
    sources: &mut SourceStates,
    lines: &mut Text,
) -> (Result<Checked<'l>, LogEnd>, LogReader<R>) {
    let mut sink = CheckSink {
        counter: TransactionCounter::new(),
        gaps: 0,
        is_json: options.is_json,
        lines,
    };
    let mut progress = Progress::new(rt, log.path);
    let (end, reader) = read_parts(
        rt.alloc(),
        options,
        log,
        reader,
        &mut *sources,
        &mut progress,
        &mut sink,
    );
    progress.end();
    let gaps = options.skips_unreadable.then_some(sink.gaps);
    let found = checked(
        options,
        log,
        end,
        &sink.counter,
        gaps,
        sources.fault(),
        reader.first(),
    );
    (found, reader)
}
