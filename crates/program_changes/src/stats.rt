//! The command `stats`: what changes logs have.

use crate::parts::{FoundGap, Next, Part, PartSink, Unreadable, next_of, read_parts};
use changes_commands::{Failure, Log, LogReader, Options, Progress, Text};
use changes_stats::{StatsRecorder, Totals, put_drawing, put_json, put_words};
use changes_walks::{LogEnd, SourceStates, TransactionSink, filter_of, selection_of, walk_log};
use crc32::crc32;
use feed_change_log::Filter;
use std::alloc::{AllocError, Global};
use std::io::Read;

/// Counts the selected transactions of a log.
#[derive(Drop)]
struct StatsSink<'s> {
    /// The name of the log.
    file: &'s [u8],
    totals: &'s mut Totals,
}

impl<'f> TransactionSink<StatsRecorder<'f>> for StatsSink<'_> {
    ghost use Rattle.std.specs.Prelude.{◌≡◌, ◌++◌, ◌∷◌, List, [], IfErr, OnOk};
    ghost use Rattle.feed_transactions.specs.Changes.{Committed};
    ghost use Rattle.feed_change_log.specs.Filters.{table_filter_of};
    ghost use Rattle.changes_commands.specs.declared.output.Failure.TheVariants.{Memory};
    ghost use Rattle.changes_stats.specs.RecordedCounts.{IsDoneCounts, filter_of};
    ghost use Rattle.changes_walks.specs.Selections.{Selected, selected};
    ghost use Rattle.program_changes.specs.CountSinks.{CountsAll};
    ghost use Rattle.program_changes.specs.declared.stats.StatsSink.{StatsSink};

    ghost Expects = { λ first f newest. filter_of newest ≡ table_filter_of f };

    ghost HasAll = { CountsAll };

    ghost HasFailed = { λ first s m e. e ≡ Memory };

    fn log_pos(newest: &StatsRecorder<'f>) -> u32
        ensures { (t : Committed) → IsDoneCounts newest.now t → result ≡ t.commit.log_pos }
    {
        newest.commit_header().log_pos()
    }

    fn take(
        &mut self,
        filter: Filter<'_>,
        newest: &StatsRecorder<'f>,
        _is_clear: bool,
    ) -> Result<(), Failure>
        ensures ok { OnOk result ((first : StatsSink) (m : List Selected) (t : Committed) → filter_of newest.now ≡ table_filter_of filter.entry → IsDoneCounts newest.now t → CountsAll first self.old m → CountsAll first self.new (m ++ selected filter.entry (t ∷ []))) }
        ensures err { IfErr result (λ e. (first : StatsSink) (m : List Selected) (t : Committed) → filter_of newest.now ≡ table_filter_of filter.entry → IsDoneCounts newest.now t → CountsAll first self.old m → e ≡ Memory) }
    {
        if !filter.takes_header(newest.commit_header()) {
            return Ok(());
        }
        let Ok(()) = self.totals.add(self.file, newest) else {
            return Err(Failure::Memory);
        };
        Ok(())
    }
}

impl PartSink for StatsSink<'_> {
    fn take_part<R: Read + Drop>(
        &mut self,
        alloc: Global,
        options: &Options<'_>,
        part: Part<'_>,
        reader: &mut LogReader<R>,
        sources: &mut SourceStates,
        progress: &mut Progress<'_>,
    ) -> Next<Unreadable> {
        let ended = walk_log(
            alloc,
            &mut *reader,
            &mut *sources,
            crc32,
            StatsRecorder::new(alloc, filter_of(options).table_filter()),
            selection_of(options, part.log),
            &mut *progress,
            &mut *self,
        );
        next_of(alloc, options, part, ended)
    }

    fn take_gap(&mut self, _alloc: Global, _gap: FoundGap<'_>) -> Result<(), Failure> {
        Ok(())
    }
}

/// Counts the changes of a log. Returns the reader too.
pub(crate) fn count_log<R: Read + Drop>(
    rt: &HostRuntime,
    options: &Options<'_>,
    log: Log<'_>,
    reader: LogReader<R>,
    sources: &mut SourceStates,
    totals: &mut Totals,
) -> (LogEnd, LogReader<R>) {
    let mut progress = Progress::new(rt, log.path);
    let mut sink = StatsSink {
        file: log.name().as_bytes(),
        totals,
    };
    let (end, reader) = read_parts(
        rt.alloc(),
        options,
        log,
        reader,
        &mut *sources,
        &mut progress,
        &mut sink,
    );
    progress.end();
    (end, reader)
}

/// Appends what was counted, as the options say.
pub(crate) fn put_totals(
    options: &Options<'_>,
    totals: &Totals,
    text: &mut Text,
) -> Result<(), AllocError> {
    if options.is_json {
        put_json(totals, text)?;
    } else {
        put_words(totals, text)?;
    }
    text.ended()
}

/// A drawing of what was counted.
pub(crate) fn drawing_of(alloc: Global, totals: &Totals) -> Result<Text, AllocError> {
    let mut text = Text::new(alloc);
    put_drawing(totals, &mut text)?;
    text.ended()?;
    Ok(text)
}
