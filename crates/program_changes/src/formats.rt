//! The changes of logs in the formats of other programs: `json --format`.

use crate::changes::table_options;
use crate::parts::{FoundGap, Next, Part, PartSink, Unreadable, next_of, read_parts};
use crate::sql::{RefusedChange, end_of, failure_of, table_name};
use changes_commands::{Failure, Format, Log, LogReader, Options, Output, Progress};
use changes_formats::{FormatLines, FormatRecorder, LineSource};
use changes_statements::NoStatement;
use changes_walks::{LogEnd, SourceStates, TransactionSink, selection_of, walk_log};
use crc32::crc32;
use events_frames::BinlogEventHeader;
use feed_change_log::{Filter, TableRows, What};
use feed_transactions::WaitingBytes;
use std::alloc::Global;
use std::io::{Read, Write};
use wire_buf::Watched;

/// What the runs of the command on its logs have in common.
#[derive(Drop)]
pub(crate) struct FormatState {
    lines: FormatLines,
    pub(crate) refused: Option<RefusedChange>,
}

impl FormatState {
    /// That before the first log.
    pub(crate) fn new(alloc: Global, options: &Options<'_>) -> FormatState {
        let format = options.format.unwrap_or(Format::Maxwell);
        FormatState {
            lines: FormatLines::new(alloc, format, table_options(options)),
            refused: None,
        }
    }
}

/// Gets the lines of the selected transactions of a log.
#[derive(Drop)]
struct FormatSink<'s, W: Write> {
    alloc: Global,
    /// The name of the log.
    file: &'s [u8],
    state: &'s mut FormatState,
    waiting: &'s mut WaitingBytes,
    writer: &'s mut Watched<W>,
}

impl FormatState {
    /// Remembers rows without lines.
    fn refuse(
        &mut self,
        alloc: Global,
        header: BinlogEventHeader,
        rows: TableRows<'_>,
        why: NoStatement,
    ) -> Result<(), NoStatement> {
        if let NoStatement::Memory = why {
            return Err(why);
        }
        let name = table_name(alloc, rows)?;
        self.refused = Some(RefusedChange {
            why,
            position: header.log_pos(),
            name,
        });
        Err(why)
    }

    /// Makes the lines of a transaction of the log with this name.
    fn make(
        &mut self,
        alloc: Global,
        file: &[u8],
        filter: Filter<'_>,
        newest: &FormatRecorder,
    ) -> Result<(), NoStatement> {
        let source = LineSource {
            file,
            recorder: newest,
        };
        self.lines.begin();
        for change in newest.transaction().changes().taken_by(filter) {
            if let What::Rows(rows) = change.what
                && let Err(why) = self.lines.add_rows(source, change.header, rows)
            {
                return self.refuse(alloc, change.header, rows, why);
            }
        }
        Ok(self.lines.end()?)
    }

    /// Writes the lines of a transaction of the log with this name, if the filter takes it. `Memory`: out of memory. `Unwritten`: the writer
    /// failed, or a row has no line, which is remembered; nothing of the transaction is written then.
    pub(crate) fn write<W: Write>(
        &mut self,
        alloc: Global,
        file: &[u8],
        filter: Filter<'_>,
        newest: &FormatRecorder,
        waiting: &mut WaitingBytes,
        writer: &mut Watched<W>,
    ) -> Result<(), Failure> {
        if !filter.takes_transaction(newest.transaction()) {
            return Ok(());
        }
        if let Err(why) = self.make(alloc, file, filter, newest) {
            return Err(failure_of(why));
        }
        match waiting.put(self.lines.text(), writer) {
            Ok(()) => Ok(()),
            Err(_) => Err(Failure::Unwritten),
        }
    }
}

impl<W: Write> TransactionSink<FormatRecorder> for FormatSink<'_, W> {
    ghost use Rattle.std.specs.Prelude.{⊤};

    ghost Expects = { λ first f newest. ⊤ };

    ghost HasAll = { λ first s m. ⊤ };

    ghost HasFailed = { λ first s m e. ⊤ };

    fn log_pos(newest: &FormatRecorder) -> u32 {
        newest.transaction().log_pos()
    }

    fn take(
        &mut self,
        filter: Filter<'_>,
        newest: &FormatRecorder,
        _is_clear: bool,
    ) -> Result<(), Failure> {
        self.state.write(
            self.alloc,
            self.file,
            filter,
            newest,
            &mut *self.waiting,
            &mut *self.writer,
        )
    }
}

impl<W: Write> PartSink for FormatSink<'_, W> {
    fn take_part<R: Read + Drop>(
        &mut self,
        alloc: Global,
        options: &Options<'_>,
        part: Part<'_>,
        reader: &mut LogReader<R>,
        sources: &mut SourceStates,
        progress: &mut Progress<'_>,
    ) -> Next<Unreadable> {
        let ended = walk_log(
            alloc,
            &mut *reader,
            &mut *sources,
            crc32,
            FormatRecorder::new(alloc),
            selection_of(options, part.log),
            &mut *progress,
            &mut *self,
        );
        next_of(alloc, options, part, ended)
    }

    fn take_gap(&mut self, _alloc: Global, _gap: FoundGap<'_>) -> Result<(), Failure> {
        Ok(())
    }
}

/// Passes a log to a sink of lines, as [`read_parts`] does.
fn format_parts<R: Read + Drop, W: Write>(
    alloc: Global,
    options: &Options<'_>,
    log: Log<'_>,
    reader: LogReader<R>,
    sources: &mut SourceStates,
    progress: &mut Progress<'_>,
    sink: &mut FormatSink<'_, W>,
) -> (LogEnd, LogReader<R>) {
    read_parts(
        alloc,
        options,
        log,
        reader,
        &mut *sources,
        &mut *progress,
        &mut *sink,
    )
}

/// Prints the lines of a log. Returns the reader too.
pub(crate) fn show_format<R: Read + Drop>(
    rt: &HostRuntime,
    options: &Options<'_>,
    log: Log<'_>,
    reader: LogReader<R>,
    sources: &mut SourceStates,
    state: &mut FormatState,
) -> (LogEnd, LogReader<R>) {
    let alloc = rt.alloc();
    let Ok(mut waiting) = WaitingBytes::new(alloc) else {
        return (LogEnd::Failed(Failure::Memory), reader);
    };
    let mut writer = Watched::new(Output::new(rt));
    let mut progress = Progress::new(rt, log.path);
    let mut sink = FormatSink {
        alloc,
        file: log.name().as_bytes(),
        state: &mut *state,
        waiting: &mut waiting,
        writer: &mut writer,
    };
    let (end, reader) = format_parts(
        alloc,
        options,
        log,
        reader,
        &mut *sources,
        &mut progress,
        &mut sink,
    );
    progress.end();
    let written = waiting.write_all(&mut writer);
    let end = match (end, written) {
        (LogEnd::Failed(_), _) | (_, Ok(())) => end,
        (_, Err(_)) => LogEnd::Failed(Failure::Unwritten),
    };
    let is_closed = writer.into_inner().is_closed();
    (end_of(end, is_closed), reader)
}
