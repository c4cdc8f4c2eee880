//! The commands `sql` and `undo`: the changes of logs as statements, or what takes them back.

use crate::parts::{FoundGap, Next, Part, PartSink, Unreadable, next_of, read_parts};
use changes_commands::{Failure, Log, LogReader, Options, Output, Progress, Task};
use changes_origins::put_gtid;
use changes_statements::{
    Direction, NewestFirst, NoStatement, RowCounts, RowsTaken, SESSION, Scratch, SqlTables,
    TextList, add_rows, keep_transaction, put_instant, put_name, write_transaction, write_undo,
};
use changes_walks::{LogEnd, SourceStates, TransactionSink, selection_of, walk_log};
use crc32::crc32;
use events_frames::QueryTexts;
use feed_change_log::{Change, ChangeRecorder, CommittedTransaction, Filter, TableRows, What};
use feed_checks::Verdict;
use feed_text::TextBuffer;
use feed_transactions::WaitingBytes;
use std::alloc::{AllocError, Global};
use std::collections::BTreeMap;
use std::io::{Read, Write};
use wire_buf::Watched;

/// A change that has no statement, and why.
#[derive(Drop)]
pub(crate) struct RefusedChange {
    pub(crate) why: NoStatement,
    /// The position after its event.
    pub(crate) position: u32,
    /// Its table, in backticks, or the database of a statement.
    pub(crate) name: Vec<u8>,
}

/// What the runs of the commands on their logs have in common.
#[derive(Drop)]
pub(crate) struct SqlState {
    tables: SqlTables,
    scratch: Scratch,
    /// The statements of the newest transaction, and the comment before them.
    texts: TextList,
    heading: TextBuffer<Global>,
    /// Those that take all transactions back.
    back: NewestFirst,
    /// How many rows of each table are taken.
    pub(crate) counts: BTreeMap<Vec<u8>, RowCounts>,
    pub(crate) transactions: u64,
    pub(crate) refused: Option<RefusedChange>,
    /// Whether the session is set.
    has_session: bool,
}

impl SqlState {
    /// That before the first log.
    pub(crate) fn new(alloc: Global) -> SqlState {
        SqlState {
            tables: SqlTables::new(alloc),
            scratch: Scratch::new(alloc),
            texts: TextList::new(alloc),
            heading: TextBuffer::new(alloc),
            back: NewestFirst::new(alloc),
            counts: BTreeMap::new(alloc),
            transactions: 0,
            refused: None,
            has_session: false,
        }
    }

    /// Adds the rows of an event, as they are taken.
    fn add_table_rows(
        &mut self,
        alloc: Global,
        rows: TableRows<'_>,
        taken: RowsTaken<'_>,
    ) -> Result<(), NoStatement> {
        let must_be_same = matches!(taken.direction, Direction::Back);
        let table = self.tables.table_of(rows, must_be_same)?;
        let counts = add_rows(
            alloc,
            table,
            rows,
            taken,
            &mut self.scratch,
            &mut self.texts,
        )?;
        if counts.all() == 0 {
            return Ok(());
        }
        if let Some(before) = self.counts.get_mut(&table.name) {
            before.add(counts);
            return Ok(());
        }
        let name = Vec::from_slice(alloc, &table.name)?;
        self.counts.insert(name, counts)?;
        Ok(())
    }
}

/// Gets the statements of the selected transactions of a log.
#[derive(Drop)]
struct SqlSink<'s, W: Write> {
    alloc: Global,
    /// The name of the log.
    file: &'s [u8],
    taken: RowsTaken<'s>,
    has_statements: bool,
    state: &'s mut SqlState,
    waiting: &'s mut WaitingBytes,
    writer: &'s mut Watched<W>,
}

/// The failure for a change without a statement.
pub(crate) fn failure_of(why: NoStatement) -> Failure {
    match why {
        NoStatement::Memory => Failure::Memory,
        _ => Failure::Unwritten,
    }
}

/// The table of rows, in backticks.
pub(crate) fn table_name(alloc: Global, rows: TableRows<'_>) -> Result<Vec<u8>, NoStatement> {
    let mut text = TextBuffer::new(alloc);
    put_name(rows.database(), &mut text)?;
    text.put(b'.')?;
    put_name(rows.table(), &mut text)?;
    Ok(Vec::from_slice(alloc, text.as_slice())?)
}

/// Appends a statement of the log, with its database and its time.
fn put_logged(
    texts: QueryTexts<'_>,
    seconds: u32,
    out: &mut TextBuffer<Global>,
) -> Result<(), NoStatement> {
    if !texts.schema.is_empty() {
        out.put_text(b"USE ")?;
        put_name(texts.schema, out)?;
        out.put_text(b";\n")?;
    }
    out.put_text(b"SET TIMESTAMP=")?;
    out.put_number(u64::from(seconds))?;
    out.put_text(b";\nDELIMITER /*!*/;\n")?;
    out.put_text(texts.query)?;
    out.put_text(b"\n/*!*/;\nDELIMITER ;\nSET TIMESTAMP=DEFAULT;\n")?;
    Ok(())
}

/// Appends what is known of a transaction, as a comment.
fn put_heading(
    file: &[u8],
    transaction: CommittedTransaction<'_>,
    out: &mut TextBuffer<Global>,
) -> Result<(), AllocError> {
    out.put_text(b"-- ")?;
    out.put_text(file)?;
    out.put_text(b", end position ")?;
    out.put_number(u64::from(transaction.log_pos()))?;
    out.put_text(b", ")?;
    put_instant(transaction.header().timestamp(), 0, out)?;
    if transaction.gtid().is_some() {
        out.put_text(b", GTID ")?;
        put_gtid(transaction.gtid(), out)?;
    }
    out.put(b'\n')?;
    Ok(())
}

impl<W: Write> SqlSink<'_, W> {
    /// Whether the changes are taken back.
    fn is_back(&self) -> bool {
        matches!(self.taken.direction, Direction::Back)
    }

    /// Adds a statement of the log.
    fn add_logged(&mut self, texts: QueryTexts<'_>, seconds: u32) -> Result<(), NoStatement> {
        if self.is_back() && !self.taken.is_dry {
            return Err(NoStatement::Statement);
        }
        if !self.has_statements || self.taken.is_dry {
            return Ok(());
        }
        put_logged(texts, seconds, &mut self.state.texts.buffer)?;
        self.state.texts.close()?;
        Ok(())
    }

    /// Adds a change.
    fn add_change(&mut self, change: &Change<'_>) -> Result<(), NoStatement> {
        match change.what {
            What::Rows(rows) => self.state.add_table_rows(self.alloc, rows, self.taken),
            What::Statement(texts) => self.add_logged(texts, change.header.timestamp()),
        }
    }

    /// Adds a comment in place of a change.
    fn leave_out(&mut self, change: &Change<'_>, why: NoStatement) -> Result<(), NoStatement> {
        self.state.texts.drop_open();
        let out = &mut self.state.texts.buffer;
        out.put_text(b"-- left out, before position ")?;
        out.put_number(u64::from(change.header.log_pos()))?;
        out.put_text(match why {
            NoStatement::Statement => b": a statement\n".as_slice(),
            NoStatement::Names => b": rows of a table whose columns the log doesn't name\n",
            NoStatement::OtherColumns => b": rows of a table whose columns changed in between\n",
            _ => b": rows that the log doesn't have in full\n",
        })?;
        self.state.texts.close()?;
        Ok(())
    }

    /// Remembers a change without a statement.
    fn refuse(&mut self, change: &Change<'_>, why: NoStatement) -> Result<(), NoStatement> {
        let name = match change.what {
            What::Rows(rows) => table_name(self.alloc, rows)?,
            What::Statement(texts) => Vec::from_slice(self.alloc, texts.schema)?,
        };
        self.state.refused = Some(RefusedChange {
            why,
            position: change.header.log_pos(),
            name,
        });
        Ok(())
    }

    /// Adds a change, or what is in its place.
    fn take_change(&mut self, change: &Change<'_>) -> Result<(), Failure> {
        let why = match self.add_change(change) {
            Ok(()) => return Ok(()),
            Err(why) => why,
        };
        let done = match why {
            NoStatement::Memory => return Err(Failure::Memory),
            _ if self.taken.leaves_out => self.leave_out(change, why),
            _ => match self.refuse(change, why) {
                Ok(()) => Err(why),
                Err(why) => Err(why),
            },
        };
        match done {
            Ok(()) => Ok(()),
            Err(why) => Err(failure_of(why)),
        }
    }

    /// Writes what comes before all statements, once.
    fn write_session(&mut self) -> Result<(), Verdict> {
        if self.state.has_session {
            return Ok(());
        }
        self.state.has_session = true;
        self.waiting.put(SESSION, self.writer)
    }

    /// Writes the statements of a transaction.
    fn write(&mut self, has_rows: bool) -> Result<(), Verdict> {
        self.write_session()?;
        let state = &*self.state;
        write_transaction(
            state.heading.as_slice(),
            has_rows,
            &state.texts,
            self.waiting,
            self.writer,
        )
    }

    /// Ends a transaction with statements: those that take it back are kept, others are written.
    fn end(
        &mut self,
        transaction: CommittedTransaction<'_>,
        has_rows: bool,
    ) -> Result<(), Failure> {
        self.state.heading.clear();
        let heading = put_heading(self.file, transaction, &mut self.state.heading);
        if heading.is_err() {
            return Err(Failure::Memory);
        }
        if !self.is_back() {
            return match self.write(has_rows) {
                Ok(()) => Ok(()),
                Err(_) => Err(Failure::Unwritten),
            };
        }
        let state = &mut *self.state;
        match keep_transaction(state.heading.as_slice(), &state.texts, &mut state.back) {
            Ok(()) => Ok(()),
            Err(_) => Err(Failure::Memory),
        }
    }

    /// Takes a transaction.
    fn take_transaction(
        &mut self,
        filter: Filter<'_>,
        transaction: CommittedTransaction<'_>,
    ) -> Result<(), Failure> {
        self.state.texts.clear();
        let mut has_rows = false;
        let mut has_change = false;
        for change in transaction.changes().taken_by(filter) {
            self.take_change(&change)?;
            has_rows |= matches!(change.what, What::Rows(_));
            has_change = true;
        }
        if has_change {
            self.state.transactions = self.state.transactions.saturating_add(1);
        }
        if self.state.texts.is_empty() {
            return Ok(());
        }
        self.end(transaction, has_rows)
    }
}

impl<W: Write> TransactionSink<ChangeRecorder> for SqlSink<'_, W> {
    ghost use Rattle.std.specs.Prelude.{⊤};

    ghost Expects = { λ first f newest. ⊤ };

    ghost HasAll = { λ first s m. ⊤ };

    ghost HasFailed = { λ first s m e. ⊤ };

    fn log_pos(newest: &ChangeRecorder) -> u32 {
        CommittedTransaction::of(newest).log_pos()
    }

    fn take(
        &mut self,
        filter: Filter<'_>,
        newest: &ChangeRecorder,
        _is_clear: bool,
    ) -> Result<(), Failure> {
        let transaction = CommittedTransaction::of(newest);
        if !filter.takes_transaction(transaction) {
            return Ok(());
        }
        self.take_transaction(filter, transaction)
    }
}

impl<W: Write> PartSink for SqlSink<'_, W> {
    fn take_part<R: Read + Drop>(
        &mut self,
        alloc: Global,
        options: &Options<'_>,
        part: Part<'_>,
        reader: &mut LogReader<R>,
        sources: &mut SourceStates,
        progress: &mut Progress<'_>,
    ) -> Next<Unreadable> {
        let ended = walk_log(
            alloc,
            &mut *reader,
            &mut *sources,
            crc32,
            ChangeRecorder::new(alloc),
            selection_of(options, part.log),
            &mut *progress,
            &mut *self,
        );
        next_of(alloc, options, part, ended)
    }

    fn take_gap(&mut self, _alloc: Global, _gap: FoundGap<'_>) -> Result<(), Failure> {
        Ok(())
    }
}

/// Which rows the options take.
fn taken_of<'o>(options: &'o Options<'_>) -> RowsTaken<'o> {
    RowsTaken {
        direction: match options.task {
            Task::Undo => Direction::Back,
            _ => Direction::Forward,
        },
        conditions: &options.sql.conditions,
        is_dry: options.sql.is_dry,
        leaves_out: options.sql.leaves_out,
    }
}

/// How a run ended whose output may have been closed.
pub(crate) fn end_of(end: LogEnd, is_closed: bool) -> LogEnd {
    match end {
        LogEnd::Failed(Failure::Unwritten) if is_closed => LogEnd::Failed(Failure::Closed),
        _ => end,
    }
}

/// Passes a log to a sink of statements, as [`read_parts`] does.
fn sql_parts<R: Read + Drop, W: Write>(
    alloc: Global,
    options: &Options<'_>,
    log: Log<'_>,
    reader: LogReader<R>,
    sources: &mut SourceStates,
    progress: &mut Progress<'_>,
    sink: &mut SqlSink<'_, W>,
) -> (LogEnd, LogReader<R>) {
    read_parts(
        alloc,
        options,
        log,
        reader,
        &mut *sources,
        &mut *progress,
        &mut *sink,
    )
}

/// Prints the statements of a log, or keeps those that take its changes back. Returns the reader too.
pub(crate) fn show_sql<R: Read + Drop>(
    rt: &HostRuntime,
    options: &Options<'_>,
    log: Log<'_>,
    reader: LogReader<R>,
    sources: &mut SourceStates,
    state: &mut SqlState,
) -> (LogEnd, LogReader<R>) {
    let alloc = rt.alloc();
    let Ok(mut waiting) = WaitingBytes::new(alloc) else {
        return (LogEnd::Failed(Failure::Memory), reader);
    };
    let mut writer = Watched::new(Output::new(rt));
    let mut progress = Progress::new(rt, log.path);
    let mut sink = SqlSink {
        alloc,
        file: log.name().as_bytes(),
        taken: taken_of(options),
        has_statements: options.sql.has_statements,
        state: &mut *state,
        waiting: &mut waiting,
        writer: &mut writer,
    };
    let (end, reader) = sql_parts(
        alloc,
        options,
        log,
        reader,
        &mut *sources,
        &mut progress,
        &mut sink,
    );
    progress.end();
    let written = waiting.write_all(&mut writer);
    let end = match (end, written) {
        (LogEnd::Failed(_), _) | (_, Ok(())) => end,
        (_, Err(_)) => LogEnd::Failed(Failure::Unwritten),
    };
    let is_closed = writer.into_inner().is_closed();
    (end_of(end, is_closed), reader)
}

/// Prints the statements that take the changes of all logs back.
pub(crate) fn show_undo(rt: &HostRuntime, state: &mut SqlState) -> Result<(), Failure> {
    let Ok(mut waiting) = WaitingBytes::new(rt.alloc()) else {
        return Err(Failure::Memory);
    };
    let mut writer = Watched::new(Output::new(rt));
    match write_undo(&mut state.back, &mut waiting, &mut writer) {
        Ok(()) => Ok(()),
        Err(_) if writer.into_inner().is_closed() => Err(Failure::Closed),
        Err(_) => Err(Failure::Unwritten),
    }
}

/// Prints how many rows of each table are taken.
pub(crate) fn put_counts(state: &SqlState, text: &mut changes_commands::Text) {
    for (name, counts) in &state.counts {
        text.put(name);
        text.words(": inserted ");
        text.unsigned(counts.inserted);
        text.words(", deleted ");
        text.unsigned(counts.deleted);
        text.words(", updated ");
        text.unsigned(counts.updated);
        text.push(b'\n');
    }
    text.words("transactions: ");
    text.unsigned(state.transactions);
    text.push(b'\n');
}
