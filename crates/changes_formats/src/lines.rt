//! The lines of transactions.

ghost use Rattle.std.specs.Prelude.{◌≡◌, ◌<◌, ◌+◌, ◌++◌, [], IfErr, OnOk, false, true};
ghost use Rattle.rows_table_map.specs.TableMaps.{TableMap};
ghost use Rattle.rows_event_body.specs.RowsEvents.{RowsBody};
ghost use Rattle.feed_text.specs.Buffers.{text_in};
ghost use Rattle.feed_change_log.specs.ChangeViews.{RepresentsRows};
ghost use Rattle.changes_statements.specs.NoStatements.{IsMemoryOr};
ghost use Rattle.changes_formats.specs.FormatLineTexts.{AddsLines, GoesOn, format_of, line_end, lines_of, row_number, rows_in};
ghost use Rattle.changes_formats.specs.RefusedCells.{IsRefusal, IsUnprinted};

use crate::origins::{LineOrigin, LineRow};
use crate::recorder::FormatRecorder;
use crate::tables::{FormatTable, FormatTables};
use crate::values::Buffers;
use crate::{canal, debezium, maxwell};
use changes_commands::Format;
use changes_statements::{NoStatement, RowCells, change_of, read_row};
use changes_tables::TableOptions;
use events_frames::BinlogEventHeader;
use feed_change_log::TableRows;
use feed_text::TextBuffer;
use std::alloc::{AllocError, Global};

/// Where lines come from: the name of a log, and a transaction of it.
#[derive(Clone, Copy)]
pub struct LineSource<'t> {
    pub file: &'t [u8],
    pub recorder: &'t FormatRecorder,
}

/// The lines of a transaction in a format.
#[derive(Drop)]
struct LineText {
    format: Format,
    /// The lines of the rows so far. Maxwell's last lacks its end.
    text: TextBuffer<Global>,
    /// The line of a row on the way.
    line: TextBuffer<Global>,
    /// How many rows have a line.
    rows: u64,
}

/// The lines of the newest transaction in a format, and the tables so far.
///
/// [`FormatLines::begin`] begins a transaction, [`FormatLines::add_rows`] adds the rows of its events, and [`FormatLines::end`] ends it.
#[derive(Drop)]
pub struct FormatLines {
    alloc: Global,
    tables: FormatTables,
    buffers: Buffers,
    lines: LineText,
    /// The number of the transaction, from 1; 0 before the first.
    transaction: u64,
}

impl<'t> LineSource<'t> {
    /// Where the rows of an event with this header come from, in the transaction with this number.
    fn origin_of(self, header: BinlogEventHeader, transaction: u64) -> LineOrigin<'t>
        ensures xid { result.xid ≡ self.entry.recorder.now.xid }
        ensures thread { result.thread_id ≡ self.entry.recorder.now.thread_id }
        ensures header { result.header ≡ header }
        ensures transaction { result.transaction ≡ transaction }
    {
        LineOrigin {
            file: self.file,
            gtid: self.recorder.transaction().gtid(),
            xid: self.recorder.xid(),
            thread_id: self.recorder.thread_id(),
            header,
            transaction,
        }
    }
}

impl LineText {
    /// Ends the line of the row before, if there is one: only then it shows whether that is the last. `AllocError`: out of memory.
    fn end_line(&mut self, is_last: bool) -> Result<(), AllocError>
        ensures text { OnOk result (text_in self.new.text ≡ text_in self.old.text ++ line_end self.old.format is_last self.old.rows) }
        ensures rows { self.new.rows ≡ self.old.rows }
        ensures format { self.new.format ≡ self.old.format }
    {
        if self.rows == 0 {
            return Ok(());
        }
        match self.format {
            Format::Maxwell => maxwell::put_end(is_last, self.rows - 1, &mut self.text),
            Format::Debezium | Format::Canal => Ok(()),
        }
    }

    /// Makes the line of a row, in place of the line before. Maxwell's lacks its end. The errors are those of `put_value`.
    fn make_line(
        &mut self,
        origin: LineOrigin<'_>,
        row: LineRow<'_, '_, '_>,
        buffers: &mut Buffers,
    ) -> Result<(), NoStatement>
        ensures err { IfErr result (IsMemoryOr IsUnprinted) }
        ensures text { self.new.text ≡ self.old.text }
        ensures rows { self.new.rows ≡ self.old.rows }
        ensures format { self.new.format ≡ self.old.format }
    {
        self.line.clear();
        match self.format {
            Format::Maxwell => maxwell::put_row(origin, row, buffers, &mut self.line),
            Format::Debezium => debezium::put_row(origin, row, buffers, &mut self.line),
            Format::Canal => canal::put_row(origin, row, buffers, &mut self.line),
        }
    }

    /// Adds the line of a row, after the end of the line before. The errors are those of `put_value`.
    fn add(
        &mut self,
        origin: LineOrigin<'_>,
        row: LineRow<'_, '_, '_>,
        buffers: &mut Buffers,
    ) -> Result<(), NoStatement>
        ensures ok { OnOk result (AddsLines 1 self.old self.new) }
        ensures err { IfErr result (IsMemoryOr IsUnprinted) }
    {
        self.end_line(false)?;
        self.make_line(origin, row, buffers)?;
        self.text.put_text(self.line.as_slice())?;
        let Some(rows) = self.rows.checked_add(1) else {
            return Err(NoStatement::Memory);
        };
        self.rows = rows;
        Ok(())
    }

    /// Adds the lines of the rows of an event. The errors are those of `put_value`, and `Row`.
    fn add_rows(
        &mut self,
        alloc: Global,
        origin: LineOrigin<'_>,
        table: &FormatTable,
        rows: TableRows<'_>,
        buffers: &mut Buffers,
    ) -> Result<(), NoStatement>
        ensures text { OnOk result (GoesOn (text_in self.old.text) (text_in self.new.text)) }
        ensures rows { OnOk result ((m : TableMap) (r : RowsBody) → RepresentsRows rows.entry m r → self.new.rows ≡ self.old.rows + rows_in m r) }
        ensures format { OnOk result (self.new.format ≡ self.old.format) }
        ensures err { IfErr result (IsMemoryOr IsUnprinted) }
    {
        let mut first = RowCells::new(alloc, table.columns.len())?;
        let mut second = RowCells::new(alloc, table.columns.len())?;
        let mut cursor = rows.cursor();
        for number in 0..u64::MAX {
            if !read_row(&mut cursor, &mut first, &mut second)? {
                return Ok(());
            }
            let row = LineRow {
                table,
                change: change_of(rows.images(), &first, &second),
                number,
            };
            self.add(origin, row, buffers)?;
        }
        Err(NoStatement::Row)
    }
}

impl FormatLines {
    /// No lines. What table maps don't say of text is as the options have it.
    pub fn new(alloc: Global, format: Format, options: TableOptions) -> FormatLines
        ensures lines { lines_of result ≡ [] }
        ensures rows { row_number result ≡ 0 }
        ensures format { format_of result ≡ format }
        ensures transaction { result.transaction ≡ 0 }
    {
        FormatLines {
            alloc,
            tables: FormatTables::new(alloc, options),
            buffers: Buffers::new(alloc),
            lines: LineText {
                format,
                text: TextBuffer::new(alloc),
                line: TextBuffer::new(alloc),
                rows: 0,
            },
            transaction: 0,
        }
    }

    /// Begins a transaction, without lines.
    pub fn begin(&mut self)
        ensures lines { lines_of self.new ≡ [] }
        ensures rows { row_number self.new ≡ 0 }
        ensures format { format_of self.new ≡ format_of self.old }
        ensures transaction { self.old.transaction < 18446744073709551615 → self.new.transaction ≡ self.old.transaction + 1 }
    {
        self.lines.text.clear();
        self.lines.rows = 0;
        self.transaction = self.transaction.saturating_add(1);
    }

    /// The lines of the transaction, each with a line feed at its end.
    pub fn text(&self) -> &[u8]
        ensures { result.now ≡ lines_of self.now }
    {
        self.lines.text.as_slice()
    }

    /// Adds the lines of the rows of an event with this header. After an error the text may have a part of a line, and isn't to be
    /// used.
    ///
    /// - `Names`: the log doesn't name the columns of the table.
    /// - `PartialUpdate`: a JSON document was updated in part.
    /// - `Float`: a float isn't finite.
    /// - `Row`: a row, a decimal or a JSON document can't be read.
    /// - `Memory`: out of memory.
    pub fn add_rows(
        &mut self,
        source: LineSource<'_>,
        header: BinlogEventHeader,
        rows: TableRows<'_>,
    ) -> Result<(), NoStatement>
        ensures lines { OnOk result (GoesOn (lines_of self.old) (lines_of self.new)) }
        ensures rows { OnOk result ((m : TableMap) (r : RowsBody) → RepresentsRows rows.entry m r → row_number self.new ≡ row_number self.old + rows_in m r) }
        ensures format { OnOk result (format_of self.new ≡ format_of self.old) }
        ensures transaction { self.new.transaction ≡ self.old.transaction }
        ensures err { IfErr result (IsMemoryOr IsRefusal) }
    {
        let origin = source.origin_of(header, self.transaction);
        let table = self.tables.table_of(rows)?;
        self.lines
            .add_rows(self.alloc, origin, table, rows, &mut self.buffers)
    }

    /// Ends the transaction: the text then has all of its lines.
    ///
    /// - `AllocError`: out of memory.
    pub fn end(&mut self) -> Result<(), AllocError>
        ensures lines { OnOk result (lines_of self.new ≡ lines_of self.old ++ line_end (format_of self.old) true (row_number self.old)) }
        ensures rows { row_number self.new ≡ row_number self.old }
        ensures format { format_of self.new ≡ format_of self.old }
        ensures transaction { self.new.transaction ≡ self.old.transaction }
    {
        self.lines.end_line(true)
    }
}
