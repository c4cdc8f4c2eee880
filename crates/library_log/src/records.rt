//! The record of a transaction.

ghost use Rattle.std.specs.Prelude.{◌≡◌, ◌≤◌, ◌+◌, ◌++◌, ◌∷◌, [], codes, ℕ, List, IfOk, OnOk, vec_len};
ghost use Rattle.std.specs.List.{filter as filter_list};
ghost use Rattle.events_frames.specs.Headers.{Header, event_header_of};
ghost use Rattle.events_frames.specs.QueryTexts.{StatementTexts, HasTexts};
ghost use Rattle.rows_table_map.specs.TableMaps.{TableMap};
ghost use Rattle.rows_event_body.specs.RowsEvents.{RowsBody};
ghost use Rattle.feed_transactions.specs.Changes.{EventChange, Committed, OfRows, OfStatement};
ghost use Rattle.feed_change_log.specs.ChangeViews.{RepresentsChange, RepresentsRows};
ghost use Rattle.feed_change_log.specs.Filters.{takes_change};
ghost use Rattle.changes_origins.specs.GtidJson.{IsGtidJson};
ghost use Rattle.library_log.specs.RecordLayouts.{AppendsElements, IsRecord, IsTextOf, row_count, rows_kind, text_bytes};
ghost use Rattle.library_log.specs.RecordParts.{change_head, head_bytes, AppendsHead, FitsChange, FitsHead};
ghost use Rattle.library_log.specs.RecordedTransactions.{IsDoneRecord, begin_in};

use crate::cells::unquoted;
use crate::numbers::{put_half, put_text, put_word, set_len, set_word};
use crate::recorder::RecordRecorder;
use crate::rows::RowWriter;
use crate::tables::RecordTables;
use changes_origins::put_gtid;
use events_frames::{BinlogEventHeader, QueryTexts};
use feed_change_log::{Change, Filter, TableRows, What};
use feed_text::TextBuffer;
use rows_event_body::RowImages;
use std::alloc::{AllocError, Global};

/// The version of the layout, and the length of a record's head.
const VERSION: u32 = 1;

const HEAD_LEN: u32 = 64;

/// The offset of the length of a record, and of an element's content.
const LEN_OFFSET: usize = 8;

/// The offsets of the numbers of a record's changes and rows.
const CHANGES_OFFSET: usize = 16;

const ROWS_OFFSET: usize = 24;

/// The offset of an element's number of rows.
const COUNT_OFFSET: usize = 24;

/// The kinds of changes.
const INSERT: u32 = 1;

const UPDATE: u32 = 2;

const DELETE: u32 = 3;

const STATEMENT: u32 = 4;

/// Makes the records of transactions, one after the other.
#[derive(Drop)]
pub struct Records {
    alloc: Global,
    tables: RecordTables,
    scratch: TextBuffer<Global>,
}

/// The kind of a change of rows with these images.
fn kind_of(images: RowImages) -> u32
    ensures { result ≡ rows_kind images }
{
    match images {
        RowImages::After => INSERT,
        RowImages::Before => DELETE,
        RowImages::BeforeAndAfter | RowImages::BeforeAndPartialAfter => UPDATE,
    }
}

/// The text of a GTID, whose JSON this is; no bytes for null.
fn gtid_in(json: &[u8]) -> &[u8]
    ensures null { json.now ≡ codes "null" → result.now ≡ [] }
    ensures string { (text : List ℕ) → json.now ≡ 34 ∷ (text ++ 34 ∷ []) → result.now ≡ text }
    ensures object { (rest : List ℕ) → json.now ≡ 123 ∷ rest → result.now ≡ json.now }
{
    if json == b"null".as_slice() {
        return &[];
    }
    unquoted(json)
}

/// Appends the head of an element, with zero for the length of its content, and what the contents of all changes begin with.
fn begin_change(
    kind: u32,
    table: u32,
    header: BinlogEventHeader,
    out: &mut Vec<u8>,
) -> Result<(), AllocError>
    ensures appended { OnOk result (out.new.items ≡ out.old.items ++ change_head kind table 0 (event_header_of header)) }
    ensures len { OnOk result (vec_len out.new ≡ vec_len out.old + 24) }
    ensures small { OnOk result (FitsChange (event_header_of header)) }
{
    put_half(kind, out)?;
    put_half(table, out)?;
    put_word(0, out)?;
    put_half(header.timestamp(), out)?;
    put_half(header.log_pos(), out)
}

/// Appends a statement.
fn put_statement(
    header: BinlogEventHeader,
    texts: QueryTexts<'_>,
    out: &mut Vec<u8>,
) -> Result<(), AllocError>
    ensures added { OnOk result ((q : StatementTexts) → HasTexts texts.entry q → AppendsElements (record { header = event_header_of header; content = OfStatement q } ∷ []) out.old.items out.new.items) }
    ensures more { OnOk result (vec_len out.old + 2 ≤ vec_len out.new) }
{
    let start = out.len();
    begin_change(STATEMENT, 0, header, out)?;
    put_text(texts.schema, out)?;
    put_text(texts.query, out)?;
    set_len(start + LEN_OFFSET, out);
    Ok(())
}

/// Appends the numbers of a record's head, with zeros for its length and its numbers of changes and rows.
fn put_numbers(begin: u32, header: BinlogEventHeader, out: &mut Vec<u8>) -> Result<(), AllocError>
    ensures appended { OnOk result (out.new.items ≡ out.old.items ++ head_bytes 0 0 0 begin (event_header_of header)) }
    ensures len { OnOk result (vec_len out.new ≡ vec_len out.old + 56) }
    ensures small { OnOk result (FitsHead begin (event_header_of header)) }
{
    put_half(VERSION, out)?;
    put_half(HEAD_LEN, out)?;
    put_word(0, out)?;
    put_word(0, out)?;
    put_word(0, out)?;
    put_half(begin, out)?;
    put_half(header.log_pos(), out)?;
    put_half(header.timestamp(), out)?;
    put_half(header.server_id(), out)?;
    put_word(0, out)
}

/// Writes the length of a record and its numbers of changes and rows into its head.
fn end_head(changes: u64, rows: u64, out: &mut Vec<u8>)
    requires { 64 ≤ vec_len out.old }
    ensures { (begin : ℕ) (h : Header) (rest : List ℕ) → out.old.items ≡ head_bytes 0 0 0 begin h ++ rest → out.new.items ≡ head_bytes (vec_len out.old) changes rows begin h ++ rest }
{
    set_word(out.len() as u64, LEN_OFFSET, out);
    set_word(changes, CHANGES_OFFSET, out);
    set_word(rows, ROWS_OFFSET, out);
}

impl Records {
    /// No record yet.
    pub fn new(alloc: Global) -> Records {
        Records {
            alloc,
            tables: RecordTables::new(alloc),
            scratch: TextBuffer::new(alloc),
        }
    }

    /// Makes the record of the newest transaction of a recorder, with the changes that a filter takes, in a buffer, which it empties first.
    /// After an error the record isn't complete.
    ///
    /// - `AllocError`: out of memory.
    pub fn put(
        &mut self,
        newest: &RecordRecorder,
        filter: Filter<'_>,
        out: &mut Vec<u8>,
    ) -> Result<(), AllocError>
        ensures { OnOk result ((t : Committed) → IsDoneRecord newest.now t → IsRecord (begin_in newest.now) t (filter_list (takes_change filter.entry) t.changes) out.new.items) }
    {
        out.clear();
        self.tables.begin();
        self.put_head(newest, out)?;
        let mut changes = 0u64;
        let mut rows = 0u64;
        for change in newest.transaction().changes().taken_by(filter) {
            let count = self.put_change(change, out)?;
            changes += 1;
            rows += count;
        }
        end_head(changes, rows, out);
        Ok(())
    }

    /// Appends the head of a record, with zeros for its length and its numbers of changes and rows.
    fn put_head(&mut self, newest: &RecordRecorder, out: &mut Vec<u8>) -> Result<(), AllocError>
        ensures head { OnOk result ((t : Committed) → IsDoneRecord newest.now t → AppendsHead (begin_in newest.now) t out.old.items out.new.items) }
        ensures more { OnOk result (vec_len out.old + 64 ≤ vec_len out.new) }
    {
        put_numbers(newest.begin_position(), newest.commit_header(), out)?;
        self.scratch.clear();
        put_gtid(newest.transaction().gtid(), &mut self.scratch)?;
        put_text(gtid_in(self.scratch.as_slice()), out)
    }

    /// Appends a change, and returns its number of rows, or 1 for a statement.
    fn put_change(&mut self, change: Change<'_>, out: &mut Vec<u8>) -> Result<u64, AllocError>
        ensures added { IfOk result (λ count. (c : EventChange) → RepresentsChange change.entry c → (count ≡ row_count c.content) × AppendsElements (c ∷ []) out.old.items out.new.items) }
        ensures more { IfOk result (λ count. vec_len out.old + (count + 1) ≤ vec_len out.new) }
    {
        match change.what {
            What::Rows(rows) => self.put_rows(change.header, rows, out),
            What::Statement(texts) => {
                put_statement(change.header, texts, out)?;
                Ok(1)
            }
        }
    }

    /// Appends the rows of an event, after their table if it isn't in the record yet. Returns their number.
    fn put_rows(
        &mut self,
        header: BinlogEventHeader,
        rows: TableRows<'_>,
        out: &mut Vec<u8>,
    ) -> Result<u64, AllocError>
        ensures added { IfOk result (λ count. (m : TableMap) (r : RowsBody) → RepresentsRows rows.entry m r → (count ≡ row_count (OfRows m r)) × AppendsElements (record { header = event_header_of header; content = OfRows m r } ∷ []) out.old.items out.new.items) }
        ensures more { IfOk result (λ count. vec_len out.old + (count + 1) ≤ vec_len out.new) }
    {
        self.tables.put(rows, out)?;
        let Some(table) = self.tables.get(rows) else {
            return Err(AllocError);
        };
        let start = out.len();
        begin_change(kind_of(rows.images()), table.index, header, out)?;
        put_word(0, out)?;
        let writer = RowWriter {
            alloc: self.alloc,
            columns: &table.columns,
        };
        let (plan, rows_data) = (rows.row_plan(), rows.rows_data());
        let Ok(count) = writer.put_rows(plan, rows_data, &mut self.scratch, out) else {
            return Err(AllocError);
        };
        set_word(count, start + COUNT_OFFSET, out);
        set_len(start + LEN_OFFSET, out);
        Ok(count)
    }
}
