//! The lines of a transaction.

ghost use Rattle.std.specs.Prelude.{if◌then◌else◌, ◌≡◌, ◌≤◌, ◌+◌, ◌++◌, ◌||◌, ℕ, false, List, [], codes, length, map, take, None, Some, IsTrue, OnErr, OnOk, IfSome};
ghost use Rattle.wire_buf.specs.Watched.{inner_of, has_failed};
ghost use Rattle.feed_text.specs.Buffers.{text_in};
ghost use Rattle.feed_transactions.specs.Changes.{Committed};
ghost use Rattle.feed_transactions.specs.Waiting.{bytes_of};
ghost use Rattle.changes_lines.specs.ChangeLines.{ChangeJson, objects, transaction_line, transaction_lines, with_ends};
ghost use Rattle.changes_lines.specs.RecordedLines.{HasChanges, IsDoneJson, change_texts, members_from};
ghost use Rattle.changes_lines.specs.TextLists.{AreLeft, ended};
ghost use Rattle.changes_lines.specs.WrittenLines.{MayWriteLine, MayWriteRows, Puts, change_text, end_of, has_texts, head_text, rows_text};

use crate::header_text::HeaderText;
use crate::origin::put_origin;
use crate::recorder::JsonRecorder;
use crate::resume_place::ResumePlace;
use crate::rows::END;
use crate::text_list::Texts;
use feed_checks::Verdict;
use feed_text::{TextBuffer, WritingInRoom};
use feed_transactions::{MAX_COPIED_LEN, WaitingBytes};
use feed_writers::put_bytes;
use std::alloc::{AllocError, Global};
use std::io::Write;
use wire_buf::Watched;

/// What ends the last line of a transaction.
const COMMIT: &[u8] = b",\"commit\":true}\n";

/// The room for the names and the key of a table of usual lengths.
const HEAD_LEN: usize = 1024;

/// A row without the end of its line.
fn without_end(row: &[u8]) -> &[u8]
    ensures { (json : List ℕ) → row.now ≡ ended json → result.now ≡ json }
{
    row.get(..row.len().saturating_sub(END.len()))
        .unwrap_or(&[])
}

/// What the lines of a change begin with: the part before the members that all lines of the transaction have, these, and the part after
/// them; or all three in one text.
#[derive(Clone, Copy)]
struct Head<'h> {
    front: &'h [u8],
    origin: &'h [u8],
    back: &'h [u8],
}

/// Writes what the lines of a change begin with, if there is room for it; returns its length.
fn put_head(text: &mut [u8], head: Head<'_>) -> Option<usize>
    ensures text { IfSome result (λ len. take len text.new ≡ head_text head.entry) }
    ensures within { IfSome result (λ len. len ≤ length text.new) }
{
    let room = text.len().checked_sub(head.front.len())?;
    let room = room.checked_sub(head.origin.len())?;
    if room < head.back.len() {
        return None;
    }
    let end = put_bytes(text, 0, head.front);
    let end = put_bytes(text, end, head.origin);
    Some(put_bytes(text, end, head.back))
}

impl Head<'_> {
    /// Writes it, with the error of `WaitingBytes::put`.
    #[inline(always)]
    fn write<W: Write>(
        self,
        waiting: &mut WaitingBytes,
        writer: &mut Watched<W>,
    ) -> Result<(), Verdict>
        ensures { Puts (W.contents (inner_of writer.old)) (W.contents (inner_of writer.new)) (bytes_of waiting.old) (bytes_of waiting.new) (has_failed writer.new) (head_text self.entry) result }
    {
        waiting.put(self.front, writer)?;
        if self.origin.is_empty() && self.back.is_empty() {
            return Ok(());
        }
        waiting.put(self.origin, writer)?;
        waiting.put(self.back, writer)
    }
}

/// What ends the rows of a transaction.
#[derive(Clone, Copy)]
struct Ends<'e> {
    /// The end of each row but the last; None if it is that of a line.
    each: Option<&'e [u8]>,
    last: &'e [u8],
}

impl<'e> Ends<'e> {
    /// The end of a row, in place of its own; None if it keeps that.
    #[inline(always)]
    fn end(self, is_last: bool) -> Option<&'e [u8]>
        ensures { end_of result ≡ (if is_last then self.entry.last.now else end_of self.entry.each) }
    {
        if is_last { Some(self.last) } else { self.each }
    }
}

/// A row with what its line begins with. `end` is in place of its own end.
#[derive(Clone, Copy)]
struct Line<'l> {
    head: Head<'l>,
    row: &'l [u8],
    end: Option<&'l [u8]>,
}

impl<'l> Line<'l> {
    /// The row and its end, in two parts.
    #[inline(always)]
    fn parts(self) -> (&'l [u8], &'l [u8])
        ensures { (json : List ℕ) → self.entry.row.now ≡ ended json → result.0.now ++ result.1.now ≡ json ++ end_of self.entry.end }
    {
        match self.end {
            Some(end) => (without_end(self.row), end),
            None => (self.row, &[]),
        }
    }

    /// The row and its end, if there is room for the line, and the row is short enough to be copied.
    #[inline(always)]
    fn parts_within(self, room: usize) -> Option<(&'l [u8], &'l [u8])>
        ensures parts { IfSome result (λ p. (json : List ℕ) → self.entry.row.now ≡ ended json → p.0.now ++ p.1.now ≡ json ++ end_of self.entry.end) }
        ensures room { IfSome result (λ p. length self.entry.head.front.now + length self.entry.head.origin.now + length self.entry.head.back.now + length p.0.now + length p.1.now ≤ room) }
    {
        if self.row.len() > MAX_COPIED_LEN {
            return None;
        }
        let (row, end) = self.parts();
        let room = room.checked_sub(self.head.front.len())?;
        let room = room.checked_sub(self.head.origin.len())?;
        let room = room.checked_sub(self.head.back.len())?;
        let room = room.checked_sub(row.len())?;
        if room < end.len() {
            return None;
        }
        Some((row, end))
    }
}

/// Writes bytes, unchanged; no bytes take no call.
#[inline(always)]
fn put_any(text: &mut [u8], at: usize, bytes: &[u8]) -> usize
    requires { at + length bytes.now ≤ length text.old }
    ensures end { result ≡ at + length bytes.now }
    ensures text { take result text.new ≡ take at text.old ++ bytes.now }
{
    if bytes.is_empty() {
        return at;
    }
    put_bytes(text, at, bytes)
}

impl WritingInRoom for Line<'_> {
    type Left = bool;

    ghost Wrote = { MayWriteLine };

    #[inline(always)]
    fn put(self, text: &mut [u8], at: usize) -> (usize, bool) {
        let Some((row, end)) = self.parts_within(text.len() - at) else {
            return (at, false);
        };
        let next = put_bytes(text, at, self.head.front);
        let next = put_any(text, next, self.head.origin);
        let next = put_any(text, next, self.head.back);
        let next = put_bytes(text, next, row);
        (put_any(text, next, end), true)
    }
}

/// Writes a row, with the error of `WaitingBytes::put`. `end` is in place of its own end.
#[inline(always)]
fn write_row<W: Write>(
    head: Head<'_>,
    row: &[u8],
    end: Option<&[u8]>,
    waiting: &mut WaitingBytes,
    writer: &mut Watched<W>,
) -> Result<(), Verdict>
    ensures { (json : List ℕ) → row.now ≡ ended json → Puts (W.contents (inner_of writer.old)) (W.contents (inner_of writer.new)) (bytes_of waiting.old) (bytes_of waiting.new) (has_failed writer.new) (head_text head.entry ++ (json ++ end_of end.entry)) result }
{
    head.write(waiting, writer)?;
    let Some(end) = end else {
        return waiting.put(row, writer);
    };
    waiting.put(without_end(row), writer)?;
    waiting.put(end, writer)
}

/// Writes a row as [`write_row`] does, at once where there is room for its line.
#[inline(always)]
fn write_line<W: Write>(
    head: Head<'_>,
    row: &[u8],
    end: Option<&[u8]>,
    waiting: &mut WaitingBytes,
    writer: &mut Watched<W>,
) -> Result<(), Verdict>
    ensures { (json : List ℕ) → row.now ≡ ended json → Puts (W.contents (inner_of writer.old)) (W.contents (inner_of writer.new)) (bytes_of waiting.old) (bytes_of waiting.new) (has_failed writer.new) (head_text head.entry ++ (json ++ end_of end.entry)) result }
{
    if waiting.put_in_room(Line { head, row, end }) {
        return Ok(());
    }
    write_row(head, row, end, waiting, writer)
}

/// Writes the next rows, with the error of `WaitingBytes::put`.
#[inline(always)]
fn write_rows<W: Write>(
    head: Head<'_>,
    rows: usize,
    ends: Ends<'_>,
    texts: &mut Texts<'_>,
    waiting: &mut WaitingBytes,
    writer: &mut Watched<W>,
) -> Result<(), Verdict>
    ensures text { (json more : List (List ℕ)) → rows ≡ length json → AreLeft texts.old (map ended json ++ more) → Puts (W.contents (inner_of writer.old)) (W.contents (inner_of writer.new)) (bytes_of waiting.old) (bytes_of waiting.new) (has_failed writer.new) (rows_text head.entry ends.entry (has_texts more) json) result }
    ensures left { OnOk result ((json more : List (List ℕ)) → rows ≡ length json → AreLeft texts.old (map ended json ++ more) → AreLeft texts.new more) }
{
    for _ in 0..rows {
        let row = texts.take();
        let end = ends.end(texts.is_empty());
        write_row(head, row, end, waiting, writer)?;
    }
    Ok(())
}

/// Rows of a change that keep their ends, each after what their lines begin with. Those are written that there is room for, but for the
/// last: how it ends depends on what follows.
#[derive(Clone, Copy)]
struct RowsInRoom<'h, 't> {
    head: &'h [u8],
    rows: usize,
    texts: Texts<'t>,
}

/// Whether there is room for a row after what its line begins with, and the row is short enough to be copied.
#[inline(always)]
fn has_room(room: usize, head: &[u8], row: &[u8]) -> bool
    ensures { IsTrue result → length head.now + length row.now ≤ room }
{
    let Some(room) = room.checked_sub(head.len()) else {
        return false;
    };
    if row.len() > MAX_COPIED_LEN {
        return false;
    }
    row.len() <= room
}

impl<'t> WritingInRoom for RowsInRoom<'_, 't> {
    type Left = (usize, Texts<'t>);

    ghost Wrote = { MayWriteRows };

    #[inline(always)]
    fn put(self, text: &mut [u8], at: usize) -> (usize, (usize, Texts<'t>)) {
        let mut end = at;
        let mut rows = self.rows;
        let mut texts = self.texts;
        while rows > 1 {
            let mut after = texts;
            let row = after.take();
            if !has_room(text.len() - end, self.head, row) {
                break;
            }
            let start = put_bytes(text, end, self.head);
            end = put_bytes(text, start, row);
            rows -= 1;
            texts = after;
        }
        (end, (rows, texts))
    }
}

/// Writes the next rows as [`write_rows`] does, as many at once as there is room for. They keep their ends, but for one that no text
/// follows, and what their lines begin with is in one text.
#[inline(always)]
fn write_whole_rows<W: Write>(
    head: Head<'_>,
    rows: usize,
    ends: Ends<'_>,
    texts: &mut Texts<'_>,
    waiting: &mut WaitingBytes,
    writer: &mut Watched<W>,
) -> Result<(), Verdict>
    requires single { head_text head ≡ head.front.now }
    requires kept { end_of ends.each ≡ codes "}\n" }
    ensures text { (json more : List (List ℕ)) → rows ≡ length json → AreLeft texts.old (map ended json ++ more) → Puts (W.contents (inner_of writer.old)) (W.contents (inner_of writer.new)) (bytes_of waiting.old) (bytes_of waiting.new) (has_failed writer.new) (rows_text head.entry ends.entry (has_texts more) json) result }
    ensures left { OnOk result ((json more : List (List ℕ)) → rows ≡ length json → AreLeft texts.old (map ended json ++ more) → AreLeft texts.new more) }
{
    let mut left = rows;
    while left > 0 {
        let (some, next) = waiting.put_in_room(RowsInRoom {
            head: head.front,
            rows: left,
            texts: *texts,
        });
        *texts = next;
        write_rows(head, 1, ends, texts, waiting, writer)?;
        left = some.saturating_sub(1);
    }
    Ok(())
}

/// Writes the objects of the next change, which has so many rows, with the error of `WaitingBytes::put`. `room` is for what they begin
/// with.
#[inline(always)]
fn write_change<W: Write>(
    room: &mut [u8],
    origin: &[u8],
    rows: usize,
    ends: Ends<'_>,
    texts: &mut Texts<'_>,
    waiting: &mut WaitingBytes,
    writer: &mut Watched<W>,
) -> Result<(), Verdict>
    ensures text { (x : ChangeJson) (more : List (List ℕ)) → rows ≡ length x.rows → AreLeft texts.old (change_texts x ++ more) → Puts (W.contents (inner_of writer.old)) (W.contents (inner_of writer.new)) (bytes_of waiting.old) (bytes_of waiting.new) (has_failed writer.new) (change_text origin.now ends.entry (has_texts more) x) result }
    ensures left { OnOk result ((x : ChangeJson) (more : List (List ℕ)) → rows ≡ length x.rows → AreLeft texts.old (change_texts x ++ more) → AreLeft texts.new more) }
{
    let front = texts.take();
    if rows == 1 {
        let head = Head {
            front,
            origin,
            back: &[],
        };
        let row = texts.take_two();
        let is_last = texts.is_empty();
        return write_line(head, row, ends.end(is_last), waiting, writer);
    }
    let back = texts.take();
    let parts = Head {
        front,
        origin,
        back,
    };
    let Some(len) = put_head(room, parts) else {
        return write_rows(parts, rows, ends, texts, waiting, writer);
    };
    let whole = Head {
        front: &room[..len],
        origin: &[],
        back: &[],
    };
    if ends.each.is_none() {
        return write_whole_rows(whole, rows, ends, texts, waiting, writer);
    }
    write_rows(whole, rows, ends, texts, waiting, writer)
}

/// Writes the objects of all changes, with the error of `WaitingBytes::put`.
fn write_changes<W: Write>(
    room: &mut [u8],
    origin: &[u8],
    ends: Ends<'_>,
    transaction: &JsonRecorder<'_>,
    waiting: &mut WaitingBytes,
    writer: &mut Watched<W>,
) -> Result<(), Verdict>
    ensures { (xs : List ChangeJson) → HasChanges transaction.now xs → Puts (W.contents (inner_of writer.old)) (W.contents (inner_of writer.new)) (bytes_of waiting.old) (bytes_of waiting.new) (has_failed writer.new) (with_ends (end_of ends.entry.each) ends.entry.last.now (objects origin.now xs)) result }
{
    let mut texts = transaction.texts();
    let mut left = transaction.changes();
    while let Some((rows, after)) = left.split_first() {
        write_change(room, origin, *rows, ends, &mut texts, waiting, writer)?;
        left = after;
    }
    Ok(())
}

/// How the lines of a log's transactions are written.
#[derive(Drop)]
pub struct Lines {
    /// Whether a line is a transaction, and not a changed row or a statement.
    by_transaction: bool,
    /// The members that all lines of a transaction have.
    origin: TextBuffer<Global>,
    /// Room for what the lines of a change begin with.
    head: Vec<u8>,
    /// Where reading can begin again.
    resume: ResumePlace,
}

impl Lines {
    ghost use Rattle.changes_lines.specs.WrittenLines.{Begins, IsBegun, has_begun, has_moved, is_behind, newest_log, newest_place, place_at, place_at_log, resume_in};

    /// Lines of changes, or of transactions.
    pub fn new(alloc: Global, by_transaction: bool) -> Lines
        ensures form { result.by_transaction ≡ by_transaction }
        ensures place { newest_place result ≡ record { file = []; position = 4 } }
        ensures resume { resume_in result ≡ None }
        ensures begun { has_begun result ≡ false }
        ensures moved { has_moved result ≡ false }
    {
        Lines {
            by_transaction,
            origin: TextBuffer::new(alloc),
            head: Vec::new(alloc),
            resume: ResumePlace::new(alloc),
        }
    }

    /// A log with this name begins.
    ///
    /// - `AllocError`: out of memory. Its name isn't known then.
    pub fn begin_log(&mut self, file: &[u8]) -> Result<(), AllocError>
        ensures log { OnOk result (newest_log self.new ≡ file.now) }
        ensures place { OnOk result (newest_place self.new ≡ place_at_log self.old file.now) }
        ensures stays { OnErr result (newest_place self.new ≡ newest_place self.old) }
        ensures moved { has_moved self.new ≡ (has_moved self.old || has_begun self.old) }
        ensures behind { is_behind self.new ≡ is_behind self.old }
        ensures kept { self.new.by_transaction ≡ self.old.by_transaction }
    {
        self.resume.begin_log(file)
    }

    /// Reading begins at this position of the first log, and not at its first event. It has no effect once there is a place in the logs at
    /// which reading can begin again, or another log has begun.
    pub fn begin_at(&mut self, position: u32)
        ensures place { newest_place self.new ≡ place_at self.old position }
        ensures log { newest_log self.new ≡ newest_log self.old }
        ensures begun { has_begun self.new ≡ has_begun self.old }
        ensures moved { has_moved self.new ≡ has_moved self.old }
        ensures behind { is_behind self.new ≡ is_behind self.old }
        ensures kept { self.new.by_transaction ≡ self.old.by_transaction }
    {
        self.resume.begin_at(position);
    }

    /// A transaction of the newest log ends at this position, whether its lines are written or not. `is_clear` says that no XA transaction
    /// is prepared there: then reading can begin again there, else at the newest end of which that was so, or where it began before.
    pub fn reach(&mut self, position: u32, is_clear: bool)
        ensures resume { resume_in self.new ≡ (if is_clear then None else Some (newest_place self.old)) }
        ensures place { newest_place self.new ≡ (if is_clear then record { file = newest_log self.old; position = position } else newest_place self.old) }
        ensures log { newest_log self.new ≡ newest_log self.old }
        ensures moved { has_moved self.new ≡ (is_clear || has_moved self.old) }
        ensures kept { self.new.by_transaction ≡ self.old.by_transaction }
    {
        self.resume.reach(position, is_clear);
    }

    /// Makes what all lines of a transaction have, so that writing them takes no memory. [`Lines::reach`] was told where it ends.
    ///
    /// - `AllocError`: out of memory.
    pub fn begin(&mut self, file: &[u8], transaction: &JsonRecorder<'_>) -> Result<(), AllocError>
        ensures ok { OnOk result ((t : Committed) → IsDoneJson transaction.now t → Begins self.new file.now t (members_from (resume_in self.old) transaction.now)) }
        ensures kept { self.new.by_transaction ≡ self.old.by_transaction }
    {
        self.put_members(file, transaction)?;
        let room = self.origin.len().saturating_add(HEAD_LEN);
        if self.head.len() >= room {
            return Ok(());
        }
        self.head.resize(room, 0)
    }

    /// Makes the members that all lines of a transaction have.
    fn put_members(&mut self, file: &[u8], transaction: &JsonRecorder<'_>) -> Result<(), AllocError>
        ensures ok { OnOk result ((t : Committed) → IsDoneJson transaction.now t → Begins self.new file.now t (members_from (resume_in self.old) transaction.now)) }
        ensures kept { self.new.by_transaction ≡ self.old.by_transaction }
    {
        let header = transaction.commit_header();
        let position = header.log_pos();
        self.origin.clear();
        if !self.by_transaction {
            put_origin(transaction, file, position, &mut self.origin)?;
            self.resume.put(&mut self.origin)?;
            return transaction.put_added(&mut self.origin);
        }
        HeaderText::new(header.timestamp(), header.server_id()).put(header, &mut self.origin)?;
        put_origin(transaction, file, position, &mut self.origin)?;
        self.resume.put(&mut self.origin)?;
        transaction.put_added(&mut self.origin)
    }

    /// Writes the lines of the transaction that was begun.
    ///
    /// - `Write`: the writer failed after a prefix of what waited and of the lines.
    pub fn write<W: Write>(
        &mut self,
        transaction: &JsonRecorder<'_>,
        waiting: &mut WaitingBytes,
        writer: &mut Watched<W>,
    ) -> Result<(), Verdict>
        ensures text { (file gtid more : List ℕ) (t : Committed) (xs : List ChangeJson) → IsBegun self.old file t gtid more → HasChanges transaction.now xs → Puts (W.contents (inner_of writer.old)) (W.contents (inner_of writer.new)) (bytes_of waiting.old) (bytes_of waiting.new) (has_failed writer.new) (transaction_lines self.old.by_transaction file t gtid more xs) result }
        ensures kept { self.new.by_transaction ≡ self.old.by_transaction }
    {
        if self.by_transaction {
            return self.write_transaction(transaction, waiting, writer);
        }
        let ends = Ends {
            each: None,
            last: COMMIT,
        };
        let origin = self.origin.as_slice();
        write_changes(&mut self.head, origin, ends, transaction, waiting, writer)
    }

    /// Writes the line of the transaction that was begun.
    fn write_transaction<W: Write>(
        &mut self,
        transaction: &JsonRecorder<'_>,
        waiting: &mut WaitingBytes,
        writer: &mut Watched<W>,
    ) -> Result<(), Verdict>
        ensures text { (xs : List ChangeJson) → HasChanges transaction.now xs → Puts (W.contents (inner_of writer.old)) (W.contents (inner_of writer.new)) (bytes_of waiting.old) (bytes_of waiting.new) (has_failed writer.new) (transaction_line (text_in self.old.origin) (objects [] xs)) result }
        ensures kept { self.new.by_transaction ≡ self.old.by_transaction }
    {
        if transaction.changes().is_empty() {
            return Ok(());
        }
        waiting.put(b"{", writer)?;
        waiting.put(self.origin.as_slice().get(1..).unwrap_or(&[]), writer)?;
        waiting.put(b",\"changes\":[", writer)?;
        let ends = Ends {
            each: Some(b"},"),
            last: b"}",
        };
        write_changes(&mut self.head, &[], ends, transaction, waiting, writer)?;
        waiting.put(b"]}\n", writer)
    }
}
