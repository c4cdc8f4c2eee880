//! Keeps the open transaction for its record.

ghost use Rattle.std.specs.Prelude.{◌≡◌, [], None, if◌then◌else◌};
ghost use Rattle.events_frames.specs.Events.{IsWholeEvent};
ghost use Rattle.events_frames.specs.Headers.{event_header_of};
ghost use Rattle.feed_transactions.specs.Changes.{Committed};
ghost use Rattle.feed_change_log.specs.ChangeViews.{RepresentsTransaction};
ghost use Rattle.library_log.specs.RecordedTransactions.{has_gtid, start_of};

use events_frames::{BinlogEventHeader, QueryTexts, event_size, log_pos, type_number};
use feed_change_log::{ChangeRecorder, CommittedTransaction, Filter};
use feed_checks::Verdict;
use feed_transactions::{KeptGtid, PlannedRows, Recorder};
use rows_constants::EventType;
use std::alloc::{AllocError, Global};

/// The changes of the open transaction so far, or of the newest that was committed, and the position at which it begins.
#[derive(Drop)]
pub struct RecordRecorder {
    changes: ChangeRecorder,
    /// Where the newest GTID's event begins.
    gtid_start: u32,
    begin: u32,
}

/// The position at which an event begins. Positions have 32 bits.
fn start_of(event: &[u8]) -> u32
    requires { IsWholeEvent event.now }
    ensures { result ≡ start_of event.now }
{
    log_pos(event).wrapping_sub(event_size(event))
}

/// Whether an event has a GTID.
fn is_gtid(event: &[u8]) -> bool
    requires { IsWholeEvent event.now }
    ensures { result ≡ has_gtid event.now }
{
    let number = type_number(event);
    number == EventType::GTID_EVENT as u8
        || number == EventType::ANONYMOUS_GTID_EVENT as u8
        || number == EventType::GTID_TAGGED_LOG_EVENT as u8
}

/// Where the newest GTID's event begins after an event.
fn gtid_start_after(newest: u32, event: &[u8]) -> u32
    requires { IsWholeEvent event.now }
    ensures { result ≡ (if has_gtid event.now then start_of event.now else newest) }
{
    if is_gtid(event) {
        start_of(event)
    } else {
        newest
    }
}

impl RecordRecorder {
    ghost use Rattle.library_log.specs.RecordedTransactions.{IsOpenRecord, IsDoneRecord, begin_in, takes_some};

    /// No transaction.
    pub fn new(alloc: Global) -> RecordRecorder
        ensures { IsOpenRecord result None [] }
    {
        RecordRecorder {
            changes: ChangeRecorder::new(alloc),
            gtid_start: 0,
            begin: 0,
        }
    }

    /// The transaction that was committed.
    pub fn transaction(&self) -> CommittedTransaction<'_>
        ensures { (t : Committed) → IsDoneRecord self.now t → RepresentsTransaction result t }
    {
        CommittedTransaction::of(&self.changes)
    }

    /// The position at which it begins: that of its GTID's event, or of its first event if it has no GTID.
    pub fn begin_position(&self) -> u32
        ensures { result ≡ begin_in self.now }
    {
        self.begin
    }

    /// The header of the event that committed it.
    pub fn commit_header(&self) -> BinlogEventHeader
        ensures { (t : Committed) → IsDoneRecord self.now t → event_header_of result ≡ t.commit }
    {
        self.transaction().header()
    }

    /// Whether it has changes that a filter takes.
    pub fn has_taken(&self, filter: Filter<'_>) -> bool
        ensures { (t : Committed) → IsDoneRecord self.now t → result ≡ takes_some filter.entry t }
    {
        let mut taken = self.transaction().changes().taken_by(filter);
        taken.next().is_some()
    }
}

impl Recorder for RecordRecorder {
    ghost use Rattle.std.specs.Prelude.{⊤};
    ghost use Rattle.library_log.specs.RecordedTransactions.{IsOpenRecord, IsDoneRecord};

    ghost IsOpen = { IsOpenRecord };

    ghost IsDone = { IsDoneRecord };

    ghost IsLike = { λ _ _. ⊤ };

    #[inline(always)]
    fn observe(&mut self, event: &[u8], body: &[u8]) -> Result<(), AllocError> {
        self.gtid_start = gtid_start_after(self.gtid_start, event);
        self.changes.observe(event, body)
    }

    #[inline(always)]
    fn begin(&mut self, gtid: &KeptGtid, event: &[u8]) -> Result<(), AllocError> {
        self.begin = if gtid.is_some() {
            self.gtid_start
        } else {
            start_of(event)
        };
        self.changes.begin(gtid, event)
    }

    #[inline(always)]
    fn rows(&mut self, event: &[u8], rows: PlannedRows<'_, '_>) -> Result<(), Verdict> {
        self.changes.rows(event, rows)
    }

    #[inline(always)]
    fn statement(&mut self, event: &[u8], texts: QueryTexts<'_>) -> Result<(), AllocError> {
        self.changes.statement(event, texts)
    }

    #[inline(always)]
    fn commit(&mut self, event: &[u8]) -> Result<(), AllocError> {
        self.changes.commit(event)
    }
}
