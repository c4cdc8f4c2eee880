//! Keeps the open transaction as its changes, with its thread and its XID.

ghost use Rattle.std.specs.Prelude.{◌≡◌, None, []};
ghost use Rattle.changes_formats.specs.EventNumbers.{thread_of as event_thread, xid_of as event_xid};
ghost use Rattle.feed_transactions.specs.Changes.{Committed};
ghost use Rattle.feed_change_log.specs.ChangeViews.{RepresentsTransaction};

use byteorder::{ByteOrder, LittleEndian};
use events_frames::{BinlogEventHeader, QueryTexts, has_type};
use feed_change_log::{ChangeRecorder, CommittedTransaction};
use feed_checks::Verdict;
use feed_transactions::{KeptGtid, PlannedRows, Recorder};
use rows_constants::EventType;
use std::alloc::{AllocError, Global};

/// The length of an event's header.
const HEADER_LEN: usize = BinlogEventHeader::LEN;

/// The length of the number of an XID_EVENT, and that of the id of a thread.
const XID_LEN: usize = 8;

const THREAD_LEN: usize = 4;

/// The open transaction so far, or the newest that was committed: its changes, its thread and its XID.
#[derive(Drop)]
pub struct FormatRecorder {
    changes: ChangeRecorder,
    thread_id: Option<u64>,
    xid: Option<u64>,
}

/// The id of the thread that wrote a QUERY_EVENT. Events of MariaDB that stand for others have 0 there, which is no id.
fn thread_of(event: &[u8]) -> Option<u64>
    ensures { result ≡ event_thread event.now }
{
    if event.len() < HEADER_LEN + THREAD_LEN {
        return None;
    }
    let id = LittleEndian::read_u32(&event[HEADER_LEN..]);
    if id == 0 {
        return None;
    }
    Some(u64::from(id))
}

/// The number of an XID_EVENT; None of another event.
fn xid_of(event: &[u8]) -> Option<u64>
    ensures { result ≡ event_xid event.now }
{
    if event.len() < HEADER_LEN + XID_LEN {
        return None;
    }
    if has_type(event, EventType::XID_EVENT) {
        return Some(LittleEndian::read_u64(&event[HEADER_LEN..]));
    }
    None
}

impl FormatRecorder {
    ghost use Rattle.feed_change_log.specs.KeptChanges.{IsOpenChanges, IsDoneChanges};

    /// No transaction.
    pub fn new(alloc: Global) -> FormatRecorder
        ensures { IsOpenChanges result.changes None [] }
    {
        FormatRecorder {
            changes: ChangeRecorder::new(alloc),
            thread_id: None,
            xid: None,
        }
    }

    /// The newest transaction that was committed.
    #[inline(always)]
    pub fn transaction(&self) -> CommittedTransaction<'_>
        ensures { (t : Committed) → IsDoneChanges self.now.changes t → RepresentsTransaction result t }
    {
        CommittedTransaction::of(&self.changes)
    }

    /// The id of the thread that wrote it, if its first event has one.
    pub(crate) fn thread_id(&self) -> Option<u64>
        ensures { result ≡ self.now.thread_id }
    {
        self.thread_id
    }

    /// The number of its XID_EVENT, if it ends with one.
    pub(crate) fn xid(&self) -> Option<u64>
        ensures { result ≡ self.now.xid }
    {
        self.xid
    }
}

impl Recorder for FormatRecorder {
    ghost use Rattle.std.specs.Prelude.{⊤};
    ghost use Rattle.feed_change_log.specs.KeptChanges.{IsOpenChanges, IsDoneChanges};

    ghost IsOpen = { λ recorder gtid changes. IsOpenChanges recorder.changes gtid changes };

    ghost IsDone = { λ recorder transaction. IsDoneChanges recorder.changes transaction };

    ghost IsLike = { λ _ _. ⊤ };

    #[inline(always)]
    fn observe(&mut self, event: &[u8], body: &[u8]) -> Result<(), AllocError> {
        self.changes.observe(event, body)
    }

    #[inline(always)]
    fn begin(&mut self, gtid: &KeptGtid, event: &[u8]) -> Result<(), AllocError> {
        self.thread_id = thread_of(event);
        self.xid = None;
        self.changes.begin(gtid, event)
    }

    #[inline(always)]
    fn rows(&mut self, event: &[u8], rows: PlannedRows<'_, '_>) -> Result<(), Verdict> {
        self.changes.rows(event, rows)
    }

    #[inline(always)]
    fn statement(&mut self, event: &[u8], texts: QueryTexts<'_>) -> Result<(), AllocError> {
        self.changes.statement(event, texts)
    }

    #[inline(always)]
    fn commit(&mut self, event: &[u8]) -> Result<(), AllocError> {
        self.xid = xid_of(event);
        self.changes.commit(event)
    }
}
