//! Keeps the open transaction in the form in which it is shown.

ghost use Rattle.std.specs.Prelude.{◌≡◌, [], None};
ghost use Rattle.events_frames.specs.Headers.{event_header_of};
ghost use Rattle.feed_transactions.specs.Changes.{Committed};

use crate::recorder::RecordRecorder;
use changes_lines::JsonRecorder;
use events_frames::{BinlogEventHeader, QueryTexts};
use feed_checks::Verdict;
use feed_transactions::{KeptGtid, PlannedRows, Recorder};
use std::alloc::AllocError;

/// Keeps the open transaction, and then the newest that was committed, in the form in which it is shown.
#[derive(Drop)]
pub enum ShownRecorder<'f> {
    /// As JSON lines.
    Lines(JsonRecorder<'f>),
    /// As a binary record.
    Record(RecordRecorder),
}

impl ShownRecorder<'_> {
    ghost use Rattle.library_log.specs.ShownRecorders.{IsDoneShown};

    /// The header of the event that committed the transaction.
    pub(crate) fn commit_header(&self) -> BinlogEventHeader
        ensures { (t : Committed) → IsDoneShown self.now t → event_header_of result ≡ t.commit }
    {
        match self {
            ShownRecorder::Lines(lines) => lines.commit_header(),
            ShownRecorder::Record(record) => record.commit_header(),
        }
    }
}

impl Recorder for ShownRecorder<'_> {
    ghost use Rattle.library_log.specs.ShownRecorders.{IsOpenShown, IsDoneShown, IsLikeShown};

    ghost IsOpen = { IsOpenShown };

    ghost IsDone = { IsDoneShown };

    ghost IsLike = { IsLikeShown };

    #[inline(always)]
    fn observe(&mut self, event: &[u8], body: &[u8]) -> Result<(), AllocError> {
        match self {
            ShownRecorder::Lines(lines) => lines.observe(event, body),
            ShownRecorder::Record(record) => record.observe(event, body),
        }
    }

    #[inline(always)]
    fn begin(&mut self, gtid: &KeptGtid, event: &[u8]) -> Result<(), AllocError> {
        match self {
            ShownRecorder::Lines(lines) => lines.begin(gtid, event),
            ShownRecorder::Record(record) => record.begin(gtid, event),
        }
    }

    #[inline(always)]
    fn rows(&mut self, event: &[u8], rows: PlannedRows<'_, '_>) -> Result<(), Verdict> {
        match self {
            ShownRecorder::Lines(lines) => lines.rows(event, rows),
            ShownRecorder::Record(record) => record.rows(event, rows),
        }
    }

    #[inline(always)]
    fn statement(&mut self, event: &[u8], texts: QueryTexts<'_>) -> Result<(), AllocError> {
        match self {
            ShownRecorder::Lines(lines) => lines.statement(event, texts),
            ShownRecorder::Record(record) => record.statement(event, texts),
        }
    }

    #[inline(always)]
    fn commit(&mut self, event: &[u8]) -> Result<(), AllocError> {
        match self {
            ShownRecorder::Lines(lines) => lines.commit(event),
            ShownRecorder::Record(record) => record.commit(event),
        }
    }
}
