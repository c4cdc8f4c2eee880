//! What a table keeps of its newest rows event, for later events with the same columns.

ghost use Rattle.std.specs.Prelude.{◌≡◌, ◌++◌, ◌<◌, ◌-◌, length, take, drop, Some, None, Ok, true, IfSome, OnOk, IfErr};
ghost use Rattle.std.specs.Option.{ForSome};
ghost use Rattle.rows_event_body.specs.EventColumnViews.{shapes_of};
ghost use Rattle.rows_event_body.specs.Views.{body_of};
ghost use Rattle.rows_event_body.specs.declared.rows_event_type.RowsEventType.{RowsEventType};
ghost use Rattle.rows_event_body.specs.ImageShapes.{table_plan};
ghost use Rattle.rows_event_body.specs.EventShapes.{event_shapes};
ghost use Rattle.feed_transactions.specs.KnownImages.{IsBodyOfRows, IsColumnsError, KnowsImages};
ghost use Rattle.feed_transactions.specs.MappedRows.{change_of};
ghost use Rattle.feed_transactions.specs.RowTexts.{change_word};

use crate::lines::row_verdict;
use crate::texts::change_word;
use feed_checks::Verdict;
use rows_event_body::{ColumnPlan, EventColumns, RowsEvent, RowsEventType};
use std::alloc::{AllocError, Global};

/// The length of a rows event's table id and flags in bytes, with the usual post-header length.
pub(crate) const ROWS_HEAD_LEN: usize = 8;

/// A rows event whose post-header has the usual length: its type, and its body.
#[derive(Clone, Copy)]
pub(crate) struct UsualRows<'a> {
    pub(crate) event_type: RowsEventType,
    pub(crate) body: &'a [u8],
}

/// The columns of the images of a table's newest rows event, and the start of its lines. Each event of the same type whose bytes
/// between the flags and the rows are the same has the same columns.
#[derive(Drop)]
pub(crate) struct KnownImages {
    /// The type of that event, if there is one and its post-header has the usual length.
    event_type: Option<RowsEventType>,
    /// Its bytes between the flags and the rows.
    fields: Vec<u8>,
    pub(crate) columns: EventColumns,
    pub(crate) start: Vec<u8>,
}

impl KnownImages {
    /// Before the first rows event.
    pub(crate) fn new(alloc: Global) -> KnownImages
        ensures { result.event_type ≡ None }
    {
        KnownImages {
            event_type: None,
            fields: Vec::new(alloc),
            columns: EventColumns::new(alloc),
            start: Vec::new(alloc),
        }
    }

    /// The bytes of an event's rows, if the event has this type, its columns are known and it has rows. `rest` are the bytes after its
    /// flags.
    #[inline(always)]
    pub(crate) fn rows_data<'a>(
        &self,
        event_type: RowsEventType,
        rest: &'a [u8],
    ) -> Option<&'a [u8]>
        ensures { IfSome result (λ rows. (self.now.event_type ≡ Some event_type) × (rest.now ≡ self.now.fields.items ++ rows.now) × (0 < length rows.now)) }
    {
        let kept = self.event_type?;
        if kept != event_type || !rest.starts_with(&self.fields) {
            return None;
        }
        let (_, rows) = rest.split_at(self.fields.len());
        if rows.is_empty() {
            return None;
        }
        Some(rows)
    }

    /// Learns the columns of an event's images and the start of its lines, under the plan and the names of its table. With the type and
    /// the body of a usual event, later events with the same columns are known by their bytes.
    ///
    /// - `Row`: the columns have no plan.
    /// - `Memory`: out of memory.
    pub(crate) fn learn(
        &mut self,
        rows: &RowsEvent<'_>,
        usual: Option<UsualRows<'_>>,
        plan: &ColumnPlan,
        names: &[u8],
    ) -> Result<(), Verdict>
        requires { ForSome usual (λ u. IsBodyOfRows u (body_of rows.now)) }
        ensures shapes { OnOk result (event_shapes (body_of rows.now) (table_plan plan.now) ≡ Ok (shapes_of self.new.columns)) }
        ensures start { OnOk result (self.new.start.items ≡ change_word (change_of (body_of rows.now)) ++ names.now) }
        ensures err { IfErr result (IsColumnsError (event_shapes (body_of rows.now) (table_plan plan.now))) }
        ensures known { (t : RowsEventType) → self.new.event_type ≡ Some t → KnowsImages t self.new.fields.items (table_plan plan.now) (shapes_of self.new.columns) names.now self.new.start.items }
    {
        self.event_type = None;
        if let Err(fault) = self.columns.fill(rows, plan) {
            return Err(row_verdict(fault));
        }
        self.start.clear();
        self.start.extend_from_slice(change_word(rows.images()))?;
        self.start.extend_from_slice(names)?;
        if let Some(usual) = usual {
            self.keep_fields(usual, rows.rows_data().len())?;
        }
        Ok(())
    }

    /// Keeps the type and the fields of an event with so many bytes of rows.
    fn keep_fields(&mut self, usual: UsualRows<'_>, rows_len: usize) -> Result<(), AllocError>
        requires { self.old.event_type ≡ None }
        ensures columns { self.new.columns ≡ self.old.columns }
        ensures start { self.new.start ≡ self.old.start }
        ensures fields { (t : RowsEventType) → self.new.event_type ≡ Some t → (usual.entry.event_type ≡ t) × (self.new.fields.items ≡ drop 8 (take (length usual.entry.body.now - rows_len) usual.entry.body.now)) }
    {
        let body = usual.body;
        if body.len() < rows_len || body.len() - rows_len < ROWS_HEAD_LEN {
            return Ok(());
        }
        let (before, _) = body.split_at(body.len() - rows_len);
        let (_, fields) = before.split_at(ROWS_HEAD_LEN);
        self.fields.clear();
        self.fields.extend_from_slice(fields)?;
        self.event_type = Some(usual.event_type);
        Ok(())
    }
}
