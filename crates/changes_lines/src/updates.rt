//! An update as JSON: the row after it, and what it changed.

ghost use Rattle.std.specs.Prelude.{◌≡◌, ◌∷◌, ◌++◌, [], List, ℕ, IfOk, IfErr, OnOk, codes};
ghost use Rattle.rows_cells.specs.ImageViews.{image_shape};
ghost use Rattle.feed_text.specs.Buffers.{text_in};
ghost use Rattle.feed_transactions.specs.RowLines.{row_verdict, IsRowError, image_text_at, images_texts_at};
ghost use Rattle.changes_tables.specs.ShownColumns.{ColumnView, column_view};
ghost use Rattle.changes_cells.specs.FieldJson.{IsFieldError};
ghost use Rattle.changes_lines.specs.TableColumns.{columns_in};
ghost use Rattle.changes_lines.specs.RowJson.{CellJson, member_json, members_json, object_json};
ghost use Rattle.changes_lines.specs.ReadCells.{members_after, separator_byte, separator_end, separator_after as separator_of};
ghost use Rattle.changes_lines.specs.ReadRows.{AppendsRow};
ghost use Rattle.changes_lines.specs.Updates.{IsMember, AreMembers, IsFrom, ReadsCell, KeepsMember, PutsFirst, PutsAll, Compares, StepsOver, cell_of};
ghost use Rattle.changes_lines.specs.declared.members.Separator.TheVariants.{Brace, Comma};

use crate::columns::Columns;
use crate::members::{Separator, put_end, put_key};
use changes_cells::put_field;
use feed_text::TextBuffer;
use rows_cells::{ImageCells, ImageField, ImagePlan};
use rows_errors::RowsError;
use std::alloc::{AllocError, Global};

/// Where a member of the image before an update is in a text.
#[derive(Clone, Copy)]
struct Member {
    column: u32,
    /// Where its key begins.
    start: usize,
    /// Where its value begins.
    value: usize,
    end: usize,
}

impl Member {
    ghost use Rattle.changes_lines.specs.Updates.{IsMember};

    /// Its key and its value.
    fn whole(self, text: &[u8]) -> &[u8]
        ensures { (table : List ColumnView) (x : CellJson) → IsMember table text.now self x → result.now ≡ member_json table x }
    {
        text.get(self.start..self.end).unwrap_or(&[])
    }

    /// Its value.
    fn value(self, text: &[u8]) -> &[u8]
        ensures { (table : List ColumnView) (x : CellJson) → IsMember table text.now self x → result.now ≡ x.json }
    {
        text.get(self.value..self.end).unwrap_or(&[])
    }
}

/// The members of the image before an update, and those that it changed.
#[derive(Drop)]
pub(crate) struct Before {
    text: TextBuffer<Global>,
    members: Vec<Member>,
    /// The members whose values the update changed.
    changed: TextBuffer<Global>,
}

/// Appends a member of the image before an update, and notes where it is. Returns the bytes after the cell.
fn keep<'a>(
    alloc: Global,
    columns: Columns<'_>,
    field: ImageField<'a>,
    text: &mut TextBuffer<Global>,
    members: &mut Vec<Member>,
) -> Result<&'a [u8], RowsError>
    ensures ok { IfOk result (λ rest. KeepsMember (columns_in columns.entry) field.entry rest.now (text_in text.old) (text_in text.new) members.old.items members.new.items) }
    ensures err { IfErr result (λ e. IsFieldError e field.entry.is_null field.entry.format field.entry.bytes.now) }
{
    let column = columns.get(field.column);
    let start = text.len();
    let Ok(()) = text.put_text(&column.key) else {
        return Err(RowsError::Memory);
    };
    let value = text.len();
    let rest = match put_field(alloc, column, field, text) {
        Ok(rest) => rest,
        Err(fault) => return Err(fault),
    };
    let member = Member {
        column: field.column,
        start,
        value,
        end: text.len(),
    };
    match members.push(member) {
        Ok(()) => Ok(rest),
        Err(_) => Err(RowsError::Memory),
    }
}

/// Appends the first members, as long as their columns are before this one, and returns the others and what is before the next member.
fn put_unset<'m>(
    text: &[u8],
    members: &'m [Member],
    column: u32,
    separator: Separator,
    out: &mut TextBuffer<Global>,
) -> Result<(&'m [Member], Separator), AllocError>
    ensures { IfOk result (λ r. (table : List ColumnView) (cells : List CellJson) → AreMembers table text.now members.now cells → PutsFirst table text.now column separator r.1 r.0.now cells (text_in out.old) (text_in out.new)) }
{
    let mut left = members;
    let mut separator = separator;
    while let Some((member, after)) = left.split_first() {
        if member.column >= column {
            break;
        }
        separator = put_whole(text, *member, separator, out)?;
        left = after;
    }
    Ok((left, separator))
}

/// Appends all of these members, and returns what is before the next member.
fn put_all(
    text: &[u8],
    members: &[Member],
    separator: Separator,
    out: &mut TextBuffer<Global>,
) -> Result<Separator, AllocError>
    ensures { IfOk result (λ then. (table : List ColumnView) (cells : List CellJson) → AreMembers table text.now members.now cells → PutsAll table separator then cells (text_in out.old) (text_in out.new)) }
{
    let mut left = members;
    let mut separator = separator;
    while let Some((member, after)) = left.split_first() {
        separator = put_whole(text, *member, separator, out)?;
        left = after;
    }
    Ok(separator)
}

/// Appends a member, and returns what is before the next one.
fn put_whole(
    text: &[u8],
    member: Member,
    separator: Separator,
    out: &mut TextBuffer<Global>,
) -> Result<Separator, AllocError>
    ensures comma { IfOk result (λ then. then ≡ Comma) }
    ensures text { OnOk result ((table : List ColumnView) (x : CellJson) → IsMember table text.now member x → text_in out.new ≡ text_in out.old ++ separator_byte separator ∷ member_json table x) }
{
    let byte = match separator {
        Separator::Brace => b'{',
        Separator::Comma => b',',
    };
    out.put(byte)?;
    out.put_text(member.whole(text))?;
    Ok(Separator::Comma)
}

/// What is before the next member of an object with this text.
fn separator_after(text: &TextBuffer<Global>) -> Separator
    ensures { (table : List ColumnView) (cells : List CellJson) → text_in text.now ≡ members_json table cells → result ≡ separator_of Brace cells }
{
    if text.len() == 0 {
        Separator::Brace
    } else {
        Separator::Comma
    }
}

/// Compares a value after the update with that of the same column, if the members begin with it, and adds that to the old members if it is
/// another. Returns the members after it.
fn compare<'m>(
    text: &[u8],
    members: &'m [Member],
    column: u32,
    after: &[u8],
    old: &mut TextBuffer<Global>,
) -> Result<&'m [Member], AllocError>
    ensures { IfOk result (λ left. (table : List ColumnView) (cells changed : List CellJson) (y : CellJson) → AreMembers table text.now members.now cells → IsFrom column cells → y.column ≡ column → y.json ≡ after.now → text_in old.old ≡ members_json table changed
        → Compares table text.now y left.now cells changed (text_in old.new)) }
{
    let Some((member, left)) = members.split_first() else {
        return Ok(members);
    };
    if member.column != column {
        return Ok(members);
    }
    if member.value(text) == after {
        return Ok(left);
    }
    put_whole(text, *member, separator_after(old), old)?;
    Ok(left)
}

impl Before {
    ghost use Rattle.changes_lines.specs.Updates.{ReadsBefore, HasBefore, AppendsAfter};

    /// No members.
    pub(crate) fn new(alloc: Global) -> Before {
        Before {
            text: TextBuffer::new(alloc),
            members: Vec::new(alloc),
            changed: TextBuffer::new(alloc),
        }
    }

    /// Reads the image before an update that the bytes begin with, and returns the remaining bytes.
    fn read<'a>(
        &mut self,
        alloc: Global,
        columns: Columns<'_>,
        plan: ImagePlan<'_>,
        bytes: &'a [u8],
    ) -> Result<&'a [u8], RowsError>
        ensures ok { IfOk result (λ rest. ReadsBefore (columns_in columns.entry) (image_shape plan.entry) bytes.now rest.now self.new) }
        ensures err { IfErr result (λ e. IsRowError (image_text_at (image_shape plan.entry) bytes.now) (row_verdict e)) }
    {
        self.text.clear();
        self.members.clear();
        self.changed.clear();
        let mut cells = match ImageCells::of(plan, bytes) {
            Ok(cells) => cells,
            Err(fault) => return Err(fault),
        };
        while let Some(field) = cells.next_field() {
            match keep(alloc, columns, field, &mut self.text, &mut self.members) {
                Ok(rest) => cells.skip_field(rest),
                Err(fault) => return Err(fault),
            }
        }
        Ok(cells.rest())
    }

    /// Appends the object of the row after an update whose image before it was read, and returns the bytes after its image.
    fn put_after<'a>(
        &mut self,
        alloc: Global,
        columns: Columns<'_>,
        plan: ImagePlan<'_>,
        bytes: &'a [u8],
        out: &mut TextBuffer<Global>,
    ) -> Result<&'a [u8], RowsError>
        ensures ok { IfOk result (λ rest. (cells : List CellJson) → HasBefore (columns_in columns.entry) self.old cells → AppendsAfter (columns_in columns.entry) (image_shape plan.entry) bytes.now rest.now (text_in out.old) (text_in out.new) cells (text_in self.new.changed)) }
        ensures err { IfErr result (λ e. IsRowError (image_text_at (image_shape plan.entry) bytes.now) (row_verdict e)) }
    {
        let mut cells = match ImageCells::of(plan, bytes) {
            Ok(cells) => cells,
            Err(fault) => return Err(fault),
        };
        let text = self.text.as_slice();
        let mut members = self.members.as_slice();
        let mut separator = Separator::Brace;
        while let Some(field) = cells.next_field() {
            match put_next(
                alloc,
                columns,
                field,
                (text, members, separator),
                out,
                &mut self.changed,
            ) {
                Ok((rest, left)) => {
                    cells.skip_field(rest);
                    members = left;
                }
                Err(fault) => return Err(fault),
            }
            separator = Separator::Comma;
        }
        let Ok(()) = put_last(text, members, separator, out) else {
            return Err(RowsError::Memory);
        };
        Ok(cells.rest())
    }

    /// Appends the object of what the update changed.
    fn put_old(&self, out: &mut TextBuffer<Global>) -> Result<(), AllocError>
        ensures { OnOk result ((table : List ColumnView) (changed : List CellJson) → text_in self.now.changed ≡ members_json table changed → text_in out.new ≡ text_in out.old ++ (codes ",\"old\":" ++ object_json table changed)) }
    {
        out.put_text(b",\"old\":")?;
        out.put_text(self.changed.as_slice())?;
        put_end(separator_after(&self.changed), out)
    }

    /// Appends the update that the bytes begin with: the row after it, and what it changed; returns the remaining bytes.
    pub(crate) fn put_update<'a>(
        &mut self,
        alloc: Global,
        columns: Columns<'_>,
        first: ImagePlan<'_>,
        second: ImagePlan<'_>,
        bytes: &'a [u8],
        out: &mut TextBuffer<Global>,
    ) -> Result<&'a [u8], RowsError>
        ensures ok { IfOk result (λ rest. AppendsRow (columns_in columns.entry) (image_shape first.entry ∷ image_shape second.entry ∷ []) bytes.now rest.now (text_in out.old) (text_in out.new)) }
        ensures err { IfErr result (λ e. IsRowError (images_texts_at (image_shape first.entry ∷ image_shape second.entry ∷ []) bytes.now) (row_verdict e)) }
    {
        let middle = match self.read(alloc, columns, first, bytes) {
            Ok(middle) => middle,
            Err(fault) => return Err(fault),
        };
        let rest = match self.put_after(alloc, columns, second, middle, out) {
            Ok(rest) => rest,
            Err(fault) => return Err(fault),
        };
        match self.put_old(out) {
            Ok(()) => Ok(rest),
            Err(_) => Err(RowsError::Memory),
        }
    }
}

/// Appends the last of the members before an update, and the end of the object.
fn put_last(
    text: &[u8],
    members: &[Member],
    separator: Separator,
    out: &mut TextBuffer<Global>,
) -> Result<(), AllocError>
    ensures { OnOk result ((table : List ColumnView) (cells : List CellJson) → AreMembers table text.now members.now cells → text_in out.new ≡ text_in out.old ++ (members_after table separator cells ++ separator_end (separator_of separator cells))) }
{
    let separator = put_all(text, members, separator, out)?;
    put_end(separator, out)
}

/// Appends the next member of the row after an update, after those that the update didn't set, and compares it with that before the
/// update. `before` is the text before it, the members that are left, and what is before the next member of the row. Returns the bytes
/// after the cell, and the members that are left then.
fn put_next<'a, 'm>(
    alloc: Global,
    columns: Columns<'_>,
    field: ImageField<'a>,
    before: (&'m [u8], &'m [Member], Separator),
    out: &mut TextBuffer<Global>,
    old: &mut TextBuffer<Global>,
) -> Result<(&'a [u8], &'m [Member]), RowsError>
    ensures ok { IfOk result (λ r. (json : List ℕ) × ReadsCell (columns_in columns.entry) field.entry r.0.now json × ((cells changed : List CellJson) → AreMembers (columns_in columns.entry) before.entry.0.now before.entry.1.now cells → text_in old.old ≡ members_json (columns_in columns.entry) changed
        → StepsOver (columns_in columns.entry) before.entry.0.now (cell_of field.entry json) before.entry.2 r.1.now cells changed (text_in out.old) (text_in out.new) (text_in old.new))) }
    ensures err { IfErr result (λ e. IsFieldError e field.entry.is_null field.entry.format field.entry.bytes.now) }
{
    let (text, members, separator) = before;
    let column = columns.get(field.column);
    let Ok((left, separator)) = put_unset(text, members, field.column, separator, out) else {
        return Err(RowsError::Memory);
    };
    let Ok(()) = put_key(separator, column, out) else {
        return Err(RowsError::Memory);
    };
    let value = out.len();
    let rest = match put_field(alloc, column, field, out) {
        Ok(rest) => rest,
        Err(fault) => return Err(fault),
    };
    let after = out.as_slice().get(value..).unwrap_or(&[]);
    match compare(text, left, field.column, after, old) {
        Ok(left) => Ok((rest, left)),
        Err(_) => Err(RowsError::Memory),
    }
}
