//! Rows of one image whose cells are all short, in one loop.

ghost use Rattle.std.specs.Prelude.{◌≡◌, ◌≤◌, ◌+◌, ◌*◌, ◌∷◌, ◌++◌, List, ℕ, [], IfNone, IfSome, IfOk, length, take};
ghost use Rattle.rows_cells.specs.ImageViews.{image_shape, cells_count};
ghost use Rattle.changes_tables.specs.ShownColumns.{column_view};
ghost use Rattle.changes_lines.specs.TableColumns.{columns_in};
ghost use Rattle.changes_lines.specs.ReadRows.{AddsRead};
ghost use Rattle.changes_lines.specs.ShortMembers.{MayWriteMembers, MayWriteRow, HaveTextsSoFar};

use crate::columns::Columns;
use crate::members::Separator;
use crate::text_list::TextList;
use changes_cells::{FIELD_LEN_MAX, put_short_field};
use changes_tables::{LABEL_LEN, ShownColumn};
use feed_text::WritingInRoom;
use feed_writers::{put_byte, put_bytes};
use rows_cells::{ImageCells, ImagePlan};
use std::alloc::AllocError;

/// The room for a member.
const MEMBER_LEN: usize = 1 + LABEL_LEN + FIELD_LEN_MAX;

/// The room for the end of a row.
const END_LEN: usize = 3;

/// A row of one image.
#[derive(Clone, Copy)]
struct ShortRow<'c, 'p, 'a> {
    columns: Columns<'c>,
    plan: ImagePlan<'p>,
    bytes: &'a [u8],
}

/// Writes the room of a key. It is copied first: a value can't overlap the text.
#[inline(always)]
fn put_whole(text: &mut [u8], at: usize, label: [u8; LABEL_LEN]) -> usize
    requires { at + 32 ≤ length text.old }
    ensures end { result ≡ at + 32 }
    ensures text { take result text.new ≡ take at text.old ++ label }
{
    put_bytes(text, at, &label)
}

/// Writes the key of a column, if it is short.
#[inline(always)]
fn put_label(text: &mut [u8], at: usize, column: &ShownColumn) -> Option<usize>
    requires { at + 32 ≤ length text.old }
    ensures from { IfSome result (λ end. at ≤ end) }
    ensures most { IfSome result (λ end. end ≤ at + 32) }
    ensures text { IfSome result (λ end. take end text.new ≡ take at text.old ++ (column_view column.now).key) }
    ensures none { IfNone result (text.new ≡ text.old) }
{
    let len = column.key.len();
    if len > LABEL_LEN {
        return None;
    }
    let _end = put_whole(text, at, column.label);
    Some(at + len)
}

/// Writes the members of an image whose cells are all short, up to the end of the object; returns the offset of the last member's end,
/// and the bytes after the image.
#[inline(always)]
fn put_members<'a>(
    text: &mut [u8],
    at: usize,
    columns: Columns<'_>,
    cells: ImageCells<'_, 'a>,
) -> Option<(usize, &'a [u8])>
    requires { at + 433 * cells_count cells ≤ length text.old }
    ensures { MayWriteMembers (columns_in columns.entry) cells.entry at text.old text.new result }
{
    let mut end = at;
    let mut separator = b'{';
    let mut left = cells;
    while let Some(field) = left.next_plain_field() {
        let column = columns.get(field.column);
        let begun = put_byte(text, end, separator);
        let Some(start) = put_label(text, begun, column) else {
            return None;
        };
        let Some((after, rest)) = put_short_field(text, start, column, field) else {
            return None;
        };
        end = after;
        separator = b',';
        left.skip_field(rest);
    }
    if left.len() > 0 {
        return None;
    }
    Some((end, left.rest()))
}

impl<'a> WritingInRoom for ShortRow<'_, '_, 'a> {
    type Left = Option<&'a [u8]>;

    ghost Wrote = { MayWriteRow };

    #[inline(always)]
    fn put(self, text: &mut [u8], at: usize) -> (usize, Option<&'a [u8]>) {
        let Ok(cells) = ImageCells::of(self.plan, self.bytes) else {
            return (at, None);
        };
        if text.len() - at < (cells.len() + 1).saturating_mul(MEMBER_LEN) || cells.len() == 0 {
            return (at, None);
        }
        let Some((end, rest)) = put_members(text, at, self.columns, cells) else {
            return (at, None);
        };
        if rest.len() >= self.bytes.len() {
            return (at, None);
        }
        let end = put_byte(text, end, b'}');
        let end = put_byte(text, end, b'}');
        (put_byte(text, end, b'\n'), Some(rest))
    }
}

/// Adds a text for each of some first rows, none to all of them, and returns the bytes after these rows. It stops at a row with a cell
/// whose text may be long, that can't be read or takes no bytes, and at one that there is no memory for.
#[inline(never)]
pub(crate) fn put_short_rows<'a>(
    columns: Columns<'_>,
    plan: ImagePlan<'_>,
    rows: &'a [u8],
    texts: &mut TextList,
) -> Result<&'a [u8], AllocError>
    ensures rows { IfOk result (λ rest. (bytes : List ℕ) → HaveTextsSoFar (image_shape plan.entry ∷ []) bytes rows.now → HaveTextsSoFar (image_shape plan.entry ∷ []) bytes rest.now) }
    ensures json { IfOk result (λ rest. AddsRead (columns_in columns.entry) (image_shape plan.entry ∷ []) texts.old rows.now rest.now texts.new) }
    ensures most { IfOk result (λ rest. length rest.now ≤ length rows.now) }
{
    let room = (plan.columns.len() + 1).saturating_mul(MEMBER_LEN);
    let mut rest = rows;
    while !rest.is_empty() {
        let row = ShortRow {
            columns,
            plan,
            bytes: rest,
        };
        let Some(after) = texts.buffer.put_in_room(room, row) else {
            break;
        };
        texts.close()?;
        rest = after;
    }
    Ok(rest)
}
