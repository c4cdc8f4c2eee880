//! The lines of rows of one image.
//!
//! Rows with short cells are written in one loop, with one test for room in a row. The loop ends at a row with a cell whose text may
//! be long; the caller writes that row cell by cell, and then tries the loop again, unless it found no short row.

ghost use Rattle.std.specs.Prelude.{◌≤◌, ◌+◌, length};
ghost use Rattle.rows_cells.specs.ImageViews.{image_shape};
ghost use Rattle.feed_text.specs.Buffers.{text_in};
ghost use Rattle.feed_text.specs.RowText.{WritesRowOrNone, AppendsRows};

use crate::buffer::TextBuffer;
use crate::images::{FIELD_LEN_MAX, put_fields};
use feed_writers::{put_byte, put_bytes};
use rows_cells::{ImageCells, ImagePlan};
use std::alloc::Allocator;

/// Writes the line of the row at the start of the bytes, if the text of each of its cells is short and there is room for it.
/// Returns the offset of the line's end, and the remaining bytes. `None` is also for a row that can't be read or takes no bytes.
#[inline(always)]
fn put_short_row<'a>(
    text: &mut [u8],
    at: usize,
    plan: ImagePlan<'_>,
    start: &[u8],
    bytes: &'a [u8],
) -> Option<(usize, &'a [u8])>
    requires { at + length start.now ≤ length text.old }
    ensures { WritesRowOrNone (image_shape plan.entry) start.now bytes.now at text.old text.new result }
{
    let Ok(cells) = ImageCells::of(plan, bytes) else {
        return None;
    };
    let begun = put_bytes(text, at, start);
    let (end, left) = put_fields(text, begun, cells);
    if left.len() > 0 || left.rest().len() >= bytes.len() || end >= text.len() {
        return None;
    }
    Some((put_byte(text, end, b'\n'), left.rest()))
}

impl<A: Allocator> TextBuffer<A> {
    /// Appends a line for each of some first rows, none to all of them, and returns the bytes after these rows; the caller appends
    /// the others. Each line begins with `start`. It stops at a row that has a cell whose text may be long, that can't be read or
    /// takes no bytes, and at one that there is no memory for.
    #[inline(never)]
    pub fn put_short_rows<'a>(
        &mut self,
        plan: ImagePlan<'_>,
        start: &[u8],
        rows: &'a [u8],
    ) -> &'a [u8]
        ensures { AppendsRows (image_shape plan.entry) start.now rows.now result.now (text_in self.old) (text_in self.new) }
    {
        let cells_room = plan.columns.len().saturating_mul(FIELD_LEN_MAX);
        let room = cells_room.saturating_add(start.len() + 1);
        let mut rest = rows;
        while !rest.is_empty() {
            let Ok(()) = self.reserve(room) else {
                break;
            };
            let text = self.bytes.as_mut_slice();
            let Some((end, after)) = put_short_row(text, self.len, plan, start, rest) else {
                break;
            };
            self.len = end;
            rest = after;
        }
        rest
    }
}
