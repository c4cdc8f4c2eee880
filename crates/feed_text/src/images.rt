//! The text of an image's cells.

ghost use Rattle.std.specs.Prelude.{◌≡◌, ◌≤◌, OnOk, IfOk, IfErr, length};
ghost use Rattle.feed_text.specs.Buffers.{text_in};
ghost use Rattle.feed_text.specs.ImageText.{WritesFields, AppendsFields, PutsCells, StopsWithin, IsCellsError};

use crate::buffer::TextBuffer;
use crate::cells::{LABEL_LEN_MAX, put_label};
use crate::fields::{VALUE_LEN_MAX, put_field};
use rows_cells::ImageCells;
use rows_errors::RowsError;
use std::alloc::{Allocator, Global};

/// The maximum length of a label and a short text, in bytes.
pub(crate) const FIELD_LEN_MAX: usize = LABEL_LEN_MAX + VALUE_LEN_MAX;

/// Writes the texts of cells as long as each is short; returns the offset of the end, and the remaining cells. If there isn't
/// room for that many short texts, none is written.
#[inline(always)]
pub(crate) fn put_fields<'p, 'a>(
    text: &mut [u8],
    at: usize,
    cells: ImageCells<'p, 'a>,
) -> (usize, ImageCells<'p, 'a>)
    requires { at ≤ length text.old }
    ensures { WritesFields cells.entry result.1 at text.old text.new result.0 }
{
    if (text.len() - at) / FIELD_LEN_MAX < cells.len() {
        return (at, cells);
    }
    let mut end = at;
    let mut left = cells;
    while let Some(field) = left.next_plain_field() {
        let start = put_label(text, end, field.column);
        let Some((after, rest)) = put_field(text, start, field) else {
            break;
        };
        end = after;
        left.skip_field(rest);
    }
    (end, left)
}

impl<A: Allocator> TextBuffer<A> {
    /// Appends the texts of an image's remaining cells in order, as [`TextBuffer::put_cell`] does for one, and consumes them. An
    /// error appends and consumes nothing:
    ///
    /// - Those of `ImageCells::next_cell`: a cell can't be read.
    /// - `Memory`: out of memory.
    /// - `Jsonb`: a cell is a JSON document that can't be parsed.
    ///
    /// It allocates only to lengthen the buffer and for the trees of JSON documents.
    pub fn put_cells(
        &mut self,
        alloc: Global,
        cells: &mut ImageCells<'_, '_>,
    ) -> Result<(), RowsError>
        ensures ok { OnOk result (PutsCells cells.old cells.new (text_in self.old) (text_in self.new)) }
        ensures err { IfErr result (λ e. IsCellsError e cells.old cells.new (text_in self.old) (text_in self.new)) }
    {
        let start = self.len();
        match self.put_remaining(alloc, *cells) {
            Ok(left) => {
                *cells = left;
                Ok(())
            }
            Err(fault) => {
                self.truncate(start);
                Err(fault)
            }
        }
    }

    /// Appends the texts of all the cells, and returns what follows the last. An error may leave the texts of the first few.
    #[inline(always)]
    fn put_remaining<'p, 'a>(
        &mut self,
        alloc: Global,
        cells: ImageCells<'p, 'a>,
    ) -> Result<ImageCells<'p, 'a>, RowsError>
        ensures ok { IfOk result (λ left. PutsCells cells.entry left (text_in self.old) (text_in self.new)) }
        ensures err { IfErr result (λ e. StopsWithin e cells.entry (text_in self.old) (text_in self.new)) }
    {
        let mut left = cells;
        loop {
            left = self.put_short_cells(left);
            match left.next_cell() {
                Ok(Some((column, cell))) => match self.put_cell(alloc, column, cell) {
                    Ok(()) => {}
                    Err(fault) => return Err(fault),
                },
                Ok(None) => return Ok(left),
                Err(fault) => return Err(fault),
            }
        }
    }

    /// Appends the texts of cells as long as each is short, and returns the remaining cells. It reserves room for all of them at
    /// once; if there is no memory for that, it appends none, and the caller reserves room for each cell.
    #[inline(always)]
    fn put_short_cells<'p, 'a>(&mut self, cells: ImageCells<'p, 'a>) -> ImageCells<'p, 'a>
        ensures { AppendsFields cells.entry result (text_in self.old) (text_in self.new) }
    {
        let _asked = self.reserve(cells.len().saturating_mul(FIELD_LEN_MAX));
        let (end, left) = put_fields(self.bytes.as_mut_slice(), self.len, cells);
        self.len = end;
        left
    }
}
