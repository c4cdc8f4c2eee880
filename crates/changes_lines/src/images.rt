//! A row of one image as JSON.

ghost use Rattle.std.specs.Prelude.{◌≡◌, IfOk, IfErr, length, take};
ghost use Rattle.rows_cells.specs.ImageViews.{image_shape};
ghost use Rattle.feed_text.specs.Buffers.{text_in};
ghost use Rattle.feed_transactions.specs.RowLines.{row_verdict, IsRowError, image_text_at};
ghost use Rattle.changes_lines.specs.TableColumns.{columns_in};
ghost use Rattle.changes_lines.specs.ReadCells.{AppendsImage};

use crate::columns::Columns;
use crate::members::{Separator, put_end, put_member};
use feed_text::TextBuffer;
use rows_cells::{ImageCells, ImagePlan};
use rows_errors::RowsError;
use std::alloc::Global;

/// Appends the object of the image that the bytes begin with, and returns the remaining bytes. An error may leave a part of it.
pub(crate) fn put_image<'a>(
    alloc: Global,
    columns: Columns<'_>,
    plan: ImagePlan<'_>,
    bytes: &'a [u8],
    text: &mut TextBuffer<Global>,
) -> Result<&'a [u8], RowsError>
    ensures ok { IfOk result (λ rest. AppendsImage (columns_in columns.entry) (image_shape plan.entry) bytes.now rest.now (text_in text.old) (text_in text.new)) }
    ensures err { IfErr result (λ e. IsRowError (image_text_at (image_shape plan.entry) bytes.now) (row_verdict e)) }
    ensures kept { take (length (text_in text.old)) (text_in text.new) ≡ text_in text.old }
{
    let mut cells = match ImageCells::of(plan, bytes) {
        Ok(cells) => cells,
        Err(fault) => return Err(fault),
    };
    let mut separator = Separator::Brace;
    while let Some(field) = cells.next_field() {
        match put_member(alloc, columns, separator, field, text) {
            Ok(rest) => cells.skip_field(rest),
            Err(fault) => return Err(fault),
        }
        separator = Separator::Comma;
    }
    match put_end(separator, text) {
        Ok(()) => Ok(cells.rest()),
        Err(_) => Err(RowsError::Memory),
    }
}
