//! Whether all rows of an event can be read and printed.

ghost use Rattle.std.specs.Prelude.{◌≡◌, ◌<◌, Ok, OnOk, IfOk, IfErr, IfSome, IsTrue, IsFalse, List, ℕ};
ghost use Rattle.rows_cells.specs.CellViews.{cell_value, IsReadable};
ghost use Rattle.rows_cells.specs.ImageViews.{image_shape, cells_count};
ghost use Rattle.rows_cells.specs.RowViews.{row_shape};
ghost use Rattle.feed_text.specs.CellText.{cell_text};
ghost use Rattle.feed_transactions.specs.RowLines.{IsRowError, IsRowsError, image_text_at, images_texts_at, rows_texts_at};
ghost use Rattle.feed_transactions.specs.CheckedRows.{is_document, HasCellText, Passes, PassesNext, IsNextError, IsDocumentError, HasImageText, HasImageTexts, HaveTexts, rows_count};

use crate::lines::row_verdict;
use feed_checks::Verdict;
use feed_text::TextBuffer;
use rows_cells::{CellFormat, CellRef, ImageCells, ImageField, ImagePlan, RowPlan, read_signed};
use rows_errors::RowsError;
use std::alloc::Global;

/// Whether a cell is a JSON document, or changes of one.
#[inline(always)]
fn is_document(cell: CellRef<'_>) -> bool
    ensures { result ≡ is_document cell.entry }
{
    matches!(cell, CellRef::Json(_) | CellRef::JsonDiffs(_))
}

/// Checks that a JSON document can be printed. `scratch` is a buffer.
#[inline(always)]
fn check_document(
    alloc: Global,
    column: u32,
    cell: CellRef<'_>,
    scratch: &mut TextBuffer<Global>,
) -> Result<(), RowsError>
    ensures ok { OnOk result ((text : List ℕ) × (cell_text column (cell_value cell.entry) ≡ Ok text)) }
    ensures err { IfErr result (IsDocumentError cell.entry column) }
{
    scratch.clear();
    scratch.put_cell(alloc, column, cell)
}

/// The bytes after a cell, if it is NULL or a signed integer.
#[inline(always)]
fn after_integer<'a>(field: ImageField<'a>) -> Option<&'a [u8]>
    ensures { IfSome result (λ rest. HasCellText field.entry.is_null field.entry.format field.entry.bytes.now rest.now) }
{
    if field.is_null {
        return Some(field.bytes);
    }
    let CellFormat::Signed(width) = field.format else {
        return None;
    };
    let Ok((_, rest)) = read_signed(field.bytes, width) else {
        return None;
    };
    Some(rest)
}

/// Skips the next cell if it is NULL or a signed integer, and returns whether it did.
#[inline(always)]
fn skip_integer(cells: &mut ImageCells<'_, '_>) -> bool
    ensures skips { IsTrue result → Passes cells.old cells.new }
    ensures fewer { IsTrue result → cells_count cells.new < cells_count cells.old }
    ensures unchanged { IsFalse result → cells.new ≡ cells.old }
{
    let Some(field) = cells.next_field() else {
        return false;
    };
    let Some(rest) = after_integer(field) else {
        return false;
    };
    cells.skip_field(rest);
    true
}

/// Reads the next cell, and checks that it can be printed; returns whether there was one.
#[inline(always)]
fn check_next(
    alloc: Global,
    cells: &mut ImageCells<'_, '_>,
    scratch: &mut TextBuffer<Global>,
) -> Result<bool, Verdict>
    ensures ok { IfOk result (λ is_cell. PassesNext cells.old is_cell cells.new) }
    ensures err { IfErr result (IsNextError cells.old) }
{
    match cells.next_cell() {
        Ok(Some((column, cell))) => {
            if !is_document(cell) {
                return Ok(true);
            }
            match check_document(alloc, column, cell, scratch) {
                Ok(()) => Ok(true),
                Err(fault) => Err(row_verdict(fault)),
            }
        }
        Ok(None) => Ok(false),
        Err(fault) => Err(row_verdict(fault)),
    }
}

/// Reads the image at the start of the bytes, and returns the remaining bytes.
#[inline(always)]
fn check_image<'a>(
    alloc: Global,
    plan: ImagePlan<'_>,
    bytes: &'a [u8],
    scratch: &mut TextBuffer<Global>,
) -> Result<&'a [u8], Verdict>
    ensures ok { IfOk result (λ rest. HasImageText (image_shape plan.entry) bytes.now rest.now) }
    ensures err { IfErr result (IsRowError (image_text_at (image_shape plan.entry) bytes.now)) }
{
    let mut cells = match ImageCells::of(plan, bytes) {
        Ok(cells) => cells,
        Err(fault) => return Err(row_verdict(fault)),
    };
    loop {
        if !skip_integer(&mut cells) && !check_next(alloc, &mut cells, scratch)? {
            return Ok(cells.rest());
        }
    }
}

/// Reads a row's images, and returns the remaining bytes.
#[inline(always)]
fn check_images<'a>(
    alloc: Global,
    plan: RowPlan<'_>,
    bytes: &'a [u8],
    scratch: &mut TextBuffer<Global>,
) -> Result<&'a [u8], Verdict>
    ensures ok { IfOk result (λ rest. HasImageTexts (row_shape plan.entry) bytes.now rest.now) }
    ensures err { IfErr result (IsRowError (images_texts_at (row_shape plan.entry) bytes.now)) }
{
    let rest = check_image(alloc, plan.first, bytes, scratch)?;
    let Some(second) = plan.second else {
        return Ok(rest);
    };
    check_image(alloc, second, rest, scratch)
}

/// Reads all rows of an event with these columns, and returns their number. `scratch` is a buffer.
///
/// - `Row`: a row can't be read, can't be printed, or takes no bytes.
/// - `Memory`: out of memory.
pub fn check_rows(
    alloc: Global,
    plan: RowPlan<'_>,
    rows_data: &[u8],
    scratch: &mut TextBuffer<Global>,
) -> Result<usize, Verdict>
    ensures ok { OnOk result (HaveTexts (row_shape plan.entry) rows_data.now) }
    ensures count { IfOk result (λ rows. rows ≡ rows_count (row_shape plan.entry) rows_data.now) }
    ensures err { IfErr result (IsRowsError (rows_texts_at (row_shape plan.entry) rows_data.now)) }
{
    let mut rest = rows_data;
    let mut rows = 0usize;
    while !rest.is_empty() {
        let next = check_images(alloc, plan, rest, scratch)?;
        if next.len() >= rest.len() {
            return Err(Verdict::Row);
        }
        rest = next;
        rows += 1;
    }
    Ok(rows)
}
