//! Prints the lines of a rows event.

ghost use Rattle.std.specs.Prelude.{◌≡◌, ◌≤◌, ◌++◌, ℕ, List, length, IfOk, IfErr, OnOk};
ghost use Rattle.rows_cells.specs.ImageViews.{image_shape};
ghost use Rattle.rows_cells.specs.RowViews.{row_shape};
ghost use Rattle.feed_text.specs.Buffers.{text_in};
ghost use Rattle.feed_transactions.specs.RowLines.{row_verdict, IsRowError, image_text_at, images_texts_at, row_texts_at, rows_texts_at, PutsImage, PutsImages, PutsRow, PutsLines, IsRowsError, IsAppendedSoFar};

use feed_checks::Verdict;
use feed_text::TextBuffer;
use rows_cells::{ImageCells, ImagePlan, RowPlan};
use rows_errors::RowsError;
use std::alloc::{Allocator, Global};

/// The feed's verdict for an error in the rows of an event, which are read from its bytes in memory: `Memory`, else `Row`.
///
/// `Verdict::from` differs for `Read`, which stays `Read`: it takes the error of any reader, and here none can fail.
#[inline(always)]
pub fn row_verdict(fault: RowsError) -> Verdict
    ensures { result ≡ row_verdict fault }
{
    match fault {
        RowsError::Memory => Verdict::Memory,
        _ => Verdict::Row,
    }
}

/// Appends the text of the image at the start of the bytes, and returns the remaining bytes.
fn put_image<'a, A: Allocator>(
    alloc: Global,
    plan: ImagePlan<'_>,
    bytes: &'a [u8],
    text: &mut TextBuffer<A>,
) -> Result<&'a [u8], Verdict>
    ensures ok { IfOk result (λ rest. PutsImage (image_shape plan.entry) bytes.now rest.now (text_in text.old) (text_in text.new)) }
    ensures err { IfErr result (IsRowError (image_text_at (image_shape plan.entry) bytes.now)) }
{
    let mut cells = match ImageCells::of(plan, bytes) {
        Ok(cells) => cells,
        Err(fault) => return Err(row_verdict(fault)),
    };
    match text.put_cells(alloc, &mut cells) {
        Ok(()) => Ok(cells.rest()),
        Err(fault) => Err(row_verdict(fault)),
    }
}

/// Appends the texts of a row's images, with ` to` between the two of an update, and returns the remaining bytes.
fn put_images<'a, A: Allocator>(
    alloc: Global,
    plan: RowPlan<'_>,
    bytes: &'a [u8],
    text: &mut TextBuffer<A>,
) -> Result<&'a [u8], Verdict>
    ensures ok { IfOk result (λ rest. PutsImages (row_shape plan.entry) bytes.now rest.now (text_in text.old) (text_in text.new)) }
    ensures err { IfErr result (IsRowError (images_texts_at (row_shape plan.entry) bytes.now)) }
{
    let rest = put_image(alloc, plan.first, bytes, text)?;
    let Some(second) = plan.second else {
        return Ok(rest);
    };
    text.put_text(b" to")?;
    put_image(alloc, second, rest, text)
}

/// Appends the text of the row at the start of the bytes, and returns the remaining bytes.
fn put_row<'a, A: Allocator>(
    alloc: Global,
    plan: RowPlan<'_>,
    bytes: &'a [u8],
    text: &mut TextBuffer<A>,
) -> Result<&'a [u8], Verdict>
    ensures ok { IfOk result (λ rest. PutsRow (row_shape plan.entry) bytes.now rest.now (text_in text.old) (text_in text.new)) }
    ensures err { IfErr result (IsRowError (row_texts_at (row_shape plan.entry) bytes.now)) }
{
    let rest = put_images(alloc, plan, bytes, text)?;
    if rest.len() >= bytes.len() {
        return Err(Verdict::Row);
    }
    Ok(rest)
}

/// Appends the lines of the first rows, as long as a row has one image and the texts of its cells are short; returns the bytes
/// from the next row on. It appends none unless `is_tried`.
#[inline(always)]
fn put_short_lines<'a, A: Allocator>(
    plan: RowPlan<'_>,
    is_tried: bool,
    start: &[u8],
    rows_data: &'a [u8],
    text: &mut TextBuffer<A>,
) -> &'a [u8]
    ensures lines { (bytes before : List ℕ) → IsAppendedSoFar (row_shape plan.entry) start.now bytes rows_data.now before (text_in text.old)
        → IsAppendedSoFar (row_shape plan.entry) start.now bytes result.now before (text_in text.new) }
    ensures most { length result.now ≤ length rows_data.now }
{
    if !is_tried {
        return rows_data;
    }
    match plan.second {
        None => text.put_short_rows(plan.first, start, rows_data),
        Some(_) => rows_data,
    }
}

/// Appends a line for each row of the rows data, up to its end. Each line begins with `start`.
#[inline(always)]
pub(crate) fn put_lines<A: Allocator>(
    alloc: Global,
    plan: RowPlan<'_>,
    start: &[u8],
    rows_data: &[u8],
    text: &mut TextBuffer<A>,
) -> Result<(), Verdict>
    ensures ok { OnOk result (PutsLines (row_shape plan.entry) start.now rows_data.now (text_in text.old) (text_in text.new)) }
    ensures err { IfErr result (IsRowsError (rows_texts_at (row_shape plan.entry) rows_data.now)) }
{
    let rest = put_short_lines(plan, true, start, rows_data, text);
    if rest.is_empty() {
        return Ok(());
    }
    put_other_lines(alloc, plan, rest.len() < rows_data.len(), start, rest, text)
}

/// Appends a line for each of the remaining rows, up to their end, after those of the first rows. After a row that isn't short it
/// tries short rows again, if `is_tried` or if there was one the last time.
#[inline(never)]
fn put_other_lines<A: Allocator>(
    alloc: Global,
    plan: RowPlan<'_>,
    is_tried: bool,
    start: &[u8],
    rows_data: &[u8],
    text: &mut TextBuffer<A>,
) -> Result<(), Verdict>
    ensures ok { (bytes before : List ℕ) → IsAppendedSoFar (row_shape plan.entry) start.now bytes rows_data.now before (text_in text.old)
        → OnOk result (PutsLines (row_shape plan.entry) start.now bytes before (text_in text.new)) }
    ensures err { (bytes before : List ℕ) → IsAppendedSoFar (row_shape plan.entry) start.now bytes rows_data.now before (text_in text.old)
        → IfErr result (IsRowsError (rows_texts_at (row_shape plan.entry) bytes)) }
{
    let mut rest = rows_data;
    let mut is_tried = is_tried;
    while !rest.is_empty() {
        text.put_text(start)?;
        let next = put_row(alloc, plan, rest, text)?;
        text.put(b'\n')?;
        rest = put_short_lines(plan, is_tried, start, next, text);
        is_tried = rest.len() < next.len();
    }
    Ok(())
}
