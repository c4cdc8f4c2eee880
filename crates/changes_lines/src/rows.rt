//! The rows of an event as JSON.

ghost use Rattle.std.specs.Prelude.{◌≡◌, ◌≤◌, ◌++◌, ◌∷◌, [], IfOk, IfErr, OnOk, List, ℕ, length};
ghost use Rattle.rows_cells.specs.RowViews.{row_shape};
ghost use Rattle.feed_transactions.specs.CheckedRows.{HaveTexts};
ghost use Rattle.feed_text.specs.Buffers.{text_in};
ghost use Rattle.feed_transactions.specs.RowLines.{row_verdict, IsRowError, IsRowsError, images_texts_at, rows_texts_at};
ghost use Rattle.changes_lines.specs.ReadRows.{AddsAllRead, AddsRead, AppendsRow};
ghost use Rattle.changes_lines.specs.ShortMembers.{HaveTextsSoFar};
ghost use Rattle.changes_lines.specs.TableColumns.{columns_in};
ghost use Rattle.changes_lines.specs.TextLists.{HasTexts, ended};

use crate::columns::Columns;
use crate::images::put_image;
use crate::short_rows::put_short_rows;
use crate::text_list::TextList;
use crate::updates::Before;
use feed_checks::Verdict;
use feed_text::TextBuffer;
use feed_transactions::row_verdict;
use rows_cells::RowPlan;
use rows_errors::RowsError;
use std::alloc::{AllocError, Global};

/// What ends a row and its line.
pub(crate) const END: &[u8] = b"}\n";

/// Appends the row that the bytes begin with, and returns the remaining bytes.
pub(crate) fn put_row<'a>(
    alloc: Global,
    columns: Columns<'_>,
    plan: RowPlan<'_>,
    bytes: &'a [u8],
    before: &mut Before,
    text: &mut TextBuffer<Global>,
) -> Result<&'a [u8], RowsError>
    ensures ok { IfOk result (λ rest. AppendsRow (columns_in columns.entry) (row_shape plan.entry) bytes.now rest.now (text_in text.old) (text_in text.new)) }
    ensures err { IfErr result (λ e. IsRowError (images_texts_at (row_shape plan.entry) bytes.now) (row_verdict e)) }
{
    match plan.second {
        None => put_image(alloc, columns, plan.first, bytes, text),
        Some(second) => before.put_update(alloc, columns, plan.first, second, bytes, text),
    }
}

/// Adds texts for the first rows, as long as a row has one image and its cells are short; returns the bytes after these rows.
#[inline(always)]
fn put_first_rows<'a>(
    columns: Columns<'_>,
    plan: RowPlan<'_>,
    rows_data: &'a [u8],
    texts: &mut TextList,
) -> Result<&'a [u8], AllocError>
    ensures rows { IfOk result (λ rest. (bytes : List ℕ) → HaveTextsSoFar (row_shape plan.entry) bytes rows_data.now → HaveTextsSoFar (row_shape plan.entry) bytes rest.now) }
    ensures json { IfOk result (λ rest. AddsRead (columns_in columns.entry) (row_shape plan.entry) texts.old rows_data.now rest.now texts.new) }
    ensures most { IfOk result (λ rest. length rest.now ≤ length rows_data.now) }
{
    match plan.second {
        None => put_short_rows(columns, plan.first, rows_data, texts),
        Some(_) => Ok(rows_data),
    }
}

/// Adds a text for each row of an event.
///
/// - `Row`: a row can't be read, can't be printed, or takes no bytes.
/// - `Memory`: out of memory.
#[inline(always)]
pub(crate) fn put_rows(
    alloc: Global,
    columns: Columns<'_>,
    plan: RowPlan<'_>,
    rows_data: &[u8],
    before: &mut Before,
    texts: &mut TextList,
) -> Result<(), Verdict>
    ensures ok { OnOk result (HaveTexts (row_shape plan.entry) rows_data.now) }
    ensures json { OnOk result (AddsAllRead (columns_in columns.entry) (row_shape plan.entry) rows_data.now texts.old texts.new) }
    ensures err { IfErr result (IsRowsError (rows_texts_at (row_shape plan.entry) rows_data.now)) }
{
    let mut rest = match put_first_rows(columns, plan, rows_data, texts) {
        Ok(rest) => rest,
        Err(_) => return Err(Verdict::Memory),
    };
    while !rest.is_empty() {
        let next = match put_row(alloc, columns, plan, rest, before, &mut texts.buffer) {
            Ok(next) => next,
            Err(fault) => return Err(row_verdict(fault)),
        };
        if next.len() >= rest.len() {
            return Err(Verdict::Row);
        }
        let Ok(()) = end_row(texts) else {
            return Err(Verdict::Memory);
        };
        rest = match put_first_rows(columns, plan, next, texts) {
            Ok(rest) => rest,
            Err(_) => return Err(Verdict::Memory),
        };
    }
    Ok(())
}

/// Ends the text of a row.
#[inline(always)]
pub(crate) fn end_row(texts: &mut TextList) -> Result<(), AllocError>
    ensures { OnOk result ((before : List (List ℕ)) (json : List ℕ) → HasTexts texts.old before json → HasTexts texts.new (before ++ ended json ∷ []) []) }
{
    texts.buffer.put_text(END)?;
    texts.close()
}
