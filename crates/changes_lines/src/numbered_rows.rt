//! The rows of an event as JSON, with their numbers in the transaction.

ghost use Rattle.std.specs.Prelude.{◌≡◌, ◌++◌, ◌∷◌, [], List, ℕ, OnOk, IfErr, Some, is_some, unwrap_or};
ghost use Rattle.rows_cells.specs.RowViews.{row_shape};
ghost use Rattle.feed_transactions.specs.CheckedRows.{HaveTexts};
ghost use Rattle.feed_text.specs.Buffers.{text_in};
ghost use Rattle.feed_transactions.specs.RowLines.{IsRowsError, rows_texts_at};
ghost use Rattle.changes_lines.specs.ReadRows.{AddsAllRows};
ghost use Rattle.changes_lines.specs.TableColumns.{columns_in};
ghost use Rattle.changes_lines.specs.TextLists.{HasTexts, ended};
ghost use Rattle.changes_lines.specs.FactMembers.{row_member, row_member_if};

use crate::columns::Columns;
use crate::rows::{end_row, put_row, put_rows};
use crate::text_list::TextList;
use crate::updates::Before;
use feed_checks::Verdict;
use feed_text::TextBuffer;
use feed_transactions::row_verdict;
use rows_cells::RowPlan;
use std::alloc::{AllocError, Allocator, Global};

/// Appends the member with the number of a row, after a comma.
fn put_number<A: Allocator>(number: u64, text: &mut TextBuffer<A>) -> Result<(), AllocError>
    ensures { OnOk result (text_in text.new ≡ text_in text.old ++ row_member number) }
{
    text.put_text(b",\"row\":")?;
    text.put_number(number)
}

/// Appends the member with the number of a statement, after a comma, if there is one.
#[inline(always)]
pub(crate) fn put_number_of<A: Allocator>(
    number: Option<u64>,
    text: &mut TextBuffer<A>,
) -> Result<(), AllocError>
    ensures { OnOk result (text_in text.new ≡ text_in text.old ++ row_member_if (is_some number) (unwrap_or number 0)) }
{
    match number {
        Some(number) => put_number(number, text),
        None => Ok(()),
    }
}

/// Ends the text of a row with its number.
fn end_numbered_row(number: u64, texts: &mut TextList) -> Result<(), AllocError>
    ensures { OnOk result ((before : List (List ℕ)) (json : List ℕ) → HasTexts texts.old before json → HasTexts texts.new (before ++ ended (json ++ row_member number) ∷ []) []) }
{
    put_number(number, &mut texts.buffer)?;
    end_row(texts)
}

/// Adds a text for each row of an event, with its number. `rows` is the number of rows before them.
///
/// - `Row`: a row can't be read, can't be printed, or takes no bytes.
/// - `Memory`: out of memory.
fn put_numbered_rows(
    alloc: Global,
    columns: Columns<'_>,
    plan: RowPlan<'_>,
    rows_data: &[u8],
    rows: u64,
    before: &mut Before,
    texts: &mut TextList,
) -> Result<(), Verdict>
    ensures ok { OnOk result (HaveTexts (row_shape plan.entry) rows_data.now) }
    ensures json { OnOk result (AddsAllRows (columns_in columns.entry) (row_shape plan.entry) rows_data.now (Some rows) texts.old texts.new) }
    ensures err { IfErr result (IsRowsError (rows_texts_at (row_shape plan.entry) rows_data.now)) }
{
    let mut rest = rows_data;
    let mut number = rows;
    while !rest.is_empty() {
        let next = match put_row(alloc, columns, plan, rest, before, &mut texts.buffer) {
            Ok(next) => next,
            Err(fault) => return Err(row_verdict(fault)),
        };
        if next.len() >= rest.len() {
            return Err(Verdict::Row);
        }
        let Some(own) = number.checked_add(1) else {
            return Err(Verdict::Memory);
        };
        let Ok(()) = end_numbered_row(own, texts) else {
            return Err(Verdict::Memory);
        };
        number = own;
        rest = next;
    }
    Ok(())
}

/// Adds a text for each row of an event, with its number if there is a numbering: the number of rows before them.
///
/// - `Row`: a row can't be read, can't be printed, or takes no bytes.
/// - `Memory`: out of memory.
#[inline(always)]
pub(crate) fn put_event_rows(
    alloc: Global,
    columns: Columns<'_>,
    plan: RowPlan<'_>,
    rows_data: &[u8],
    numbering: Option<u64>,
    before: &mut Before,
    texts: &mut TextList,
) -> Result<(), Verdict>
    ensures ok { OnOk result (HaveTexts (row_shape plan.entry) rows_data.now) }
    ensures json { OnOk result (AddsAllRows (columns_in columns.entry) (row_shape plan.entry) rows_data.now numbering texts.old texts.new) }
    ensures err { IfErr result (IsRowsError (rows_texts_at (row_shape plan.entry) rows_data.now)) }
{
    match numbering {
        None => put_rows(alloc, columns, plan, rows_data, before, texts),
        Some(rows) => put_numbered_rows(alloc, columns, plan, rows_data, rows, before, texts),
    }
}
