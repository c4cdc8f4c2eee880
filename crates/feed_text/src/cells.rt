//! The text of cells.

ghost use Rattle.std.specs.Prelude.{◌≡◌, ◌≤◌, ◌+◌, ◌++◌, None, OnOk, IfErr, IfOk, length, take, map};
ghost use Rattle.rows_errors.specs.declared.fault.RowsError.TheVariants.{Jsonb};
ghost use Rattle.rows_jsonb.specs.JsonTreeViews.{view};
ghost use Rattle.rows_jsonb.specs.DocumentTrees.{document_tree};
ghost use Rattle.rows_jsonb.specs.JsonParsing.{Parses};
ghost use Rattle.rows_cells.specs.CellViews.{cell_value};
ghost use Rattle.feed_writers.specs.Quoting.{quoted};
ghost use Rattle.feed_text.specs.TextPieces.{IsAppendError};
ghost use Rattle.feed_text.specs.DecimalText.{quoted_decimal, IsDecimalError};
ghost use Rattle.rows_jsonb.specs.JsonDiffViews.{diff_view};
ghost use Rattle.feed_text.specs.JsonText.{document_text};
ghost use Rattle.feed_text.specs.DiffText.{diffs_text};
ghost use Rattle.feed_text.specs.ShortTexts.{short_text};
ghost use Rattle.feed_text.specs.ValueText.{value_text};
ghost use Rattle.feed_text.specs.CellText.{label, cell_text, kept_cell_text, Appends, AppendsLabeled, AppendsLabeledReading, IsTextError, IsCellError};
ghost use Rattle.feed_text.specs.NamelessFaults.{IsNamelessDocument, HasNamelessDiff, HasNamelessContent, HasNamelessPart};

use crate::decimals::put_decimal;
use crate::diffs::append_feed_diffs;
use crate::documents::put_json;
use crate::parts::CellContent;
use crate::quoting::quote;
use crate::short::{SHORT_LEN_MAX, Short, put_short};
use crate::values::put_value;
use feed_writers::{put_byte, put_column_label};
use rows_cells::{BinlogValue, CellRef};
use rows_errors::RowsError;
use rows_jsonb::{JsonDiff, JsonDom, Value as JsonbValue, json_diffs};
use rows_values::Value;
use std::alloc::{Allocator, Global};
use wire_buf::ParseBuf;

/// The maximum length of a label in bytes.
pub(crate) const LABEL_LEN_MAX: usize = 22;

/// Appends the text of a cell: a space, its column's index in the table from 0, `=`, and the value as [`put_value`] and
/// [`put_json`] write it. An error appends nothing:
///
/// - `Memory`: out of memory.
/// - `Jsonb`: the value is a JSON document that can't be parsed.
///
/// It allocates only to lengthen `out` and for a JSON document's tree.
pub fn put_cell<A: Allocator>(
    alloc: Global,
    column: u32,
    value: &BinlogValue<'_>,
    out: &mut Vec<u8, A>,
) -> Result<(), RowsError>
    ensures ok { OnOk result (Appends (kept_cell_text column value.now) out.old.items out.new.items) }
    ensures err { IfErr result (λ e. IsTextError e (kept_cell_text column value.now) out.old.items out.new.items) }
    ensures nameless { IfErr result (λ e. e ≡ Jsonb None → HasNamelessPart value.now) }
{
    match value {
        BinlogValue::Value(value) => put_value_cell(column, value, out),
        BinlogValue::Jsonb(document) => match document.tree(alloc) {
            Ok(tree) => put_tree_cell(column, &tree, out),
            Err(fault) => Err(fault),
        },
        BinlogValue::JsonDiff(diffs) => put_diffs_cell(alloc, column, diffs, out),
    }
}

/// Appends the text of a borrowed cell directly from its bytes. The text is the one that [`put_cell`] appends for its value. An
/// error appends nothing:
///
/// - `Memory`: out of memory.
/// - `Jsonb`: the cell is a JSON document that can't be parsed.
/// - `Decimal`: the bytes aren't a packed decimal. Cells that were read never give this error.
///
/// It allocates only to lengthen `out` and for a JSON document's tree.
#[inline]
pub fn put_cell_ref<A: Allocator>(
    alloc: Global,
    column: u32,
    cell: CellRef<'_>,
    out: &mut Vec<u8, A>,
) -> Result<(), RowsError>
    ensures ok { OnOk result (Appends (cell_text column (cell_value cell.entry)) out.old.items out.new.items) }
    ensures err { IfErr result (λ e. IsCellError e cell.entry (cell_text column (cell_value cell.entry)) out.old.items out.new.items) }
    ensures nameless { IfErr result (λ e. e ≡ Jsonb None → HasNamelessContent (cell_value cell.entry)) }
{
    match CellContent::of(cell) {
        CellContent::Short(short) => put_short_cell(column, short, out),
        CellContent::Bytes(bytes) => put_bytes_cell(column, bytes, out),
        CellContent::Decimal(precision, scale, bytes) => {
            put_decimal_cell(column, (precision, scale), bytes, out)
        }
        CellContent::Json(bytes) => match tree_of(alloc, bytes) {
            Ok(tree) => put_tree_cell(column, &tree, out),
            Err(fault) => Err(fault),
        },
        CellContent::JsonDiffs(bytes) => match json_diffs(alloc, bytes) {
            Ok(diffs) => put_diffs_cell(alloc, column, &diffs, out),
            Err(fault) => Err(fault),
        },
    }
}

/// Writes a label: a space, a column's index and `=`.
#[inline(always)]
pub(crate) fn put_label(text: &mut [u8], at: usize, column: u32) -> usize
    requires { at + 22 ≤ length text.old }
    ensures from { at ≤ result }
    ensures most { result ≤ at + 22 }
    ensures text { take result text.new ≡ take at text.old ++ label column }
{
    let end = put_byte(text, at, b' ');
    put_column_label(text, end, column)
}

/// Appends a label, or nothing.
fn append_label<A: Allocator>(column: u32, out: &mut Vec<u8, A>) -> Result<(), RowsError>
    ensures ok { OnOk result (out.new.items ≡ out.old.items ++ label column) }
    ensures err { IfErr result (λ e. IsAppendError e out.old.items out.new.items) }
{
    let start = out.len();
    out.resize(start + LABEL_LEN_MAX, 0)?;
    let end = put_label(out.as_mut_slice(), start, column);
    out.truncate(end);
    Ok(())
}

/// Appends a label and a short text, or nothing.
#[inline]
fn put_short_cell<A: Allocator>(
    column: u32,
    short: Short,
    out: &mut Vec<u8, A>,
) -> Result<(), RowsError>
    ensures ok { OnOk result (out.new.items ≡ out.old.items ++ (label column ++ short_text short)) }
    ensures err { IfErr result (λ e. IsAppendError e out.old.items out.new.items) }
{
    let start = out.len();
    out.resize(start + (LABEL_LEN_MAX + SHORT_LEN_MAX), 0)?;
    let text = out.as_mut_slice();
    let end = put_label(text, start, column);
    let end = put_short(text, end, short);
    out.truncate(end);
    Ok(())
}

/// Appends a label and quoted bytes, or nothing.
fn put_bytes_cell<A: Allocator>(
    column: u32,
    bytes: &[u8],
    out: &mut Vec<u8, A>,
) -> Result<(), RowsError>
    ensures ok { OnOk result (out.new.items ≡ out.old.items ++ (label column ++ quoted bytes.now)) }
    ensures err { IfErr result (λ e. IsAppendError e out.old.items out.new.items) }
{
    let start = out.len();
    append_label(column, out)?;
    if let Err(_) = quote(bytes, out) {
        out.truncate(start);
        return Err(RowsError::Memory);
    }
    Ok(())
}

/// Appends a label and the quoted text of a packed decimal, or nothing.
fn put_decimal_cell<A: Allocator>(
    column: u32,
    digits: (u8, u8),
    bytes: &[u8],
    out: &mut Vec<u8, A>,
) -> Result<(), RowsError>
    ensures ok { OnOk result (AppendsLabeled column (quoted_decimal digits.0 digits.1 bytes.now) out.old.items out.new.items) }
    ensures err { IfErr result (λ e. IsDecimalError e (quoted_decimal digits.0 digits.1 bytes.now) out.old.items out.new.items) }
{
    let start = out.len();
    append_label(column, out)?;
    match put_decimal(bytes, digits.0, digits.1, out) {
        Ok(()) => Ok(()),
        Err(fault) => {
            out.truncate(start);
            Err(fault)
        }
    }
}

/// Appends a label and the text of a value, or nothing.
fn put_value_cell<A: Allocator>(
    column: u32,
    value: &Value,
    out: &mut Vec<u8, A>,
) -> Result<(), RowsError>
    ensures ok { OnOk result (out.new.items ≡ out.old.items ++ (label column ++ value_text value.now)) }
    ensures err { IfErr result (λ e. IsAppendError e out.old.items out.new.items) }
{
    let start = out.len();
    append_label(column, out)?;
    if let Err(_) = put_value(value, out) {
        out.truncate(start);
        return Err(RowsError::Memory);
    }
    Ok(())
}

/// Appends a label and the text of a JSON document's tree, or nothing.
fn put_tree_cell<A: Allocator>(
    column: u32,
    tree: &JsonDom,
    out: &mut Vec<u8, A>,
) -> Result<(), RowsError>
    ensures ok { OnOk result (out.new.items ≡ out.old.items ++ (label column ++ document_text (view tree.now))) }
    ensures err { IfErr result (λ e. IsAppendError e out.old.items out.new.items) }
{
    let start = out.len();
    append_label(column, out)?;
    if let Err(_) = put_json(tree, out) {
        out.truncate(start);
        return Err(RowsError::Memory);
    }
    Ok(())
}

/// Appends a label and the text of partial updates of a JSON document, or nothing.
fn put_diffs_cell<A: Allocator>(
    alloc: Global,
    column: u32,
    diffs: &[JsonDiff<'_>],
    out: &mut Vec<u8, A>,
) -> Result<(), RowsError>
    ensures ok { OnOk result (AppendsLabeledReading column (diffs_text (map diff_view diffs.now)) out.old.items out.new.items) }
    ensures err { IfErr result (λ e. IsTextError e (diffs_text (map diff_view diffs.now)) out.old.items out.new.items) }
    ensures nameless { IfErr result (λ e. e ≡ Jsonb None → HasNamelessDiff (map diff_view diffs.now)) }
{
    let start = out.len();
    match append_label(column, out) {
        Ok(()) => {}
        Err(fault) => return Err(fault),
    }
    match append_feed_diffs(alloc, diffs, out) {
        Ok(()) => Ok(()),
        Err(fault) => {
            out.truncate(start);
            Err(fault)
        }
    }
}

/// Parses a JSON document.
pub(crate) fn tree_of(alloc: Global, bytes: &[u8]) -> Result<JsonDom, RowsError>
    ensures tree { Parses view result (document_tree bytes.now) }
    ensures nameless { IfErr result (λ e. e ≡ Jsonb None → IsNamelessDocument bytes.now) }
{
    match JsonbValue::read_document(&mut ParseBuf(bytes)) {
        Ok(document) => document.parse(alloc),
        Err(fault) => Err(fault),
    }
}
