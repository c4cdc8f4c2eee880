//! The cell that bytes begin with, written directly into a buffer with room for it.
//!
//! These functions return `None` for a cell that can't be read, and for one whose text may be long; `put_field` writes those.

ghost use Rattle.std.specs.Prelude.{◌≡◌, ◌≤◌, ◌+◌, IfNone, IfSome, length, take, false};
ghost use Rattle.rows_cells.specs.declared.format.Width.TheVariants.{One};
ghost use Rattle.rows_cells.specs.declared.format.CellFormat.TheVariants.{Signed, Unsigned, Counted, Plain};
ghost use Rattle.feed_text.specs.FieldText.{Advances};
ghost use Rattle.changes_tables.specs.ShownColumns.{ColumnView, column_view};
ghost use Rattle.changes_cells.specs.FieldJson.{IsFixed, MayWriteCell, MayWriteNext};

use crate::bytes::{FEW_BYTES_MAX, put_few_bytes};
use crate::fixed::put_fixed_field;
use crate::numbers::{put_integer, put_plain_integer, put_shown_number};
use crate::readings::{read_integer, read_sized};
use changes_character_sets::CharacterSet;
use changes_tables::{Shown, ShownColumn};
use changes_writers::put_plain_string;
use feed_writers::put_bytes;
use rows_cells::{
    CellFormat, CellRef, ImageField, Width, read_bytes, read_few_bytes, read_signed, read_unsigned,
};

/// The maximum length of the text of a field that is written here, in bytes.
pub const FIELD_LEN_MAX: usize = 400;

/// Writes a signed number.
#[inline(always)]
#[tactic(auto, unfolding(crate::specs::CellJson::IsCellJson))]
fn put_signed_field<'a>(
    text: &mut [u8],
    at: usize,
    column: &ShownColumn,
    bytes: &'a [u8],
    width: Width,
) -> Option<(usize, &'a [u8])>
    requires { at + 400 ≤ length text.old }
    ensures { MayWriteCell (column_view column.now) false (Signed width) bytes.now at text.old text.new result }
{
    match read_signed(bytes, width) {
        Ok((number, rest)) => match put_integer(text, at, column, number) {
            Some(end) => Some((end, rest)),
            None => None,
        },
        Err(_) => None,
    }
}

/// Writes an unsigned number.
#[inline(always)]
#[tactic(auto, unfolding(crate::specs::CellJson::IsCellJson))]
fn put_unsigned_field<'a>(
    text: &mut [u8],
    at: usize,
    column: &ShownColumn,
    bytes: &'a [u8],
    width: Width,
) -> Option<(usize, &'a [u8])>
    requires { at + 400 ≤ length text.old }
    ensures { MayWriteCell (column_view column.now) false (Unsigned width) bytes.now at text.old text.new result }
{
    match read_unsigned(bytes, width) {
        Ok((CellRef::Int(number), rest)) => match put_integer(text, at, column, number) {
            Some(end) => Some((end, rest)),
            None => None,
        },
        Ok((CellRef::UInt(number), rest)) => match put_shown_number(text, at, column, number) {
            Some(end) => Some((end, rest)),
            None => None,
        },
        _ => None,
    }
}

/// Writes at most 16 bytes of plain ASCII after a length of one byte, if sixteen bytes follow the length; else leaves the text
/// unchanged.
#[inline(always)]
#[tactic(auto, unfolding(crate::specs::CellJson::IsCellJson, crate::specs::CellJson::IsBytesJson, crate::specs::CellJson::IsBytesShown))]
fn put_plain_field<'a>(
    text: &mut [u8],
    at: usize,
    column: &ShownColumn,
    bytes: &'a [u8],
) -> Option<(usize, &'a [u8])>
    requires { at + 400 ≤ length text.old }
    ensures { MayWriteCell (column_view column.now) false (Counted One) bytes.now at text.old text.new result }
{
    let Shown::Text(set) = column.shown else {
        return None;
    };
    let CharacterSet::Utf8 = set else {
        return None;
    };
    match read_few_bytes(bytes) {
        Some((window, len, rest)) => match put_plain_string(text, at, window, len) {
            Some(end) => Some((end, rest)),
            None => None,
        },
        None => None,
    }
}

/// Writes bytes after their length, if there are few.
#[inline(always)]
#[tactic(auto, unfolding(crate::specs::CellJson::IsCellJson, crate::specs::CellJson::IsBytesJson))]
fn put_counted_field<'a>(
    text: &mut [u8],
    at: usize,
    column: &ShownColumn,
    bytes: &'a [u8],
    width: Width,
) -> Option<(usize, &'a [u8])>
    requires { at + 400 ≤ length text.old }
    ensures { MayWriteCell (column_view column.now) false (Counted width) bytes.now at text.old text.new result }
{
    match read_bytes(bytes, width) {
        Ok((content, rest)) => {
            if content.len() > FEW_BYTES_MAX {
                return None;
            }
            match put_few_bytes(text, at, column, content) {
                Some(end) => Some((end, rest)),
                None => None,
            }
        }
        Err(_) => None,
    }
}

/// Writes so many bytes, if there are few.
#[inline(always)]
#[tactic(auto, unfolding(crate::specs::CellJson::IsCellJson, crate::specs::CellJson::IsBytesJson))]
fn put_sized_field<'a>(
    text: &mut [u8],
    at: usize,
    column: &ShownColumn,
    bytes: &'a [u8],
    len: u16,
) -> Option<(usize, &'a [u8])>
    requires { at + 400 ≤ length text.old }
    ensures { MayWriteCell (column_view column.now) false (Plain len) bytes.now at text.old text.new result }
{
    match read_sized(bytes, len) {
        Ok((content, rest)) => {
            if content.len() > FEW_BYTES_MAX {
                return None;
            }
            match put_few_bytes(text, at, column, content) {
                Some(end) => Some((end, rest)),
                None => None,
            }
        }
        Err(_) => None,
    }
}

/// Advances `rest` past a field that was written, and returns the offset of its end.
#[inline(always)]
fn advance<'a>(rest: &mut &'a [u8], written: Option<(usize, &'a [u8])>) -> Option<usize>
    ensures { Advances written.entry rest.new.now result }
{
    match written {
        Some((end, after)) => {
            *rest = after;
            Some(end)
        }
        None => None,
    }
}

/// Writes the cell that `rest` begins with, whose text has a maximum length by its format, and advances `rest` past it.
#[inline(always)]
fn put_next_fixed<'a>(
    text: &mut [u8],
    at: usize,
    rest: &mut &'a [u8],
    format: CellFormat,
) -> Option<usize>
    requires room { at + 400 ≤ length text.old }
    requires fixed { IsFixed format }
    ensures { (c : ColumnView) → MayWriteNext c format rest.old.now rest.new.now at text.old text.new result }
{
    match put_fixed_field(text, at, format, *rest) {
        Ok((end, after)) => {
            *rest = after;
            Some(end)
        }
        Err(_) => None,
    }
}

/// Writes the cell that `rest` begins with, and advances `rest` past it.
#[inline(never)]
fn put_next_field<'a>(
    text: &mut [u8],
    at: usize,
    column: &ShownColumn,
    rest: &mut &'a [u8],
    format: CellFormat,
) -> Option<usize>
    requires { at + 400 ≤ length text.old }
    ensures { MayWriteNext (column_view column.now) format rest.old.now rest.new.now at text.old text.new result }
{
    match format {
        CellFormat::Signed(width) => {
            let written = put_signed_field(text, at, column, *rest, width);
            advance(rest, written)
        }
        CellFormat::Unsigned(width) => {
            let written = put_unsigned_field(text, at, column, *rest, width);
            advance(rest, written)
        }
        CellFormat::Counted(width) => {
            let written = put_counted_field(text, at, column, *rest, width);
            advance(rest, written)
        }
        CellFormat::Plain(len) => {
            let written = put_sized_field(text, at, column, *rest, len);
            advance(rest, written)
        }
        CellFormat::Json => None,
        CellFormat::JsonDiffs => None,
        _ => put_next_fixed(text, at, rest, format),
    }
}

/// Writes a field by a call, whose result is in registers.
#[inline(always)]
fn put_other_field<'a>(
    text: &mut [u8],
    at: usize,
    column: &ShownColumn,
    bytes: &'a [u8],
    format: CellFormat,
) -> Option<(usize, &'a [u8])>
    requires { at + 400 ≤ length text.old }
    ensures { MayWriteCell (column_view column.now) false format bytes.now at text.old text.new result }
{
    let mut rest = bytes;
    match put_next_field(text, at, column, &mut rest, format) {
        Some(end) => Some((end, rest)),
        None => None,
    }
}

/// Writes the JSON of the cell that `field` describes, whose column this is, at an offset of a text with room for it. Returns the
/// offset of its end, and the bytes after the cell.
///
/// `None`: the cell can't be read, or its text may be longer than [`FIELD_LEN_MAX`]: that of a string of more than 64 bytes, or of
/// more than 62 in UTF-8 if that isn't its character set; of a JSON document; of a SET; of a long member of an ENUM. The text before
/// `at` is unchanged, and [`put_field`](crate::put_field) writes the cell or returns its error.
#[inline(always)]
pub fn put_short_field<'a>(
    text: &mut [u8],
    at: usize,
    column: &ShownColumn,
    field: ImageField<'a>,
) -> Option<(usize, &'a [u8])>
    requires { at + 400 ≤ length text.old }
    ensures { MayWriteCell (column_view column.now) field.entry.is_null field.entry.format field.entry.bytes.now at text.old text.new result }
{
    if field.is_null {
        return Some((put_bytes(text, at, b"null"), field.bytes));
    }
    if let Some((number, rest)) = read_integer(field.bytes, field.format) {
        if let Shown::Plain = column.shown {
            return Some((put_plain_integer(text, at, column, number), rest));
        }
        return match put_integer(text, at, column, number) {
            Some(end) => Some((end, rest)),
            None => None,
        };
    }
    match field.format {
        CellFormat::Counted(Width::One) => {
            match put_plain_field(text, at, column, field.bytes) {
                Some(written) => Some(written),
                None => put_other_field(text, at, column, field.bytes, field.format),
            }
        }
        format => put_other_field(text, at, column, field.bytes, format),
    }
}
