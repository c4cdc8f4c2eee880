//! The cell that bytes begin with, appended to a text that grows.

ghost use Rattle.std.specs.Prelude.{◌≡◌, ◌<ℤ◌, ◌++◌, pos, IfOk, IfErr, OnOk, length, map, take, false};
ghost use Rattle.std.specs.Fmt.{decimal};
ghost use Rattle.byteorder.specs.Endian.{big_number, little_number};
ghost use Rattle.rows_errors.specs.declared.fault.RowsError.TheVariants.{Memory};
ghost use Rattle.rows_cells.specs.declared.format.CellFormat.TheVariants.{Signed, Unsigned, Counted, Plain, Json, JsonDiffs};
ghost use Rattle.feed_text.specs.Buffers.{text_in};
ghost use Rattle.changes_tables.specs.ShownColumns.{ColumnView, column_view};
ghost use Rattle.changes_writers.specs.FloatTexts.{AppendsSuch};
ghost use Rattle.changes_cells.specs.CellJson.{of_few, member_json, members_json, IsBytesShown, IsSimpleNumber, IsNumberJson, IsIntegerJson};
ghost use Rattle.changes_cells.specs.FieldJson.{IsFixed, AppendsCell, IsFieldError};

use crate::bytes::{NUMBER_LEN_MAX, big_endian, little_endian};
use crate::documents::{put_diffs, put_document};
use crate::fields::FIELD_LEN_MAX;
use crate::fixed::put_fixed_field;
use crate::members::{append_member, append_members};
use crate::numbers::{put_negative, put_simple_number};
use crate::pieces::{append_base64_object, append_base64_string, append_text};
use crate::readings::read_sized;
use changes_tables::{Shown, ShownColumn};
use feed_text::TextBuffer;
use rows_cells::{
    CellFormat, CellRef, ImageField, Width, read_bytes, read_cell, read_signed, read_unsigned,
};
use rows_errors::RowsError;
use std::alloc::{AllocError, Allocator, Global};

/// The remaining bytes, or out of memory.
fn after<'a>(appended: Result<(), AllocError>, rest: &'a [u8]) -> Result<&'a [u8], RowsError>
    ensures ok { IfOk result (λ left. left.now ≡ rest.now) }
    ensures was { IfOk result (λ left. appended ≡ Ok tt) }
    ensures err { IfErr result (λ e. e ≡ Memory) }
{
    match appended {
        Ok(()) => Ok(rest),
        Err(_) => Err(RowsError::Memory),
    }
}

/// Appends a number that isn't that of members.
fn append_simple_number<A: Allocator>(
    shown: Shown,
    number: u64,
    text: &mut TextBuffer<A>,
) -> Result<(), AllocError>
    ensures ok { OnOk result (AppendsSuch (IsSimpleNumber shown number) (text_in text.old) (text_in text.new)) }
    ensures kept { take (length (text_in text.old)) (text_in text.new) ≡ text_in text.old }
{
    let mut short = [0; FIELD_LEN_MAX];
    let end = put_simple_number(&mut short, 0, shown, number);
    text.put_text(&short[..end])
}

/// Appends a number that isn't negative.
#[tactic(auto, unfolding(crate::specs::CellJson::IsNumberShown))]
fn append_number<A: Allocator>(
    column: &ShownColumn,
    number: u64,
    text: &mut TextBuffer<A>,
) -> Result<(), AllocError>
    ensures ok { OnOk result (AppendsSuch (IsNumberJson (column_view column.now) number) (text_in text.old) (text_in text.new)) }
    ensures kept { take (length (text_in text.old)) (text_in text.new) ≡ text_in text.old }
{
    match column.shown {
        Shown::Enum => append_member(&column.members, number, text),
        Shown::Set => append_members(&column.members, number, text),
        shown => append_simple_number(shown, number, text),
    }
}

/// Appends an integer.
#[tactic(auto, unfolding(crate::specs::CellJson::IsIntegerJson))]
fn append_integer<A: Allocator>(
    column: &ShownColumn,
    number: i64,
    text: &mut TextBuffer<A>,
) -> Result<(), AllocError>
    ensures ok { OnOk result (AppendsSuch (IsIntegerJson (column_view column.now) number) (text_in text.old) (text_in text.new)) }
    ensures kept { take (length (text_in text.old)) (text_in text.new) ≡ text_in text.old }
{
    if number >= 0 {
        return append_number(column, number as u64, text);
    }
    let mut short = [0; FIELD_LEN_MAX];
    let end = put_negative(&mut short, 0, column.shown, number);
    text.put_text(&short[..end])
}

/// Appends the number of a BIT.
fn append_bit_number<A: Allocator>(bytes: &[u8], text: &mut TextBuffer<A>) -> Result<(), AllocError>
    ensures ok { OnOk result (text_in text.new ≡ text_in text.old ++ of_few bytes.now (decimal (big_number (length bytes.now) bytes.now))) }
    ensures kept { take (length (text_in text.old)) (text_in text.new) ≡ text_in text.old }
{
    if bytes.len() > NUMBER_LEN_MAX {
        return append_base64_object(bytes, text);
    }
    text.put_number(big_endian(bytes))
}

/// Appends the member of an ENUM whose number the bytes are.
fn append_member_of<A: Allocator>(
    members: &[Vec<u8>],
    bytes: &[u8],
    text: &mut TextBuffer<A>,
) -> Result<(), AllocError>
    ensures ok { OnOk result (text_in text.new ≡ text_in text.old ++ of_few bytes.now (member_json (map (λ m. m.items) members.now) (little_number (length bytes.now) bytes.now))) }
    ensures kept { take (length (text_in text.old)) (text_in text.new) ≡ text_in text.old }
{
    if bytes.len() > NUMBER_LEN_MAX {
        return append_base64_object(bytes, text);
    }
    append_member(members, little_endian(bytes), text)
}

/// Appends the members of a SET whose bits the bytes are.
fn append_members_of<A: Allocator>(
    members: &[Vec<u8>],
    bytes: &[u8],
    text: &mut TextBuffer<A>,
) -> Result<(), AllocError>
    ensures ok { OnOk result (text_in text.new ≡ text_in text.old ++ of_few bytes.now (members_json (map (λ m. m.items) members.now) (little_number (length bytes.now) bytes.now))) }
    ensures kept { take (length (text_in text.old)) (text_in text.new) ≡ text_in text.old }
{
    if bytes.len() > NUMBER_LEN_MAX {
        return append_base64_object(bytes, text);
    }
    append_members(members, little_endian(bytes), text)
}

/// Appends bytes.
#[tactic(auto, unfolding(crate::specs::CellJson::IsBytesShown))]
fn append_bytes<A: Allocator>(
    alloc: Global,
    column: &ShownColumn,
    bytes: &[u8],
    text: &mut TextBuffer<A>,
) -> Result<(), AllocError>
    ensures ok { OnOk result (AppendsSuch (IsBytesShown column.now.shown (column_view column.now).members bytes.now) (text_in text.old) (text_in text.new)) }
    ensures kept { take (length (text_in text.old)) (text_in text.new) ≡ text_in text.old }
{
    match column.shown {
        Shown::Text(set) => append_text(alloc, set, bytes, text),
        Shown::Binary => append_base64_string(bytes, text),
        Shown::Bit => append_bit_number(bytes, text),
        Shown::Enum => append_member_of(&column.members, bytes, text),
        Shown::Set => append_members_of(&column.members, bytes, text),
        _ => append_base64_object(bytes, text),
    }
}

/// Appends a signed number.
#[tactic(auto, unfolding(crate::specs::CellJson::IsCellJson))]
fn append_signed_field<'a, A: Allocator>(
    column: &ShownColumn,
    bytes: &'a [u8],
    width: Width,
    text: &mut TextBuffer<A>,
) -> Result<&'a [u8], RowsError>
    ensures ok { IfOk result (λ rest. AppendsCell (column_view column.now) false (Signed width) bytes.now (text_in text.old) (text_in text.new) rest.now) }
    ensures err { IfErr result (λ e. IsFieldError e false (Signed width) bytes.now) }
    ensures kept { take (length (text_in text.old)) (text_in text.new) ≡ text_in text.old }
{
    match read_signed(bytes, width) {
        Ok((number, rest)) => after(append_integer(column, number, text), rest),
        Err(fault) => Err(fault),
    }
}

/// Appends an unsigned number.
#[tactic(auto, unfolding(crate::specs::CellJson::IsCellJson))]
fn append_unsigned_field<'a, A: Allocator>(
    column: &ShownColumn,
    bytes: &'a [u8],
    width: Width,
    text: &mut TextBuffer<A>,
) -> Result<&'a [u8], RowsError>
    ensures ok { IfOk result (λ rest. AppendsCell (column_view column.now) false (Unsigned width) bytes.now (text_in text.old) (text_in text.new) rest.now) }
    ensures err { IfErr result (λ e. IsFieldError e false (Unsigned width) bytes.now) }
    ensures kept { take (length (text_in text.old)) (text_in text.new) ≡ text_in text.old }
{
    match read_unsigned(bytes, width) {
        Ok((CellRef::Int(number), rest)) => after(append_integer(column, number, text), rest),
        Ok((CellRef::UInt(number), rest)) => after(append_number(column, number, text), rest),
        Ok(_) => Err(RowsError::Memory),
        Err(fault) => Err(fault),
    }
}

/// Appends bytes after their length.
#[tactic(auto, unfolding(crate::specs::CellJson::IsCellJson, crate::specs::CellJson::IsBytesJson))]
fn append_counted_field<'a, A: Allocator>(
    alloc: Global,
    column: &ShownColumn,
    bytes: &'a [u8],
    width: Width,
    text: &mut TextBuffer<A>,
) -> Result<&'a [u8], RowsError>
    ensures ok { IfOk result (λ rest. AppendsCell (column_view column.now) false (Counted width) bytes.now (text_in text.old) (text_in text.new) rest.now) }
    ensures err { IfErr result (λ e. IsFieldError e false (Counted width) bytes.now) }
    ensures kept { take (length (text_in text.old)) (text_in text.new) ≡ text_in text.old }
{
    match read_bytes(bytes, width) {
        Ok((content, rest)) => after(append_bytes(alloc, column, content, text), rest),
        Err(fault) => Err(fault),
    }
}

/// Appends so many bytes.
#[tactic(auto, unfolding(crate::specs::CellJson::IsCellJson, crate::specs::CellJson::IsBytesJson))]
fn append_sized_field<'a, A: Allocator>(
    alloc: Global,
    column: &ShownColumn,
    bytes: &'a [u8],
    len: u16,
    text: &mut TextBuffer<A>,
) -> Result<&'a [u8], RowsError>
    ensures ok { IfOk result (λ rest. AppendsCell (column_view column.now) false (Plain len) bytes.now (text_in text.old) (text_in text.new) rest.now) }
    ensures err { IfErr result (λ e. IsFieldError e false (Plain len) bytes.now) }
    ensures kept { take (length (text_in text.old)) (text_in text.new) ≡ text_in text.old }
{
    match read_sized(bytes, len) {
        Ok((content, rest)) => after(append_bytes(alloc, column, content, text), rest),
        Err(fault) => Err(fault),
    }
}

/// Appends a JSON document.
fn append_document_field<'a, A: Allocator>(
    alloc: Global,
    bytes: &'a [u8],
    text: &mut TextBuffer<A>,
) -> Result<&'a [u8], RowsError>
    ensures ok { IfOk result (λ rest. (c : ColumnView) → AppendsCell c false Json bytes.now (text_in text.old) (text_in text.new) rest.now) }
    ensures err { IfErr result (λ e. IsFieldError e false Json bytes.now) }
    ensures kept { take (length (text_in text.old)) (text_in text.new) ≡ text_in text.old }
{
    match read_cell(CellFormat::Json, bytes) {
        Ok((CellRef::Json(document), rest)) => match put_document(alloc, document, text) {
            Ok(()) => Ok(rest),
            Err(fault) => Err(fault),
        },
        Ok(_) => Err(RowsError::Memory),
        Err(fault) => Err(fault),
    }
}

/// Appends the partial updates of a JSON document.
fn append_updates_field<'a, A: Allocator>(
    alloc: Global,
    bytes: &'a [u8],
    text: &mut TextBuffer<A>,
) -> Result<&'a [u8], RowsError>
    ensures ok { IfOk result (λ rest. (c : ColumnView) → AppendsCell c false JsonDiffs bytes.now (text_in text.old) (text_in text.new) rest.now) }
    ensures err { IfErr result (λ e. IsFieldError e false JsonDiffs bytes.now) }
    ensures kept { take (length (text_in text.old)) (text_in text.new) ≡ text_in text.old }
{
    match read_cell(CellFormat::JsonDiffs, bytes) {
        Ok((CellRef::JsonDiffs(updates), rest)) => match put_diffs(alloc, updates, text) {
            Ok(()) => Ok(rest),
            Err(fault) => Err(fault),
        },
        Ok(_) => Err(RowsError::Memory),
        Err(fault) => Err(fault),
    }
}

/// Appends a cell whose text has a maximum length by its format.
fn append_fixed_field<'a, A: Allocator>(
    format: CellFormat,
    bytes: &'a [u8],
    text: &mut TextBuffer<A>,
) -> Result<&'a [u8], RowsError>
    requires { IsFixed format }
    ensures ok { IfOk result (λ rest. (c : ColumnView) → AppendsCell c false format bytes.now (text_in text.old) (text_in text.new) rest.now) }
    ensures err { IfErr result (λ e. IsFieldError e false format bytes.now) }
    ensures kept { take (length (text_in text.old)) (text_in text.new) ≡ text_in text.old }
{
    let mut short = [0; FIELD_LEN_MAX];
    match put_fixed_field(&mut short, 0, format, bytes) {
        Ok((end, rest)) => match text.put_text(&short[..end]) {
            Ok(()) => Ok(rest),
            Err(_) => Err(RowsError::Memory),
        },
        Err(fault) => Err(fault),
    }
}

/// Appends a cell that isn't NULL.
fn append_field<'a, A: Allocator>(
    alloc: Global,
    column: &ShownColumn,
    format: CellFormat,
    bytes: &'a [u8],
    text: &mut TextBuffer<A>,
) -> Result<&'a [u8], RowsError>
    ensures ok { IfOk result (λ rest. AppendsCell (column_view column.now) false format bytes.now (text_in text.old) (text_in text.new) rest.now) }
    ensures err { IfErr result (λ e. IsFieldError e false format bytes.now) }
    ensures kept { take (length (text_in text.old)) (text_in text.new) ≡ text_in text.old }
{
    match format {
        CellFormat::Signed(width) => append_signed_field(column, bytes, width, text),
        CellFormat::Unsigned(width) => append_unsigned_field(column, bytes, width, text),
        CellFormat::Counted(width) => append_counted_field(alloc, column, bytes, width, text),
        CellFormat::Plain(len) => append_sized_field(alloc, column, bytes, len, text),
        CellFormat::Json => append_document_field(alloc, bytes, text),
        CellFormat::JsonDiffs => append_updates_field(alloc, bytes, text),
        _ => append_fixed_field(format, bytes, text),
    }
}

/// Appends the JSON of the cell that `field` describes, whose column this is, and returns the bytes after the cell. An error may leave a
/// part of it:
///
/// - Those of `read_cell`: the cell can't be read.
/// - `Memory`: out of memory.
/// - `Jsonb`: the cell is a JSON document that can't be parsed.
///
/// It allocates to lengthen the text, for text in a character set other than UTF-8, and for the trees of unusual JSON documents.
pub fn put_field<'a, A: Allocator>(
    alloc: Global,
    column: &ShownColumn,
    field: ImageField<'a>,
    text: &mut TextBuffer<A>,
) -> Result<&'a [u8], RowsError>
    ensures ok { IfOk result (λ rest. AppendsCell (column_view column.now) field.entry.is_null field.entry.format field.entry.bytes.now (text_in text.old) (text_in text.new) rest.now) }
    ensures err { IfErr result (λ e. IsFieldError e field.entry.is_null field.entry.format field.entry.bytes.now) }
    ensures kept { take (length (text_in text.old)) (text_in text.new) ≡ text_in text.old }
{
    if field.is_null {
        return match text.put_text(b"null") {
            Ok(()) => Ok(field.bytes),
            Err(_) => Err(RowsError::Memory),
        };
    }
    append_field(alloc, column, field.format, field.bytes, text)
}
