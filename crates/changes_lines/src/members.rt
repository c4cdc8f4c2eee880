//! The members of a JSON object, one for each cell of an image.

ghost use Rattle.std.specs.Prelude.{◌≡◌, ◌++◌, ◌∷◌, OnOk, IfOk, IfErr, length, take};
ghost use Rattle.feed_text.specs.Buffers.{text_in};
ghost use Rattle.changes_tables.specs.ShownColumns.{column_view};
ghost use Rattle.changes_cells.specs.FieldJson.{IsFieldError};
ghost use Rattle.changes_lines.specs.TableColumns.{columns_in};
ghost use Rattle.changes_lines.specs.ReadCells.{separator_byte, separator_end, AppendsMember};

use crate::columns::Columns;
use changes_cells::put_field;
use changes_tables::ShownColumn;
use feed_text::TextBuffer;
use rows_cells::ImageField;
use rows_errors::RowsError;
use std::alloc::{AllocError, Global};

/// What is before the next member of an object: a brace before the first, a comma before each other.
#[derive(Clone, Copy, PartialEq, Eq)]
pub(crate) enum Separator {
    Brace,
    Comma,
}

/// Appends what is before a member, and the key of its column. An error may leave a part of this.
pub(crate) fn put_key(
    separator: Separator,
    column: &ShownColumn,
    text: &mut TextBuffer<Global>,
) -> Result<(), AllocError>
    ensures ok { OnOk result (text_in text.new ≡ text_in text.old ++ separator_byte separator ∷ (column_view column.now).key) }
    ensures kept { take (length (text_in text.old)) (text_in text.new) ≡ text_in text.old }
{
    let byte = match separator {
        Separator::Brace => b'{',
        Separator::Comma => b',',
    };
    text.put(byte)?;
    text.put_text(&column.key)
}

/// Appends a member: what is before it, the key of its column, and its value. Returns the bytes after the cell.
pub(crate) fn put_member<'a>(
    alloc: Global,
    columns: Columns<'_>,
    separator: Separator,
    field: ImageField<'a>,
    text: &mut TextBuffer<Global>,
) -> Result<&'a [u8], RowsError>
    ensures ok { IfOk result (λ rest. AppendsMember (columns_in columns.entry) separator field.entry rest.now (text_in text.old) (text_in text.new)) }
    ensures err { IfErr result (λ e. IsFieldError e field.entry.is_null field.entry.format field.entry.bytes.now) }
    ensures kept { take (length (text_in text.old)) (text_in text.new) ≡ text_in text.old }
{
    let column = columns.get(field.column);
    let Ok(()) = put_key(separator, column, text) else {
        return Err(RowsError::Memory);
    };
    put_field(alloc, column, field, text)
}

/// Appends the end of an object; `separator` is what would be before its next member. An error may leave a part of this.
pub(crate) fn put_end(separator: Separator, text: &mut TextBuffer<Global>) -> Result<(), AllocError>
    ensures ok { OnOk result (text_in text.new ≡ text_in text.old ++ separator_end separator) }
    ensures kept { take (length (text_in text.old)) (text_in text.new) ≡ text_in text.old }
{
    match separator {
        Separator::Brace => text.put_text(b"{}"),
        Separator::Comma => text.put_text(b"}"),
    }
}
