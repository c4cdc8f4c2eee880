//! Bytes, as their columns have them.

ghost use Rattle.std.specs.Prelude.{◌≡◌, ◌++◌, ◌*◌, OnOk, length};
ghost use Rattle.std.specs.Fmt.{decimal};
ghost use Rattle.byteorder.specs.Endian.{big_number, little_number};
ghost use Rattle.feed_text.specs.Buffers.{text_in};
ghost use Rattle.changes_writers.specs.FloatTexts.{AppendsSuch};
ghost use Rattle.changes_statements.specs.SqlNumbers.{bits_text};
ghost use Rattle.changes_statements.specs.SqlTexts.{utf8_text};
ghost use Rattle.changes_statements.specs.SqlLiterals.{IsBytesLiteral, IsTextLiteral, of_few};

use crate::numbers::put_bits;
use crate::quoting::{are_plain, put_hexadecimal, put_string};
use crate::sql_table::SqlColumn;
use byteorder::{BigEndian, ByteOrder, LittleEndian};
use changes_character_sets::CharacterSet;
use changes_tables::Shown;
use feed_text::TextBuffer;
use std::alloc::{AllocError, Global};

/// The maximum number of bytes of a number.
const NUMBER_LEN_MAX: usize = 8;

/// Appends text in UTF-8 as a string with its character set; bytes that a string doesn't have as they are make it hexadecimal.
pub fn put_utf8(text: &[u8], out: &mut TextBuffer<Global>) -> Result<(), AllocError>
    ensures { OnOk result (text_in out.new ≡ text_in out.old ++ utf8_text text.now) }
{
    out.put_text(b"_utf8mb4")?;
    if are_plain(text) {
        return put_string(text, out);
    }
    out.put(b' ')?;
    put_hexadecimal(text, 0, out)
}

/// Appends text of a character set as a string; bytes that aren't such text are hexadecimal.
fn put_text_in(
    set: CharacterSet,
    bytes: &[u8],
    decoded: &mut Vec<u8>,
    out: &mut TextBuffer<Global>,
) -> Result<(), AllocError>
    ensures { OnOk result (AppendsSuch (IsTextLiteral set bytes.now) (text_in out.old) (text_in out.new)) }
{
    decoded.clear();
    if !set.decode(bytes, decoded)? {
        return put_hexadecimal(bytes, 0, out);
    }
    put_utf8(decoded, out)
}

/// Appends the number of a BIT, whose highest byte comes first.
fn put_bit(bytes: &[u8], out: &mut TextBuffer<Global>) -> Result<(), AllocError>
    ensures { OnOk result (text_in out.new ≡ text_in out.old ++ of_few bytes.now (bits_text (8 * length bytes.now) (big_number (length bytes.now) bytes.now))) }
{
    if bytes.is_empty() || bytes.len() > NUMBER_LEN_MAX {
        return put_hexadecimal(bytes, 0, out);
    }
    let count = 8 * bytes.len() as u32;
    put_bits(count, BigEndian::read_uint(bytes, bytes.len()), out)
}

/// Appends the number of a member, or of members, whose lowest byte comes first.
fn put_members(bytes: &[u8], out: &mut TextBuffer<Global>) -> Result<(), AllocError>
    ensures { OnOk result (text_in out.new ≡ text_in out.old ++ of_few bytes.now (decimal (little_number (length bytes.now) bytes.now))) }
{
    if bytes.is_empty() || bytes.len() > NUMBER_LEN_MAX {
        return put_hexadecimal(bytes, 0, out);
    }
    out.put_number(LittleEndian::read_uint(bytes, bytes.len()))
}

/// Appends bytes of a column. `is_exact`: they are compared as bytes, so text is hexadecimal too.
#[tactic(auto, unfolding(crate::specs::SqlLiterals::IsBytesLiteral))]
pub(crate) fn put_bytes(
    column: &SqlColumn,
    bytes: &[u8],
    is_exact: bool,
    decoded: &mut Vec<u8>,
    out: &mut TextBuffer<Global>,
) -> Result<(), AllocError>
    ensures { OnOk result (AppendsSuch (IsBytesLiteral column.now.shown column.now.padded_len is_exact bytes.now) (text_in out.old) (text_in out.new)) }
{
    match column.shown {
        Shown::Text(set) if !is_exact => put_text_in(set, bytes, decoded, out),
        Shown::Bit => put_bit(bytes, out),
        Shown::Enum | Shown::Set => put_members(bytes, out),
        _ => put_hexadecimal(bytes, column.padded_len, out),
    }
}
