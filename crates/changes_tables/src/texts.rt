//! Names and members as JSON text.

ghost use Rattle.std.specs.Prelude.{◌≡◌, ◌+◌, ◌*◌, ◌++◌, OnOk, length, take};
ghost use Rattle.changes_writers.specs.JsonStrings.{json_string};
ghost use Rattle.changes_writers.specs.Base64Texts.{base64_string, base64_object};
ghost use Rattle.changes_tables.specs.MemberTexts.{IsJsonIn, IsMemberJson, Appends, utf8_json};

use crate::columns::Shown;
use changes_character_sets::CharacterSet;
use changes_writers::{
    base64_len, put_base64_object, put_base64_string, put_string, put_utf8_string,
};
use std::alloc::{AllocError, Global};

/// The length of an object of bytes besides their Base64.
const OBJECT_LEN: usize = 13;

/// The maximum length of a byte within a string.
const ESCAPE_LEN: usize = 6;

/// Lengthens a text by zeros, or leaves it unchanged.
fn make_room(room: usize, out: &mut Vec<u8>) -> Result<(), AllocError>
    ensures room { OnOk result (length out.new.items ≡ length out.old.items + room) }
    ensures text { OnOk result (take (length out.old.items) out.new.items ≡ out.old.items) }
{
    let Some(len) = out.len().checked_add(room) else {
        return Err(AllocError);
    };
    out.resize(len, 0)?;
    Ok(())
}

/// Lengthens a text by zeros, for a string of so many bytes, or leaves it unchanged.
fn make_string_room(len: usize, out: &mut Vec<u8>) -> Result<(), AllocError>
    ensures room { OnOk result (length out.new.items ≡ length out.old.items + (6 * len + 2)) }
    ensures text { OnOk result (take (length out.old.items) out.new.items ≡ out.old.items) }
{
    let Some(content) = len.checked_mul(ESCAPE_LEN) else {
        return Err(AllocError);
    };
    let Some(room) = content.checked_add(2) else {
        return Err(AllocError);
    };
    make_room(room, out)
}

/// Appends bytes as a string.
pub(crate) fn append_string(bytes: &[u8], out: &mut Vec<u8>) -> Result<(), AllocError>
    ensures { OnOk result (out.new.items ≡ out.old.items ++ json_string bytes.now) }
{
    let start = out.len();
    make_string_room(bytes.len(), out)?;
    let end = put_string(out.as_mut_slice(), start, bytes);
    out.truncate(end);
    Ok(())
}

/// Appends bytes in Base64 as a string.
fn append_base64(bytes: &[u8], out: &mut Vec<u8>) -> Result<(), AllocError>
    ensures { OnOk result (out.new.items ≡ out.old.items ++ base64_string bytes.now) }
{
    let start = out.len();
    make_room(base64_len(bytes) + OBJECT_LEN, out)?;
    let end = put_base64_string(out.as_mut_slice(), start, bytes);
    out.truncate(end);
    Ok(())
}

/// Appends bytes in Base64 as an object.
fn append_base64_object(bytes: &[u8], out: &mut Vec<u8>) -> Result<(), AllocError>
    ensures { OnOk result (out.new.items ≡ out.old.items ++ base64_object bytes.now) }
{
    let start = out.len();
    make_room(base64_len(bytes) + OBJECT_LEN, out)?;
    let end = put_base64_object(out.as_mut_slice(), start, bytes);
    out.truncate(end);
    Ok(())
}

/// Appends bytes as a string if they are UTF-8, otherwise as an object with their Base64.
pub(crate) fn append_name(bytes: &[u8], out: &mut Vec<u8>) -> Result<(), AllocError>
    ensures { OnOk result (out.new.items ≡ out.old.items ++ utf8_json bytes.now) }
{
    let start = out.len();
    make_string_room(bytes.len(), out)?;
    match put_utf8_string(out.as_mut_slice(), start, bytes) {
        Some(end) => {
            out.truncate(end);
            Ok(())
        }
        None => {
            out.truncate(start);
            append_base64_object(bytes, out)
        }
    }
}

/// Appends text of a character set as a string; bytes that aren't such text as an object with their Base64.
fn append_text_in(
    alloc: Global,
    set: CharacterSet,
    bytes: &[u8],
    out: &mut Vec<u8>,
) -> Result<(), AllocError>
    ensures { OnOk result (Appends (IsJsonIn set bytes.now) out.old.items out.new.items) }
{
    let mut text = Vec::new(alloc);
    if set.decode(bytes, &mut text)? {
        return append_string(&text, out);
    }
    append_base64_object(bytes, out)
}

/// Appends bytes of a column in the way that its text is shown.
pub(crate) fn append_text(
    alloc: Global,
    shown: Shown,
    bytes: &[u8],
    out: &mut Vec<u8>,
) -> Result<(), AllocError>
    ensures { OnOk result (Appends (IsMemberJson shown bytes.now) out.old.items out.new.items) }
{
    match shown {
        Shown::Text(set) => append_text_in(alloc, set, bytes, out),
        Shown::Binary => append_base64(bytes, out),
        _ => append_base64_object(bytes, out),
    }
}
