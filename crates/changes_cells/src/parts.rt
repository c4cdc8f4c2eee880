//! Parts of the objects that stand for values which JSON doesn't have.

ghost use Rattle.std.specs.Prelude.{◌≡◌, ◌≤◌, ◌+◌, ◌++◌, OnOk, IfOk, IfErr, true, false, length, take};
ghost use Rattle.std.specs.Str.{is_utf8};
ghost use Rattle.changes_writers.specs.JsonStrings.{json_string};
ghost use Rattle.changes_writers.specs.Base64Texts.{base64_string, base64_object};
ghost use Rattle.rows_errors.specs.declared.fault.RowsError.TheVariants.{Memory};
ghost use Rattle.changes_cells.specs.JsonDocuments.{operation_name, path_json, time_start};

use changes_writers::{base64_len, put_base64_object, put_base64_string, put_utf8_string};
use rows_errors::RowsError;
use rows_jsonb::JsonDiffOperation;
use rows_values::MysqlTimestampType;
use std::alloc::Allocator;

/// Returns what is before a date, a time, or both.
pub(crate) fn time_start(time_type: MysqlTimestampType) -> &'static [u8]
    ensures few { length result.now ≤ 14 }
    ensures text { result.now ≡ time_start time_type }
{
    match time_type {
        MysqlTimestampType::MYSQL_TIMESTAMP_DATE => b"{\"$date\":\"",
        MysqlTimestampType::MYSQL_TIMESTAMP_TIME => b"{\"$time\":\"",
        _ => b"{\"$datetime\":\"",
    }
}

/// Returns the name of an operation.
pub(crate) fn operation_name(operation: JsonDiffOperation) -> &'static [u8]
    ensures { result.now ≡ operation_name operation }
{
    match operation {
        JsonDiffOperation::REPLACE => b"replace",
        JsonDiffOperation::INSERT => b"insert",
        JsonDiffOperation::REMOVE => b"remove",
    }
}

/// The length of an object of bytes besides their Base64.
const OBJECT_LEN: usize = 13;

/// Lengthens a text by zeros, or leaves it unchanged.
fn make_room<A: Allocator>(room: usize, out: &mut Vec<u8, A>) -> Result<(), RowsError>
    ensures room { OnOk result (length out.new.items ≡ length out.old.items + room) }
    ensures text { OnOk result (take (length out.old.items) out.new.items ≡ out.old.items) }
    ensures err { IfErr result (λ e. e ≡ Memory) }
    ensures kept { take (length out.old.items) out.new.items ≡ out.old.items }
{
    let Some(len) = out.len().checked_add(room) else {
        return Err(RowsError::Memory);
    };
    out.resize(len, 0)?;
    Ok(())
}

/// Appends bytes in Base64 as a string. An error appends nothing.
pub(crate) fn append_base64<A: Allocator>(
    bytes: &[u8],
    out: &mut Vec<u8, A>,
) -> Result<(), RowsError>
    ensures ok { OnOk result (out.new.items ≡ out.old.items ++ base64_string bytes.now) }
    ensures err { IfErr result (λ e. e ≡ Memory) }
    ensures kept { take (length out.old.items) out.new.items ≡ out.old.items }
{
    let start = out.len();
    make_room(base64_len(bytes) + OBJECT_LEN, out)?;
    let end = put_base64_string(out.as_mut_slice(), start, bytes);
    out.truncate(end);
    Ok(())
}

/// Appends an object of bytes in Base64. An error appends nothing.
fn append_base64_object<A: Allocator>(bytes: &[u8], out: &mut Vec<u8, A>) -> Result<(), RowsError>
    ensures ok { OnOk result (out.new.items ≡ out.old.items ++ base64_object bytes.now) }
    ensures err { IfErr result (λ e. e ≡ Memory) }
    ensures kept { take (length out.old.items) out.new.items ≡ out.old.items }
{
    let start = out.len();
    make_room(base64_len(bytes) + OBJECT_LEN, out)?;
    let end = put_base64_object(out.as_mut_slice(), start, bytes);
    out.truncate(end);
    Ok(())
}

/// The maximum length of a byte within a string.
const ESCAPE_LEN: usize = 6;

/// Appends bytes as a string, and returns whether they are UTF-8; else it appends nothing.
fn try_string<A: Allocator>(bytes: &[u8], out: &mut Vec<u8, A>) -> Result<bool, RowsError>
    ensures text { IfOk result (λ is. is ≡ is_utf8 bytes.now) }
    ensures yes { IfOk result (λ is. is ≡ true → out.new.items ≡ out.old.items ++ json_string bytes.now) }
    ensures no { IfOk result (λ is. is ≡ false → out.new.items ≡ out.old.items) }
    ensures err { IfErr result (λ e. e ≡ Memory) }
    ensures kept { take (length out.old.items) out.new.items ≡ out.old.items }
{
    let start = out.len();
    let Some(content) = bytes.len().checked_mul(ESCAPE_LEN) else {
        return Err(RowsError::Memory);
    };
    let Some(room) = content.checked_add(2) else {
        return Err(RowsError::Memory);
    };
    make_room(room, out)?;
    match put_utf8_string(out.as_mut_slice(), start, bytes) {
        Some(end) => {
            out.truncate(end);
            Ok(true)
        }
        None => {
            out.truncate(start);
            Ok(false)
        }
    }
}

/// Appends the path of an update. An error may leave a part of this.
pub(crate) fn append_path<A: Allocator>(path: &[u8], out: &mut Vec<u8, A>) -> Result<(), RowsError>
    ensures ok { OnOk result (out.new.items ≡ out.old.items ++ path_json path.now) }
    ensures err { IfErr result (λ e. e ≡ Memory) }
    ensures kept { take (length out.old.items) out.new.items ≡ out.old.items }
{
    if try_string(path, out)? {
        return Ok(());
    }
    append_base64_object(path, out)
}
