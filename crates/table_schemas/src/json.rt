//! Lines that are JSON objects.

use crate::fault::SchemaFaultKind;
use crate::numbers::narrowed;
use crate::rows::Row;
use serde_json::Value;
use std::alloc::Global;
use std::str;

/// Reads the text of a member.
fn read_text(object: &Value, name: &str, text: &mut Vec<u8>) -> Result<(), SchemaFaultKind> {
    let Some(value) = object.get(name).and_then(Value::as_str) else {
        return Err(SchemaFaultKind::Json);
    };
    text.clear();
    text.extend_from_slice(value.as_bytes())?;
    Ok(())
}

/// The number of a member that may be missing or null.
fn optional_number(object: &Value, name: &str) -> Result<Option<u64>, SchemaFaultKind> {
    match object.get(name) {
        None | Some(Value::Null) => Ok(None),
        Some(value) => match value.as_u64() {
            Some(number) => Ok(Some(number)),
            None => Err(SchemaFaultKind::Number),
        },
    }
}

/// The number of a collation that may be missing or null.
fn collation_of(object: &Value) -> Result<Option<u16>, SchemaFaultKind> {
    let Some(number) = optional_number(object, "collation")? else {
        return Ok(None);
    };
    match narrowed(number) {
        Some(collation) => Ok(Some(collation)),
        None => Err(SchemaFaultKind::Number),
    }
}

/// The object that a line is.
fn object_in(alloc: Global, line: &[u8]) -> Result<Value, SchemaFaultKind> {
    let Ok(text) = str::from_utf8(line) else {
        return Err(SchemaFaultKind::Json);
    };
    match Value::from_str(alloc, text) {
        Ok(value) => Ok(value),
        Err(error) if error.is_memory() => Err(SchemaFaultKind::Memory),
        Err(_) => Err(SchemaFaultKind::Json),
    }
}

/// Reads the members of a column.
fn read_object(object: &Value, row: &mut Row) -> Result<(), SchemaFaultKind> {
    let Some(position) = optional_number(object, "position")? else {
        return Err(SchemaFaultKind::Json);
    };
    row.position = position;
    read_text(object, "database", &mut row.database)?;
    read_text(object, "table", &mut row.table)?;
    read_text(object, "column", &mut row.name)?;
    read_text(object, "type", &mut row.type_text)?;
    row.collation = collation_of(object)?;
    row.key_position = optional_number(object, "key_position")?;
    row.key_prefix = optional_number(object, "key_prefix")?;
    Ok(())
}

/// Reads a line.
///
/// - `Json`: it isn't a JSON object with the members of a column.
/// - `Number`: a number can't be read.
/// - `Memory`: out of memory.
pub(crate) fn read_line(alloc: Global, line: &[u8], row: &mut Row) -> Result<(), SchemaFaultKind> {
    let object = object_in(alloc, line)?;
    let read = read_object(&object, row);
    drop(object);
    read
}
