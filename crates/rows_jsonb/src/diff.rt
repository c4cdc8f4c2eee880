//! JSON diffs: the changes to a document in a partial update of a JSON column.

ghost use Rattle.std.specs.Prelude.{◌≡◌, ◌⊎◌, IfOk, IfErr, Err, Some, option_map};
ghost use Rattle.std.specs.Cow.{cow_str_bytes, IsOwnedSlice};
ghost use Rattle.std.specs.Str.Lossy.{utf8_lossy};
ghost use Rattle.wire_constants.specs.Numbering.{IsConstantOf};
ghost use Rattle.wire_fields.specs.RawTexts.{raw_string};
ghost use Rattle.rows_errors.specs.declared.fault.RowsError.TheVariants.{Memory};
ghost use Rattle.rows_jsonb.specs.JsonDiffs.{json_diff_operation_number, Diff, IsDiff, operation_at, text_at, diff_value_at, diff_at};
ghost use Rattle.rows_jsonb.specs.Items.{items_at, all_found, after_item, error_of};
ghost use Rattle.std.specs.Prelude.{map as list_map};
ghost use Rattle.rows_jsonb.specs.JsonDiffViews.{diff_view};
ghost use Rattle.rows_jsonb.specs.JsonbViews.{jsonb_value};
ghost use Rattle.rows_errors.specs.Readings.{map_reading};

use crate::value::Value;
use rows_errors::RowsError;
use std::alloc::{AllocError, Global};
use std::borrow::{CowSlice, CowStr};
use thiserror::Error;
use wire_buf::{AnySize, MyDeserialize, ParseBuf};
use wire_fields::{LenEnc, RawBytes};

/// What a JSON diff does.
#[derive(Clone, Copy, Debug, PartialEq, Eq, Hash)]
pub enum JsonDiffOperation {
    /// Replaces the value at the path.
    REPLACE = 0,
    /// Inserts a value at the path.
    INSERT = 1,
    /// Removes the value at the path.
    REMOVE = 2,
}

/// A number that no operation has.
#[derive(Clone, Copy, Debug, PartialEq, Eq, Hash, Error)]
#[error("Unknown JsonDiff operation {0}")]
pub struct UnknownJsonDiffOperation(pub u8);

impl TryFrom<u8> for JsonDiffOperation {
    type Error = UnknownJsonDiffOperation;

    ghost try_from_gives = { IsConstantOf json_diff_operation_number (λ unknown. unknown.0) };

    /// Converts the number of an operation; numbers from 3 on are errors.
    fn try_from(number: u8) -> Result<JsonDiffOperation, UnknownJsonDiffOperation> {
        match number {
            0 => Ok(JsonDiffOperation::REPLACE),
            1 => Ok(JsonDiffOperation::INSERT),
            2 => Ok(JsonDiffOperation::REMOVE),
            _ => Err(UnknownJsonDiffOperation(number)),
        }
    }
}

impl From<UnknownJsonDiffOperation> for u8 {
    ghost from_gives = { λ unknown number. number ≡ unknown.0 };

    /// Returns the number that no operation has.
    fn from(unknown: UnknownJsonDiffOperation) -> u8 {
        unknown.0
    }
}

/// A change to a part of a JSON document. MySQL's source: `Json_diff` in `json_diff.h`.
#[derive(PartialEq, Drop)]
pub struct JsonDiff<'a> {
    path: RawBytes<'a, LenEnc>,
    operation: JsonDiffOperation,
    value: Option<Value<'a>>,
}

impl<'a> JsonDiff<'a> {
    /// Returns the path of the part, as in `$.a[0]`, in bytes.
    pub fn path(&self) -> &[u8]
        ensures { result.now ≡ raw_string self.now.path }
    {
        self.path.as_bytes()
    }

    /// Returns the path as text, with replacement characters where it isn't UTF-8.
    pub fn path_str(&self, alloc: Global) -> Result<CowStr<'_>, AllocError>
        ensures { IfOk result (λ t. cow_str_bytes t ≡ utf8_lossy (raw_string self.now.path)) }
    {
        self.path.as_str(alloc)
    }

    /// Returns what the diff does.
    pub fn operation(&self) -> JsonDiffOperation
        ensures { result ≡ self.now.operation }
    {
        self.operation
    }

    /// Returns the new value; a removal has none.
    pub fn value(&self) -> Option<&Value<'a>>
        ensures { option_map (λ v. v.now) result ≡ self.now.value }
    {
        self.value.as_ref()
    }

    /// Returns the same diff with bytes of its own.
    pub fn into_owned(self, alloc: Global) -> Result<JsonDiff<'static>, AllocError>
        ensures path { IfOk result (λ d. raw_string d.path ≡ raw_string self.entry.path) }
        ensures operation { IfOk result (λ d. d.operation ≡ self.entry.operation) }
        ensures value { IfOk result (λ d. option_map jsonb_value d.value ≡ option_map jsonb_value self.entry.value) }
        ensures owned { IfOk result (λ d. IsOwnedSlice d.path.0) }
    {
        let JsonDiff {
            path,
            operation,
            value,
        } = self;
        let path = match path.into_owned(alloc) {
            Ok(path) => path,
            Err(fault) => {
                drop(value);
                return Err(fault);
            }
        };
        let value = match value {
            None => None,
            Some(value) => Some(value.into_owned(alloc)?),
        };
        Ok(JsonDiff {
            path,
            operation,
            value,
        })
    }
}

/// Reads the operation of the diff that the bytes begin with.
fn split_operation(bytes: &[u8]) -> Result<(JsonDiffOperation, &[u8]), RowsError>
    ensures { map_reading (λ x. (x.0, x.1.now)) result ≡ operation_at bytes.now }
{
    let Some((number, rest)) = bytes.split_first() else {
        return Err(RowsError::Jsonb(None));
    };
    match *number {
        0 => Ok((JsonDiffOperation::REPLACE, rest)),
        1 => Ok((JsonDiffOperation::INSERT, rest)),
        2 => Ok((JsonDiffOperation::REMOVE, rest)),
        _ => Err(RowsError::Jsonb(None)),
    }
}

/// Reads the length-encoded string that the bytes begin with.
fn split_text(bytes: &[u8]) -> Result<(&[u8], &[u8]), RowsError>
    ensures { map_reading (λ x. (x.0.now, x.1.now)) result ≡ text_at bytes.now }
{
    let mut rest = ParseBuf(bytes);
    match rest.checked_eat_lenenc_str() {
        Some(text) => Ok((text, rest.0)),
        None => Err(RowsError::Jsonb(None)),
    }
}

/// Reads the value of a diff: a length-encoded document, of which bytes after the value are ignored. A removal has no value.
fn split_value(
    operation: JsonDiffOperation,
    bytes: &[u8],
) -> Result<(Option<Value<'_>>, &[u8]), RowsError>
    ensures { map_reading (λ x. (option_map jsonb_value x.0, x.1.now)) result ≡ diff_value_at operation bytes.now }
{
    match operation {
        JsonDiffOperation::REMOVE => Ok((None, bytes)),
        JsonDiffOperation::REPLACE | JsonDiffOperation::INSERT => {
            let (content, rest) = split_text(bytes)?;
            let value = Value::read_document(&mut ParseBuf(content))?;
            Ok((Some(value), rest))
        }
    }
}

impl<'a> JsonDiff<'a> {
    /// Returns the diff that the bytes begin with, and the bytes after it: the operation's number, the length-encoded path and,
    /// unless the operation removes a value, a length-encoded document. It takes no memory.
    ///
    /// Returns `Jsonb` if the bytes don't begin with a diff; it has the document's pointer or size error if that is the cause.
    #[tactic(auto, unfolding(crate::specs::JsonDiffs::diff_at))]
    pub fn split_diff(bytes: &'a [u8]) -> Result<(JsonDiff<'a>, &'a [u8]), RowsError>
        ensures { map_reading (λ x. (diff_view x.0, x.1.now)) result ≡ diff_at bytes.entry.now }
    {
        let (operation, rest) = split_operation(bytes)?;
        let (path, rest) = split_text(rest)?;
        let (value, rest) = split_value(operation, rest)?;
        let diff = JsonDiff {
            path: RawBytes::new(CowSlice::Borrowed(path)),
            operation,
            value,
        };
        Ok((diff, rest))
    }
}

/// Returns the diffs that make up all of the bytes, as in a cell of a partial update.
///
/// - `Jsonb`: one of them can't be read, as in `JsonDiff::split_diff`.
/// - `Memory`: out of memory.
pub fn json_diffs(alloc: Global, bytes: &[u8]) -> Result<Vec<JsonDiff<'_>>, RowsError>
    ensures ok { IfOk result (λ v. items_at diff_at bytes.now ≡ all_found (list_map diff_view v.items)) }
    ensures err { IfErr result (λ e. e ≡ Memory ⊎ ((items_at diff_at bytes.now).fault ≡ Some e)) }
{
    let mut diffs = Vec::new(alloc);
    let mut rest = bytes;
    while !rest.is_empty() {
        match JsonDiff::split_diff(rest) {
            Ok((diff, after)) => {
                diffs.push(diff)?;
                rest = after;
            }
            Err(fault) => return Err(fault),
        }
    }
    Ok(diffs)
}

/// Returns the bytes after the diff that the bytes begin with.
fn after_diff(bytes: &[u8]) -> Result<&[u8], RowsError>
    ensures { map_reading (λ x. x.now) result ≡ after_item (diff_at bytes.now) }
{
    let (diff, rest) = JsonDiff::split_diff(bytes)?;
    drop(diff);
    Ok(rest)
}

/// Checks that the bytes are consecutive diffs up to their end, as in a cell of a partial update. It takes no memory. Returns
/// `Jsonb` if one of them can't be read, as `JsonDiff::split_diff` does.
pub fn check_json_diffs(bytes: &[u8]) -> Result<(), RowsError>
    ensures { error_of result ≡ (items_at diff_at bytes.now).fault }
{
    let mut rest = bytes;
    while !rest.is_empty() {
        match after_diff(rest) {
            Ok(after) => rest = after,
            Err(fault) => return Err(fault),
        }
    }
    Ok(())
}

impl<'de> MyDeserialize<'de> for JsonDiff<'de> {
    const SIZE: Option<usize> = None;

    type Size = AnySize;

    type Ctx = ();

    type Fault = RowsError;

    ghost View = { Diff };

    ghost view = { diff_view };

    ghost encodes = { λ ctx. IsDiff };

    ghost fails_with = { λ ctx x e. diff_at x ≡ Err e };

    /// Reads the operation's number, the length-encoded path and, unless the operation removes a value, a length-encoded
    /// document. It takes no memory.
    fn deserialize(
        _alloc: Global,
        _ctx: (),
        buf: &mut ParseBuf<'de>,
    ) -> Result<JsonDiff<'de>, RowsError> {
        match JsonDiff::split_diff(buf.0) {
            Ok((diff, rest)) => {
                buf.0 = rest;
                Ok(diff)
            }
            Err(fault) => Err(fault),
        }
    }

    ghost sized = { λ ctx v bytes rest h. tt };
}
