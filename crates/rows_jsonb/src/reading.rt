//! Reads values from the start of bytes.

ghost use Rattle.std.specs.Prelude.{◌≡◌, ◌+◌, Some, drop, OnOk, option_map, if◌then◌else◌};
ghost use Rattle.std.specs.Cow.{cow_slice_items};
ghost use Rattle.wire_constants.specs.ColumnTypes.{column_type_number};
ghost use Rattle.rows_jsonb.specs.JsonbLayout.{format as format_of};
ghost use Rattle.rows_jsonb.specs.JsonbValues.{container, json_number_at, number_size, json_value_at, value_size, literal_at, counted_at, counted_size, opaque_at, container_at, container_size, is_column_type, document, document_size};
ghost use Rattle.rows_jsonb.specs.JsonbViews.{jsonb_value, IsConsumed};
ghost use Rattle.rows_errors.specs.Readings.{map_reading};

use crate::complex::ComplexValue;
use crate::storage_format::{ComplexType, StorageFormat};
use crate::text::{JsonbString, OpaqueValue};
use crate::types::{JsonbType, LiteralType};
use crate::value::Value;
use rows_errors::{JsonbError, RowsError, check_place};
use std::borrow::CowSlice;
use std::marker::PhantomData;
use wire_buf::ParseBuf;
use wire_constants::ColumnType;
use wire_fields::{IntRepr, VarLen};

/// Returns the column type with this number.
fn known_type(number: u8) -> Option<ColumnType>
    ensures { option_map column_type_number result
        ≡ (if is_column_type number then Some number else None) }
{
    match ColumnType::try_from(number) {
        Ok(value_type) => Some(value_type),
        Err(_) => None,
    }
}

/// Reads the string after its length.
fn counted<'a>(buf: &mut ParseBuf<'a>) -> Result<&'a [u8], RowsError>
    ensures value { map_reading (λ s. s.now) result ≡ counted_at buf.old.0.now }
    ensures rest { OnOk result
        (IsConsumed (counted_size buf.old.0.now) buf.old.0.now buf.new.0.now) }
{
    let Ok(len) = VarLen::deserialize(buf) else {
        return Err(RowsError::Jsonb(None));
    };
    match buf.checked_eat(len as usize) {
        Some(text) => Ok(text),
        None => Err(RowsError::Jsonb(None)),
    }
}

/// null, true or false.
fn literal<'a>(buf: &mut ParseBuf<'_>) -> Result<Value<'a>, RowsError>
    ensures value { map_reading jsonb_value result ≡ literal_at buf.old.0.now }
    ensures rest { OnOk result (IsConsumed 1 buf.old.0.now buf.new.0.now) }
{
    let Some(number) = buf.checked_eat_u8() else {
        return Err(RowsError::Jsonb(None));
    };
    match LiteralType::of_byte(number) {
        Some(LiteralType::JSONB_NULL_LITERAL) => Ok(Value::Null),
        Some(LiteralType::JSONB_TRUE_LITERAL) => Ok(Value::Bool(true)),
        Some(LiteralType::JSONB_FALSE_LITERAL) => Ok(Value::Bool(false)),
        None => Err(RowsError::Jsonb(None)),
    }
}

/// Reads a number of a fixed width, by its type.
fn number<'a>(value_type: JsonbType, buf: &mut ParseBuf<'_>) -> Result<Value<'a>, RowsError>
    ensures value { map_reading jsonb_value result ≡ json_number_at value_type buf.old.0.now }
    ensures rest { OnOk result
        (IsConsumed (number_size value_type) buf.old.0.now buf.new.0.now) }
{
    match value_type {
        JsonbType::JSONB_TYPE_INT16 => match buf.checked_eat_i16_le() {
            Some(number) => Ok(Value::I16(number)),
            None => Err(RowsError::Jsonb(None)),
        },
        JsonbType::JSONB_TYPE_UINT16 => match buf.checked_eat_u16_le() {
            Some(number) => Ok(Value::U16(number)),
            None => Err(RowsError::Jsonb(None)),
        },
        JsonbType::JSONB_TYPE_INT32 => match buf.checked_eat_i32_le() {
            Some(number) => Ok(Value::I32(number)),
            None => Err(RowsError::Jsonb(None)),
        },
        JsonbType::JSONB_TYPE_UINT32 => match buf.checked_eat_u32_le() {
            Some(number) => Ok(Value::U32(number)),
            None => Err(RowsError::Jsonb(None)),
        },
        JsonbType::JSONB_TYPE_INT64 => match buf.checked_eat_i64_le() {
            Some(number) => Ok(Value::I64(number)),
            None => Err(RowsError::Jsonb(None)),
        },
        JsonbType::JSONB_TYPE_UINT64 => match buf.checked_eat_u64_le() {
            Some(number) => Ok(Value::U64(number)),
            None => Err(RowsError::Jsonb(None)),
        },
        JsonbType::JSONB_TYPE_DOUBLE => match buf.checked_eat_u64_le() {
            Some(number) => Ok(Value::F64(number)),
            None => Err(RowsError::Jsonb(None)),
        },
        _ => Err(RowsError::Jsonb(None)),
    }
}

/// Reads an opaque value: the column type, then the bytes after their length.
fn opaque<'a>(buf: &mut ParseBuf<'a>) -> Result<Value<'a>, RowsError>
    ensures value { map_reading jsonb_value result ≡ opaque_at buf.old.0.now }
    ensures rest { OnOk result
        (IsConsumed (1 + counted_size (drop 1 buf.old.0.now)) buf.old.0.now buf.new.0.now) }
{
    let Some(number) = buf.checked_eat_u8() else {
        return Err(RowsError::Jsonb(None));
    };
    let Some(value_type) = known_type(number) else {
        return Err(RowsError::Jsonb(None));
    };
    match counted(buf) {
        Ok(bytes) => Ok(Value::Opaque(OpaqueValue::new(value_type, CowSlice::Borrowed(bytes)))),
        Err(fault) => Err(fault),
    }
}

impl<'a, T: StorageFormat, U: ComplexType> ComplexValue<'a, T, U> {
    /// Reads the container that the bytes begin with.
    pub(crate) fn read(buf: &mut ParseBuf<'a>) -> Result<ComplexValue<'a, T, U>, RowsError>
        ensures value { map_reading (λ c. container (format_of T.IS_LARGE U.IS_ARRAY) c.element_count (cow_slice_items c.bytes)) result
            ≡ container_at (format_of T.IS_LARGE U.IS_ARRAY) buf.old.0.now }
        ensures rest { OnOk result
            (IsConsumed (container_size T.IS_LARGE buf.old.0.now) buf.old.0.now buf.new.0.now) }
    {
        let bytes = buf.0;
        if bytes.len() < 2 * usize::from(T::OFFSET_SIZE) {
            return Err(RowsError::Jsonb(None));
        }
        let mut header = ParseBuf(bytes);
        let element_count = T::eat_offset(&mut header);
        let size = T::eat_offset(&mut header) as usize;
        check_place(
            size..size,
            U::header_size::<T>(element_count),
            bytes.len(),
            JsonbError::SizeOverflow,
        )?;
        Ok(ComplexValue {
            element_count,
            bytes: CowSlice::Borrowed(buf.eat(size)),
            format: PhantomData,
        })
    }
}

impl<'a> Value<'a> {
    /// Reads the value of a document: its type byte, then the value. Empty bytes are JSON null.
    pub fn read_document(buf: &mut ParseBuf<'a>) -> Result<Value<'a>, RowsError>
        ensures value { map_reading jsonb_value result ≡ document buf.old.0.now }
        ensures rest { OnOk result
            (IsConsumed (document_size buf.old.0.now) buf.old.0.now buf.new.0.now) }
    {
        let Some(first) = buf.checked_eat_u8() else {
            return Ok(Value::Null);
        };
        match JsonbType::of_byte(first) {
            Some(value_type) => Value::read(value_type, buf),
            None => Err(RowsError::Jsonb(None)),
        }
    }

    /// Reads a value of this type from the start of the bytes.
    pub(crate) fn read(
        value_type: JsonbType,
        buf: &mut ParseBuf<'a>,
    ) -> Result<Value<'a>, RowsError>
        ensures value { map_reading jsonb_value result ≡ json_value_at value_type buf.old.0.now }
        ensures rest { OnOk result
            (IsConsumed (value_size value_type buf.old.0.now) buf.old.0.now buf.new.0.now) }
    {
        match value_type {
            JsonbType::JSONB_TYPE_SMALL_OBJECT => match ComplexValue::read(buf) {
                Ok(container) => Ok(Value::SmallObject(container)),
                Err(fault) => Err(fault),
            },
            JsonbType::JSONB_TYPE_LARGE_OBJECT => match ComplexValue::read(buf) {
                Ok(container) => Ok(Value::LargeObject(container)),
                Err(fault) => Err(fault),
            },
            JsonbType::JSONB_TYPE_SMALL_ARRAY => match ComplexValue::read(buf) {
                Ok(container) => Ok(Value::SmallArray(container)),
                Err(fault) => Err(fault),
            },
            JsonbType::JSONB_TYPE_LARGE_ARRAY => match ComplexValue::read(buf) {
                Ok(container) => Ok(Value::LargeArray(container)),
                Err(fault) => Err(fault),
            },
            JsonbType::JSONB_TYPE_LITERAL => literal(buf),
            JsonbType::JSONB_TYPE_STRING => match counted(buf) {
                Ok(text) => Ok(Value::String(JsonbString::new(CowSlice::Borrowed(text)))),
                Err(fault) => Err(fault),
            },
            JsonbType::JSONB_TYPE_OPAQUE => opaque(buf),
            _ => number(value_type, buf),
        }
    }
}
