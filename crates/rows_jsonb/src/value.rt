//! JSON values, as encoded in a document.

ghost use Rattle.std.specs.Prelude.{◌≡◌, IfOk, option_map};
ghost use Rattle.wire_constants.specs.ColumnTypes.{column_type_number};
ghost use Rattle.rows_jsonb.specs.JsonbValues.{is_array_in, is_object_in, is_int_in, is_uint_in, is_double_in, element_count_in, field_type_in};

use crate::complex::ComplexValue;
use crate::storage_format::{Array, Large, Object, Small};
use crate::text::{JsonbString, OpaqueValue};
use std::alloc::{AllocError, Global};
use wire_constants::ColumnType;

/// A value in a document. The elements of containers aren't read.
#[derive(PartialEq, Drop)]
pub enum Value<'a> {
    Null,
    Bool(bool),
    I16(i16),
    U16(u16),
    I32(i32),
    U32(u32),
    I64(i64),
    U64(u64),
    /// The bits of a double.
    F64(u64),
    String(JsonbString<'a>),
    SmallArray(ComplexValue<'a, Small, Array>),
    LargeArray(ComplexValue<'a, Large, Array>),
    SmallObject(ComplexValue<'a, Small, Object>),
    LargeObject(ComplexValue<'a, Large, Object>),
    Opaque(OpaqueValue<'a>),
}

impl<'a> Value<'a> {
    ghost use Rattle.rows_jsonb.specs.JsonbViews.{jsonb_value};

    /// Returns the same value with bytes of its own.
    pub fn into_owned(self, alloc: Global) -> Result<Value<'static>, AllocError>
        ensures { IfOk result (λ v. jsonb_value v ≡ jsonb_value self.entry) }
    {
        match self {
            Value::Null => Ok(Value::Null),
            Value::Bool(b) => Ok(Value::Bool(b)),
            Value::I16(x) => Ok(Value::I16(x)),
            Value::U16(x) => Ok(Value::U16(x)),
            Value::I32(x) => Ok(Value::I32(x)),
            Value::U32(x) => Ok(Value::U32(x)),
            Value::I64(x) => Ok(Value::I64(x)),
            Value::U64(x) => Ok(Value::U64(x)),
            Value::F64(bits) => Ok(Value::F64(bits)),
            Value::String(string) => Ok(Value::String(string.into_owned(alloc)?)),
            Value::SmallArray(array) => Ok(Value::SmallArray(array.into_owned(alloc)?)),
            Value::LargeArray(array) => Ok(Value::LargeArray(array.into_owned(alloc)?)),
            Value::SmallObject(object) => Ok(Value::SmallObject(object.into_owned(alloc)?)),
            Value::LargeObject(object) => Ok(Value::LargeObject(object.into_owned(alloc)?)),
            Value::Opaque(opaque) => Ok(Value::Opaque(opaque.into_owned(alloc)?)),
        }
    }

    /// Returns whether this is an array.
    pub fn is_array(&self) -> bool
        ensures { result ≡ is_array_in (jsonb_value self.now) }
    {
        matches!(self, Value::SmallArray(_) | Value::LargeArray(_))
    }

    /// Returns whether this is an object.
    pub fn is_object(&self) -> bool
        ensures { result ≡ is_object_in (jsonb_value self.now) }
    {
        matches!(self, Value::SmallObject(_) | Value::LargeObject(_))
    }

    /// Returns whether this is a signed number.
    pub fn is_int(&self) -> bool
        ensures { result ≡ is_int_in (jsonb_value self.now) }
    {
        matches!(self, Value::I16(_) | Value::I32(_) | Value::I64(_))
    }

    /// Returns whether this is an unsigned number.
    pub fn is_uint(&self) -> bool
        ensures { result ≡ is_uint_in (jsonb_value self.now) }
    {
        matches!(self, Value::U16(_) | Value::U32(_) | Value::U64(_))
    }

    /// Returns whether this is a double.
    pub fn is_double(&self) -> bool
        ensures { result ≡ is_double_in (jsonb_value self.now) }
    {
        matches!(self, Value::F64(_))
    }

    /// Returns the number of elements of an array or an object; None for other values.
    pub fn element_count(&self) -> Option<u32>
        ensures { result ≡ element_count_in (jsonb_value self.now) }
    {
        match self {
            Value::SmallArray(container) => Some(container.element_count()),
            Value::LargeArray(container) => Some(container.element_count()),
            Value::SmallObject(container) => Some(container.element_count()),
            Value::LargeObject(container) => Some(container.element_count()),
            _ => None,
        }
    }

    /// Returns the column type of an opaque value; None for other values.
    pub fn field_type(&self) -> Option<ColumnType>
        ensures { option_map column_type_number result ≡ field_type_in (jsonb_value self.now) }
    {
        match self {
            Value::Opaque(opaque) => Some(opaque.value_type()),
            _ => None,
        }
    }
}
