//! The elements and keys of containers, generic over the four container formats.

ghost use Rattle.std.specs.Prelude.{◌≡◌, ◌<◌, option_map, true, false};
ghost use Rattle.std.specs.Cow.{cow_slice_items};
ghost use Rattle.wire_fields.specs.RawTexts.{raw_string};
ghost use Rattle.rows_jsonb.specs.JsonbLayout.{format as format_of, key_entry_offset};
ghost use Rattle.rows_jsonb.specs.JsonbValues.{elem, key, member, elem_up_to, key_up_to, elem_in, object_key, count_in, is_object_in};
ghost use Rattle.rows_jsonb.specs.JsonbViews.{jsonb_value};
ghost use Rattle.rows_errors.specs.Readings.{map_reading};

use crate::complex::ComplexValue;
use crate::storage_format::{ComplexType, Object, StorageFormat};
use crate::text::ObjectKey;
use crate::types::JsonbType;
use crate::value::Value;
use rows_errors::{JsonbError, RowsError, check_place};
use std::borrow::CowSlice;
use wire_buf::ParseBuf;

impl<'a, T: StorageFormat, U: ComplexType> ComplexValue<'a, T, U> {
    /// Returns element number `pos`, or None if there are fewer elements.
    pub fn elem_at(&self, pos: u32) -> Result<Option<Value<'_>>, RowsError>
        ensures { map_reading (option_map jsonb_value) result
            ≡ elem_up_to (format_of T.IS_LARGE U.IS_ARRAY) self.now.element_count (cow_slice_items self.now.bytes) pos }
    {
        if pos >= self.element_count {
            return Ok(None);
        }
        match self.elem(pos) {
            Ok(value) => Ok(Some(value)),
            Err(fault) => Err(fault),
        }
    }

    /// Returns element number `pos`.
    pub(crate) fn elem(&self, pos: u32) -> Result<Value<'_>, RowsError>
        requires { pos < self.now.element_count }
        ensures { map_reading jsonb_value result
            ≡ elem (format_of T.IS_LARGE U.IS_ARRAY) self.now.element_count (cow_slice_items self.now.bytes) pos }
    {
        let at = U::value_entry_offset::<T>(self.element_count, pos);
        let Some(value_type) = JsonbType::of_byte(self.bytes[at]) else {
            return Err(RowsError::Jsonb(None));
        };
        let entry = &self.bytes[at + 1..];
        if value_type.is_inlined::<T>() {
            return Value::read(
                value_type,
                &mut ParseBuf(&entry[..usize::from(T::OFFSET_SIZE)]),
            );
        }
        let offset = T::eat_offset(&mut ParseBuf(entry)) as usize;
        check_place(
            offset..offset,
            at + usize::from(T::VALUE_ENTRY_SIZE),
            self.bytes.len(),
            JsonbError::InvalidValueOffsetPointer,
        )?;
        Value::read(value_type, &mut ParseBuf(&self.bytes[offset..]))
    }
}

impl<'a, T: StorageFormat> ComplexValue<'a, T, Object> {
    /// Returns key number `pos`, or None if there are fewer keys.
    pub fn key_at(&self, pos: u32) -> Result<Option<ObjectKey<'_>>, RowsError>
        ensures { map_reading (option_map (λ k. raw_string k.0)) result
            ≡ key_up_to (format_of T.IS_LARGE false) self.now.element_count (cow_slice_items self.now.bytes) pos }
    {
        if pos >= self.element_count {
            return Ok(None);
        }
        match self.key(pos) {
            Ok(bytes) => Ok(Some(ObjectKey::new(CowSlice::Borrowed(bytes)))),
            Err(fault) => Err(fault),
        }
    }

    /// Returns the offset of the entry of key number `pos`.
    fn key_entry_offset(pos: u32) -> usize
        ensures { result ≡ key_entry_offset T.IS_LARGE pos }
    {
        2 * usize::from(T::OFFSET_SIZE) + usize::from(T::KEY_ENTRY_SIZE) * pos as usize
    }

    /// Returns the bytes of key number `pos`.
    pub(crate) fn key(&self, pos: u32) -> Result<&[u8], RowsError>
        requires { pos < self.now.element_count }
        ensures { map_reading (λ s. s.now) result
            ≡ key (format_of T.IS_LARGE false) self.now.element_count (cow_slice_items self.now.bytes) pos }
    {
        let at = Self::key_entry_offset(pos);
        let mut entry = ParseBuf(&self.bytes[at..]);
        let offset = T::eat_offset(&mut entry) as usize;
        let len = usize::from(entry.eat_u16_le());
        check_place(
            offset..offset + len,
            Object::header_size::<T>(self.element_count),
            self.bytes.len(),
            JsonbError::InvalidKeyOffsetPointer,
        )?;
        Ok(&self.bytes[offset..offset + len])
    }
}

impl<T: StorageFormat> ComplexValue<'_, T, Object> {
    /// Returns member number `pos`: its key and its value.
    pub(crate) fn member(&self, pos: u32) -> Result<(ObjectKey<'_>, Value<'_>), RowsError>
        requires { pos < self.now.element_count }
        ensures { map_reading (λ m. (raw_string m.0.0, jsonb_value m.1)) result
            ≡ member (format_of T.IS_LARGE false) self.now.element_count (cow_slice_items self.now.bytes) pos }
    {
        let bytes = match self.key(pos) {
            Ok(bytes) => bytes,
            Err(fault) => return Err(fault),
        };
        match self.elem(pos) {
            Ok(value) => Ok((ObjectKey::new(CowSlice::Borrowed(bytes)), value)),
            Err(fault) => Err(fault),
        }
    }
}

impl<'a> Value<'a> {
    /// Returns the number of elements; 0 for a value that isn't a container.
    pub(crate) fn count(&self) -> u32
        ensures { result ≡ count_in (jsonb_value self.now) }
    {
        match self {
            Value::SmallArray(container) => container.element_count(),
            Value::LargeArray(container) => container.element_count(),
            Value::SmallObject(container) => container.element_count(),
            Value::LargeObject(container) => container.element_count(),
            _ => 0,
        }
    }

    /// Returns element number `pos`.
    pub(crate) fn elem(&self, pos: u32) -> Result<Value<'_>, RowsError>
        requires { pos < count_in (jsonb_value self.now) }
        ensures { map_reading jsonb_value result ≡ elem_in (jsonb_value self.now) pos }
    {
        match self {
            Value::SmallArray(container) => container.elem(pos),
            Value::LargeArray(container) => container.elem(pos),
            Value::SmallObject(container) => container.elem(pos),
            Value::LargeObject(container) => container.elem(pos),
            _ => Err(RowsError::Jsonb(None)),
        }
    }

    /// Returns the bytes of key number `pos` of an object.
    pub(crate) fn key(&self, pos: u32) -> Result<&[u8], RowsError>
        requires object { is_object_in (jsonb_value self.now) ≡ true }
        requires below { pos < count_in (jsonb_value self.now) }
        ensures { map_reading (λ s. s.now) result ≡ object_key (jsonb_value self.now) pos }
    {
        match self {
            Value::SmallObject(container) => container.key(pos),
            Value::LargeObject(container) => container.key(pos),
            _ => Err(RowsError::Jsonb(None)),
        }
    }
}
