//! Iterators over the elements of arrays, and over the members and keys of objects.

ghost use Rattle.std.specs.Prelude.{◌≡◌, ◌<◌, ◌-◌, option_map, true, false};
ghost use Rattle.std.specs.Cow.{cow_slice_items};
ghost use Rattle.std.specs.Iterator.{at_most};
ghost use Rattle.wire_fields.specs.RawTexts.{raw_string};
ghost use Rattle.rows_jsonb.specs.JsonbLayout.{format as format_of};
ghost use Rattle.rows_jsonb.specs.JsonbValues.{elem, key, member, entry_at_index, next_index};
ghost use Rattle.rows_jsonb.specs.JsonbViews.{jsonb_value};
ghost use Rattle.rows_errors.specs.Readings.{map_reading};

use crate::complex::ComplexValue;
use crate::storage_format::{Array, Object, StorageFormat};
use crate::text::ObjectKey;
use crate::value::Value;
use rows_errors::RowsError;
use std::borrow::CowSlice;

/// Iterates over the elements of an array in order. An element that can't be read is an error, and the next elements follow.
#[derive_where(Clone, Copy, PartialEq)]
pub struct ArrayIter<'a, T: StorageFormat> {
    cur: u32,
    arr: &'a ComplexValue<'a, T, Array>,
}

impl<'a, T: StorageFormat> Iterator for ArrayIter<'a, T> {
    type Item = Result<Value<'a>, RowsError>;

    ghost next_gives = { λ it item after.
        (option_map (map_reading jsonb_value) item ≡ entry_at_index it.arr.now.element_count (elem (format_of T.IS_LARGE true) it.arr.now.element_count (cow_slice_items it.arr.now.bytes)) it.cur)
        × (after.arr ≡ it.arr) × (after.cur ≡ next_index it.arr.now.element_count it.cur) };

    ghost remaining = { λ it. at_most (it.arr.now.element_count - it.cur) };

    fn next(&mut self) -> Option<Result<Value<'a>, RowsError>> {
        if self.cur >= self.arr.element_count {
            return None;
        }
        let element = self.arr.elem(self.cur);
        self.cur += 1;
        Some(element)
    }
}

impl<'a, T: StorageFormat> ComplexValue<'a, T, Array> {
    /// Iterates over the elements in order.
    pub fn iter(&'a self) -> ArrayIter<'a, T>
        ensures array { result.arr ≡ self.entry }
        ensures first { result.cur ≡ 0 }
    {
        ArrayIter { cur: 0, arr: self }
    }
}

/// Iterates over the keys of an object in order. A key that can't be read is an error, and the next keys follow.
#[derive_where(Clone, Copy, PartialEq)]
pub struct ObjectKeys<'a, T: StorageFormat> {
    cur: u32,
    obj: &'a ComplexValue<'a, T, Object>,
}

impl<'a, T: StorageFormat> Iterator for ObjectKeys<'a, T> {
    type Item = Result<ObjectKey<'a>, RowsError>;

    ghost next_gives = { λ it item after.
        (option_map (map_reading (λ k. raw_string k.0)) item ≡ entry_at_index it.obj.now.element_count (key (format_of T.IS_LARGE false) it.obj.now.element_count (cow_slice_items it.obj.now.bytes)) it.cur)
        × (after.obj ≡ it.obj) × (after.cur ≡ next_index it.obj.now.element_count it.cur) };

    ghost remaining = { λ it. at_most (it.obj.now.element_count - it.cur) };

    fn next(&mut self) -> Option<Result<ObjectKey<'a>, RowsError>> {
        if self.cur >= self.obj.element_count {
            return None;
        }
        let key = match self.obj.key(self.cur) {
            Ok(bytes) => Ok(ObjectKey::new(CowSlice::Borrowed(bytes))),
            Err(fault) => Err(fault),
        };
        self.cur += 1;
        Some(key)
    }
}

/// Iterates over the members of an object in order, as keys and values. A member that can't be read is an error, and the next
/// members follow.
#[derive_where(Clone, Copy, PartialEq)]
pub struct ObjectIter<'a, T: StorageFormat> {
    cur: u32,
    obj: &'a ComplexValue<'a, T, Object>,
}

impl<'a, T: StorageFormat> Iterator for ObjectIter<'a, T> {
    type Item = Result<(ObjectKey<'a>, Value<'a>), RowsError>;

    ghost next_gives = { λ it item after.
        (option_map (map_reading (λ m. (raw_string m.0.0, jsonb_value m.1))) item ≡ entry_at_index it.obj.now.element_count (member (format_of T.IS_LARGE false) it.obj.now.element_count (cow_slice_items it.obj.now.bytes)) it.cur)
        × (after.obj ≡ it.obj) × (after.cur ≡ next_index it.obj.now.element_count it.cur) };

    ghost remaining = { λ it. at_most (it.obj.now.element_count - it.cur) };

    fn next(&mut self) -> Option<Result<(ObjectKey<'a>, Value<'a>), RowsError>> {
        if self.cur >= self.obj.element_count {
            return None;
        }
        let member = self.obj.member(self.cur);
        self.cur += 1;
        Some(member)
    }
}

impl<'a, T: StorageFormat> ComplexValue<'a, T, Object> {
    /// Iterates over the keys in order.
    pub fn keys(&'a self) -> ObjectKeys<'a, T>
        ensures object { result.obj ≡ self.entry }
        ensures first { result.cur ≡ 0 }
    {
        ObjectKeys { cur: 0, obj: self }
    }

    /// Iterates over the members in order.
    pub fn iter(&'a self) -> ObjectIter<'a, T>
        ensures object { result.obj ≡ self.entry }
        ensures first { result.cur ≡ 0 }
    {
        ObjectIter { cur: 0, obj: self }
    }
}
