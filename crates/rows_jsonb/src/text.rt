//! Strings, keys and opaque values, as encoded in a document.

ghost use Rattle.std.specs.Prelude.{◌≡◌, IfOk};
ghost use Rattle.std.specs.Cow.{cow_slice_items, cow_str_bytes, IsOwnedSlice};
ghost use Rattle.std.specs.Str.Lossy.{utf8_lossy};
ghost use Rattle.wire_fields.specs.RawTexts.{raw_string};

use std::alloc::{AllocError, Global};
use std::borrow::{CowSlice, CowStr};
use wire_constants::ColumnType;
use wire_fields::{BareU16Bytes, RawBytes, VarLen};

/// The bytes of a string of a document, which may not be UTF-8.
#[derive(PartialEq, Eq, Drop)]
pub struct JsonbString<'a>(pub(crate) RawBytes<'a, VarLen>);

impl<'a> JsonbString<'a> {
    /// Creates a string of these bytes.
    pub fn new(string: CowSlice<'a, u8>) -> JsonbString<'a>
        ensures { result.0.0 ≡ string.entry }
    {
        JsonbString(RawBytes::new(string))
    }

    /// Returns the bytes.
    pub fn str_raw(&self) -> &[u8]
        ensures { result.now ≡ raw_string self.now.0 }
    {
        self.0.as_bytes()
    }

    /// Returns the string as text, with replacement characters where it isn't UTF-8.
    pub fn str(&self, alloc: Global) -> Result<CowStr<'_>, AllocError>
        ensures { IfOk result (λ t. cow_str_bytes t ≡ utf8_lossy (raw_string self.now.0)) }
    {
        self.0.as_str(alloc)
    }

    /// Returns the same string with bytes of its own.
    pub fn into_owned(self, alloc: Global) -> Result<JsonbString<'static>, AllocError>
        ensures text { IfOk result (λ t. raw_string t.0 ≡ raw_string self.entry.0) }
        ensures owned { IfOk result (λ t. IsOwnedSlice t.0.0) }
    {
        Ok(JsonbString(self.0.into_owned(alloc)?))
    }

    /// Returns the bytes, borrowed or owned as they are.
    pub fn into_raw(self) -> CowSlice<'a, u8>
        ensures { result ≡ self.entry.0.0 }
    {
        self.0.0
    }
}

/// The key of a member, which may not be UTF-8.
#[derive(PartialEq, Eq, Drop)]
pub struct ObjectKey<'a>(pub(crate) RawBytes<'a, BareU16Bytes>);

impl<'a> ObjectKey<'a> {
    /// Creates a key of these bytes.
    pub fn new(key: CowSlice<'a, u8>) -> ObjectKey<'a>
        ensures { result.0.0 ≡ key.entry }
    {
        ObjectKey(RawBytes::new(key))
    }

    /// Returns the bytes.
    pub fn value_raw(&self) -> &[u8]
        ensures { result.now ≡ raw_string self.now.0 }
    {
        self.0.as_bytes()
    }

    /// Returns the key as text, with replacement characters where it isn't UTF-8.
    pub fn value(&self, alloc: Global) -> Result<CowStr<'_>, AllocError>
        ensures { IfOk result (λ t. cow_str_bytes t ≡ utf8_lossy (raw_string self.now.0)) }
    {
        self.0.as_str(alloc)
    }
}

/// An opaque value: a value of a column type that JSON doesn't have, as bytes.
#[derive(PartialEq, Drop)]
pub struct OpaqueValue<'a> {
    pub(crate) value_type: ColumnType,
    pub(crate) bytes: RawBytes<'a, VarLen>,
}

impl<'a> OpaqueValue<'a> {
    /// Creates a value of this type with these bytes.
    pub fn new(value_type: ColumnType, bytes: CowSlice<'a, u8>) -> OpaqueValue<'a>
        ensures value_type { result.value_type ≡ value_type }
        ensures bytes { result.bytes.0 ≡ bytes.entry }
    {
        OpaqueValue {
            value_type,
            bytes: RawBytes::new(bytes),
        }
    }

    /// Returns the column type.
    pub fn value_type(&self) -> ColumnType
        ensures { result ≡ self.now.value_type }
    {
        self.value_type
    }

    /// Returns the bytes.
    pub fn data_raw(&self) -> &[u8]
        ensures { result.now ≡ raw_string self.now.bytes }
    {
        self.bytes.as_bytes()
    }

    /// Returns the bytes as text, with replacement characters where they aren't UTF-8.
    pub fn data(&self, alloc: Global) -> Result<CowStr<'_>, AllocError>
        ensures { IfOk result (λ t. cow_str_bytes t ≡ utf8_lossy (raw_string self.now.bytes)) }
    {
        self.bytes.as_str(alloc)
    }

    /// Returns the same value with bytes of its own.
    pub fn into_owned(self, alloc: Global) -> Result<OpaqueValue<'static>, AllocError>
        ensures value_type { IfOk result (λ o. o.value_type ≡ self.entry.value_type) }
        ensures bytes { IfOk result (λ o. raw_string o.bytes ≡ raw_string self.entry.bytes) }
        ensures owned { IfOk result (λ o. IsOwnedSlice o.bytes.0) }
    {
        let OpaqueValue { value_type, bytes } = self;
        Ok(OpaqueValue {
            value_type,
            bytes: bytes.into_owned(alloc)?,
        })
    }

    /// Returns the bytes, borrowed or owned as they are.
    pub fn into_data(self) -> CowSlice<'a, u8>
        ensures { result ≡ self.entry.bytes.0 }
    {
        self.bytes.0
    }
}
