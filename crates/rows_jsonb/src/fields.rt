//! Reading and writing documents, containers and strings as fields.

ghost use Rattle.std.specs.Prelude.{◌≡◌, List, ℕ, take, Err, None, Some};
ghost use Rattle.wire_buf.specs.Encoding.{Alone};
ghost use Rattle.rows_errors.specs.declared.fault.RowsError.TheVariants.{Jsonb};
ghost use Rattle.std.specs.Cow.{cow_slice_items};
ghost use Rattle.wire_buf.specs.Numbers.{IsCounted};
ghost use Rattle.wire_fields.specs.Sevens.{IsVarLen};
ghost use Rattle.wire_fields.specs.RawTexts.{raw_string};
ghost use Rattle.wire_fields.specs.ByteStrings.{varlen_string_encoded};
ghost use Rattle.rows_jsonb.specs.JsonbLayout.{format as format_of};
ghost use Rattle.rows_jsonb.specs.JsonbValues.{JsonbValue, document, container, container_at};
ghost use Rattle.rows_jsonb.specs.JsonbFields.{IsDocument, IsContainer};
ghost use Rattle.rows_jsonb.specs.JsonbViews.{jsonb_value};

use crate::complex::ComplexValue;
use crate::storage_format::{ComplexType, StorageFormat};
use crate::text::JsonbString;
use crate::value::Value;
use rows_errors::RowsError;
use std::alloc::{Allocator, Global};
use wire_buf::{AnySize, Inner, MyDeserialize, MySerialize, ParseBuf, WireFault};
use wire_fields::RawBytes;

impl<'de> MyDeserialize<'de> for Value<'de> {
    const SIZE: Option<usize> = None;

    type Size = AnySize;

    type Ctx = ();

    type Fault = RowsError;

    ghost View = { JsonbValue };

    ghost view = { jsonb_value };

    ghost encodes = { λ ctx. IsDocument };

    ghost fails_with = { λ ctx x e. document x ≡ Err e };

    /// Reads a document: its type byte, then the value. Empty bytes are JSON null. It takes no memory.
    fn deserialize(
        _alloc: Global,
        _ctx: (),
        buf: &mut ParseBuf<'de>,
    ) -> Result<Value<'de>, RowsError> {
        Value::read_document(buf)
    }

    ghost sized = { λ ctx v bytes rest h. tt };
}

impl<'de, T: StorageFormat, U: ComplexType> MyDeserialize<'de> for ComplexValue<'de, T, U> {
    const SIZE: Option<usize> = None;

    type Size = AnySize;

    type Ctx = ();

    type Fault = RowsError;

    ghost View = { JsonbValue };

    ghost view = { λ c. container (format_of T.IS_LARGE U.IS_ARRAY) c.element_count (cow_slice_items c.bytes) };

    ghost encodes = { λ ctx. IsContainer (format_of T.IS_LARGE U.IS_ARRAY) };

    ghost fails_with = { λ ctx x e. container_at (format_of T.IS_LARGE U.IS_ARRAY) x ≡ Err e };

    /// Reads a container from its count on: as many bytes as its size field says. It takes no memory.
    fn deserialize(
        _alloc: Global,
        _ctx: (),
        buf: &mut ParseBuf<'de>,
    ) -> Result<ComplexValue<'de, T, U>, RowsError> {
        ComplexValue::read(buf)
    }

    ghost sized = { λ ctx v bytes rest h. tt };
}

impl<'de> MyDeserialize<'de> for JsonbString<'de> {
    const SIZE: Option<usize> = None;

    type Size = AnySize;

    type Ctx = ();

    type Fault = RowsError;

    ghost View = { List ℕ };

    ghost view = { λ s. raw_string s.0 };

    ghost encodes = { λ ctx. Alone (IsCounted IsVarLen) };

    ghost fails_with = { λ ctx x e. e ≡ Jsonb None };

    /// Reads a string after its length, which is a VarLen. It takes no memory.
    fn deserialize(
        alloc: Global,
        _ctx: (),
        buf: &mut ParseBuf<'de>,
    ) -> Result<JsonbString<'de>, RowsError> {
        match RawBytes::deserialize(alloc, (), buf) {
            Ok(string) => Ok(JsonbString(string)),
            Err(_) => Err(RowsError::Jsonb(None)),
        }
    }

    ghost sized = { λ ctx v bytes rest h. tt };
}

impl MySerialize for JsonbString<'_> {
    ghost View = { List ℕ };

    ghost view = { λ v. take 4294967295 (raw_string v.0) };

    ghost encoding = { Alone (IsCounted IsVarLen) };

    ghost encoded = { λ v. Some (varlen_string_encoded v) };

    /// Appends the string's length and the string. Only the first 4,294,967,295 bytes of a longer string are written.
    fn serialize<A: Allocator>(&self, buf: &mut Vec<u8, A>) -> Result<(), WireFault> {
        self.0.serialize(buf)
    }
}

impl Inner for JsonbString<'_> {
    ghost before_any = { λ rest. tt };
}
