//! JSON documents as trees that don't borrow from the bytes they were read from.

ghost use Rattle.std.specs.Prelude.{◌≡◌, Some};

use base64::display::Base64Display;
use base64::engine::general_purpose::STANDARD;
use rows_values::{Decimal, MysqlTime};
use std::collections::BTreeMap;
use std::fmt;
use wire_constants::ColumnType;

/// A JSON document as a tree.
#[derive(PartialEq, Drop)]
#[cycle(dom)]
pub enum JsonDom {
    Container(JsonContainer),
    Scalar(JsonScalar),
}

/// An array or an object.
#[derive(PartialEq, Drop)]
#[cycle(dom)]
pub enum JsonContainer {
    Array(Vec<JsonDom>),
    Object(BTreeMap<String, JsonDom>),
}

/// A value that isn't a container.
#[derive(PartialEq, Drop)]
pub enum JsonScalar {
    Boolean(bool),
    Null,
    DateTime(MysqlTime),
    Number(JsonNumber),
    Opaque(JsonOpaque),
    String(String),
}

/// A number.
#[derive(PartialEq, Drop)]
pub enum JsonNumber {
    /// A decimal, without leading groups of zeros.
    Decimal(Decimal),
    /// The bits of a double.
    Double(u64),
    Int(i64),
    Uint(u64),
}

/// An opaque value: a value of a column type that JSON doesn't have, as bytes.
#[derive(PartialEq, Drop)]
pub struct JsonOpaque {
    pub(crate) field_type: ColumnType,
    pub(crate) value: Vec<u8>,
}

impl JsonOpaque {
    /// Returns the column type.
    pub fn field_type(&self) -> ColumnType
        ensures { result ≡ self.now.field_type }
    {
        self.field_type
    }

    /// Returns the bytes.
    pub fn value(&self) -> &[u8]
        ensures { result.now ≡ self.now.value.items }
    {
        &self.value
    }
}

impl fmt::Display for JsonOpaque {
    ghost use Rattle.rows_jsonb.specs.JsonOpaqueText.{opaque_text};

    ghost output = { λ o. Some (opaque_text o) };

    /// Writes `base64:type`, the number of the column type, `:` and the bytes in base64.
    fn fmt<W: fmt::Write>(&self, f: &mut fmt::Formatter<W>) -> fmt::Result {
        let number = u8::from(self.field_type);
        let bytes = Base64Display::new(&self.value, &STANDARD);
        write!(f, "base64:type{number}:{bytes}")
    }
}
