//! The types of JSON values, and the JSON literals. MySQL's source: `json_binary.h`.

ghost use Rattle.std.specs.Prelude.{◌≡◌};
ghost use Rattle.wire_constants.specs.Numbering.{IsConstantOf};
ghost use Rattle.rows_jsonb.specs.JsonbTypes.{jsonb_type_number, literal_type_number, literal_of, jsonb_type_of, is_inlined};

use crate::storage_format::StorageFormat;
use thiserror::Error;

/// The type byte of a value in a document.
#[derive(Clone, Copy, Debug, PartialEq, Eq, Hash)]
pub enum JsonbType {
    /// An object with offsets of two bytes.
    JSONB_TYPE_SMALL_OBJECT = 0,
    /// An object with offsets of four bytes.
    JSONB_TYPE_LARGE_OBJECT = 1,
    /// An array with offsets of two bytes.
    JSONB_TYPE_SMALL_ARRAY = 2,
    /// An array with offsets of four bytes.
    JSONB_TYPE_LARGE_ARRAY = 3,
    /// null, true or false.
    JSONB_TYPE_LITERAL = 4,
    /// A signed number of two bytes.
    JSONB_TYPE_INT16 = 5,
    /// An unsigned number of two bytes.
    JSONB_TYPE_UINT16 = 6,
    /// A signed number of four bytes.
    JSONB_TYPE_INT32 = 7,
    /// An unsigned number of four bytes.
    JSONB_TYPE_UINT32 = 8,
    /// A signed number of eight bytes.
    JSONB_TYPE_INT64 = 9,
    /// An unsigned number of eight bytes.
    JSONB_TYPE_UINT64 = 10,
    /// A double of eight bytes.
    JSONB_TYPE_DOUBLE = 11,
    /// A string after its length.
    JSONB_TYPE_STRING = 12,
    /// An opaque value: a column type, a length, the bytes.
    JSONB_TYPE_OPAQUE = 15,
}

/// A type byte that no value has.
#[derive(Clone, Copy, Debug, PartialEq, Eq, Hash, Error)]
#[error("Unknown JSONB type {0}")]
pub struct UnknownJsonbType(pub u8);

impl TryFrom<u8> for JsonbType {
    type Error = UnknownJsonbType;

    ghost try_from_gives = { IsConstantOf jsonb_type_number (λ unknown. unknown.0) };

    /// Converts a type byte; 13, 14 and numbers from 16 on are errors.
    fn try_from(number: u8) -> Result<JsonbType, UnknownJsonbType> {
        match number {
            0 => Ok(JsonbType::JSONB_TYPE_SMALL_OBJECT),
            1 => Ok(JsonbType::JSONB_TYPE_LARGE_OBJECT),
            2 => Ok(JsonbType::JSONB_TYPE_SMALL_ARRAY),
            3 => Ok(JsonbType::JSONB_TYPE_LARGE_ARRAY),
            4 => Ok(JsonbType::JSONB_TYPE_LITERAL),
            5 => Ok(JsonbType::JSONB_TYPE_INT16),
            6 => Ok(JsonbType::JSONB_TYPE_UINT16),
            7 => Ok(JsonbType::JSONB_TYPE_INT32),
            8 => Ok(JsonbType::JSONB_TYPE_UINT32),
            9 => Ok(JsonbType::JSONB_TYPE_INT64),
            10 => Ok(JsonbType::JSONB_TYPE_UINT64),
            11 => Ok(JsonbType::JSONB_TYPE_DOUBLE),
            12 => Ok(JsonbType::JSONB_TYPE_STRING),
            15 => Ok(JsonbType::JSONB_TYPE_OPAQUE),
            _ => Err(UnknownJsonbType(number)),
        }
    }
}

impl From<UnknownJsonbType> for u8 {
    ghost from_gives = { λ unknown number. number ≡ unknown.0 };

    /// Returns the number that no type has.
    fn from(unknown: UnknownJsonbType) -> u8 {
        unknown.0
    }
}

impl JsonbType {
    /// Returns the type of a type byte, if one has it.
    pub(crate) fn of_byte(byte: u8) -> Option<JsonbType>
        ensures { result ≡ jsonb_type_of byte }
    {
        match JsonbType::try_from(byte) {
            Ok(found) => Some(found),
            Err(_) => None,
        }
    }

    /// Returns whether a value of the type is inlined in its entry: numbers of 32 bits are if offsets are large.
    pub(crate) fn is_inlined<T: StorageFormat>(self) -> bool
        ensures { result ≡ is_inlined T.IS_LARGE self }
    {
        match self {
            JsonbType::JSONB_TYPE_LITERAL
            | JsonbType::JSONB_TYPE_INT16
            | JsonbType::JSONB_TYPE_UINT16 => true,
            JsonbType::JSONB_TYPE_INT32 | JsonbType::JSONB_TYPE_UINT32 => T::IS_LARGE,
            _ => false,
        }
    }
}

/// The values of the type `JSONB_TYPE_LITERAL`.
#[derive(Clone, Copy, Debug, PartialEq, Eq, Hash)]
pub enum LiteralType {
    /// null.
    JSONB_NULL_LITERAL = 0,
    /// true.
    JSONB_TRUE_LITERAL = 1,
    /// false.
    JSONB_FALSE_LITERAL = 2,
}

/// A number that no literal has.
#[derive(Clone, Copy, Debug, PartialEq, Eq, Hash, Error)]
#[error("Unknown JSONB literal type {0}")]
pub struct UnknownLiteralType(pub u8);

impl TryFrom<u8> for LiteralType {
    type Error = UnknownLiteralType;

    ghost try_from_gives = { IsConstantOf literal_type_number (λ unknown. unknown.0) };

    /// Converts the number of a literal; numbers from 3 on are errors.
    fn try_from(number: u8) -> Result<LiteralType, UnknownLiteralType> {
        match number {
            0 => Ok(LiteralType::JSONB_NULL_LITERAL),
            1 => Ok(LiteralType::JSONB_TRUE_LITERAL),
            2 => Ok(LiteralType::JSONB_FALSE_LITERAL),
            _ => Err(UnknownLiteralType(number)),
        }
    }
}

impl LiteralType {
    /// Returns the literal of a number, if one has it.
    pub(crate) fn of_byte(byte: u8) -> Option<LiteralType>
        ensures { result ≡ literal_of byte }
    {
        match LiteralType::try_from(byte) {
            Ok(found) => Some(found),
            Err(_) => None,
        }
    }
}

impl From<UnknownLiteralType> for u8 {
    ghost from_gives = { λ unknown number. number ≡ unknown.0 };

    /// Returns the number that no literal has.
    fn from(unknown: UnknownLiteralType) -> u8 {
        unknown.0
    }
}
