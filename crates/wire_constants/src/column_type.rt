//! The types of columns, and their numbers.

ghost use Rattle.std.specs.Prelude.{◌≡◌};
ghost use Rattle.std.proofs.Common.{rules};
ghost use Rattle.wire_constants.specs.Numbering.{IsConstantOf};
ghost use Rattle.wire_constants.specs.ColumnTypes.{column_type_number, is_numeric, is_character, is_enum, is_set, is_enum_or_set, is_geometry, is_vector};

use crate::constant::Constant;
use thiserror::Error;

/// The type of a column, as numbered in column definitions and table maps. MySQL's source:
/// `enum_field_types`.
#[derive(Clone, Copy, Debug, PartialEq, Eq, Hash)]
pub enum ColumnType {
    /// A decimal in the text format of servers before 5.0.
    MYSQL_TYPE_DECIMAL = 0,
    /// An integer of 1 byte.
    MYSQL_TYPE_TINY = 1,
    /// An integer of 2 bytes.
    MYSQL_TYPE_SHORT = 2,
    /// An integer of 4 bytes.
    MYSQL_TYPE_LONG = 3,
    /// A float of 4 bytes.
    MYSQL_TYPE_FLOAT = 4,
    /// A float of 8 bytes.
    MYSQL_TYPE_DOUBLE = 5,
    /// Only NULL.
    MYSQL_TYPE_NULL = 6,
    /// Seconds since 1970 without a fraction, in the format of servers before 5.6.
    MYSQL_TYPE_TIMESTAMP = 7,
    /// An integer of 8 bytes.
    MYSQL_TYPE_LONGLONG = 8,
    /// An integer of 3 bytes.
    MYSQL_TYPE_INT24 = 9,
    /// A date; its cells have the format of `MYSQL_TYPE_NEWDATE`.
    MYSQL_TYPE_DATE = 10,
    /// A time of day or a time span, in the format of servers before 5.6.
    MYSQL_TYPE_TIME = 11,
    /// A date and a time, in the format of servers before 5.6.
    MYSQL_TYPE_DATETIME = 12,
    /// A year from 1900 to 2155.
    MYSQL_TYPE_YEAR = 13,
    /// A date in 3 bytes.
    MYSQL_TYPE_NEWDATE = 14,
    /// Text or bytes of varying length.
    MYSQL_TYPE_VARCHAR = 15,
    /// Up to 64 bits.
    MYSQL_TYPE_BIT = 16,
    /// Seconds since 1970 with up to six fractional digits.
    MYSQL_TYPE_TIMESTAMP2 = 17,
    /// A date and a time with up to six fractional digits.
    MYSQL_TYPE_DATETIME2 = 18,
    /// A time of day or a time span with up to six fractional digits.
    MYSQL_TYPE_TIME2 = 19,
    /// An array of values of one type, of a multi-valued index; only in table maps.
    MYSQL_TYPE_TYPED_ARRAY = 20,
    /// A vector of floats.
    MYSQL_TYPE_VECTOR = 242,
    /// A type that isn't known yet; the server's own.
    MYSQL_TYPE_UNKNOWN = 243,
    /// A JSON document in binary format.
    MYSQL_TYPE_JSON = 245,
    /// A decimal in binary format.
    MYSQL_TYPE_NEWDECIMAL = 246,
    /// One of the strings of an enumeration.
    MYSQL_TYPE_ENUM = 247,
    /// A set of strings.
    MYSQL_TYPE_SET = 248,
    /// Bytes, fewer than 2^8.
    MYSQL_TYPE_TINY_BLOB = 249,
    /// Bytes, fewer than 2^24.
    MYSQL_TYPE_MEDIUM_BLOB = 250,
    /// Bytes, fewer than 2^32.
    MYSQL_TYPE_LONG_BLOB = 251,
    /// Bytes, fewer than 2^16.
    MYSQL_TYPE_BLOB = 252,
    /// Text or bytes of varying length, as result sets number it.
    MYSQL_TYPE_VAR_STRING = 253,
    /// Text or bytes of fixed length; in a table map also an enumeration or a set.
    MYSQL_TYPE_STRING = 254,
    /// A geometry.
    MYSQL_TYPE_GEOMETRY = 255,
}

impl ColumnType {
    /// Returns whether this is a numeric type: one with a signedness in a table map's optional metadata.
    pub fn is_numeric_type(&self) -> bool
        ensures { result ≡ is_numeric self.now }
    {
        matches!(
            self,
            ColumnType::MYSQL_TYPE_TINY
                | ColumnType::MYSQL_TYPE_SHORT
                | ColumnType::MYSQL_TYPE_INT24
                | ColumnType::MYSQL_TYPE_LONG
                | ColumnType::MYSQL_TYPE_LONGLONG
                | ColumnType::MYSQL_TYPE_FLOAT
                | ColumnType::MYSQL_TYPE_DOUBLE
                | ColumnType::MYSQL_TYPE_NEWDECIMAL
        )
    }

    /// Returns whether this is a character type: one with a character set in a table map's optional metadata.
    pub fn is_character_type(&self) -> bool
        ensures { result ≡ is_character self.now }
    {
        matches!(
            self,
            ColumnType::MYSQL_TYPE_STRING
                | ColumnType::MYSQL_TYPE_VAR_STRING
                | ColumnType::MYSQL_TYPE_VARCHAR
                | ColumnType::MYSQL_TYPE_BLOB
        )
    }

    /// Returns whether this is an enumeration or a set.
    pub fn is_enum_or_set_type(&self) -> bool
        ensures { result ≡ is_enum_or_set self.now }
    {
        matches!(
            self,
            ColumnType::MYSQL_TYPE_ENUM | ColumnType::MYSQL_TYPE_SET
        )
    }

    /// Returns whether this is an enumeration.
    pub fn is_enum_type(&self) -> bool
        ensures { result ≡ is_enum self.now }
    {
        matches!(self, ColumnType::MYSQL_TYPE_ENUM)
    }

    /// Returns whether this is a set.
    pub fn is_set_type(&self) -> bool
        ensures { result ≡ is_set self.now }
    {
        matches!(self, ColumnType::MYSQL_TYPE_SET)
    }

    /// Returns whether this is a geometry.
    pub fn is_geometry_type(&self) -> bool
        ensures { result ≡ is_geometry self.now }
    {
        matches!(self, ColumnType::MYSQL_TYPE_GEOMETRY)
    }

    /// Returns whether this is a vector.
    pub fn is_vector_type(&self) -> bool
        ensures { result ≡ is_vector self.now }
    {
        matches!(self, ColumnType::MYSQL_TYPE_VECTOR)
    }
}

/// A number that no column type has.
#[derive(Clone, Copy, Debug, PartialEq, Eq, Hash, Error)]
#[error("Unknown column type {0}")]
pub struct UnknownColumnType(pub u8);

impl TryFrom<u8> for ColumnType {
    type Error = UnknownColumnType;

    ghost try_from_gives = { IsConstantOf column_type_number (λ unknown. unknown.0) };

    /// Returns the column type with this number. Returns an error for 21 to 241 and for 244.
    fn try_from(number: u8) -> Result<ColumnType, UnknownColumnType> {
        match number {
            0 => Ok(ColumnType::MYSQL_TYPE_DECIMAL),
            1 => Ok(ColumnType::MYSQL_TYPE_TINY),
            2 => Ok(ColumnType::MYSQL_TYPE_SHORT),
            3 => Ok(ColumnType::MYSQL_TYPE_LONG),
            4 => Ok(ColumnType::MYSQL_TYPE_FLOAT),
            5 => Ok(ColumnType::MYSQL_TYPE_DOUBLE),
            6 => Ok(ColumnType::MYSQL_TYPE_NULL),
            7 => Ok(ColumnType::MYSQL_TYPE_TIMESTAMP),
            8 => Ok(ColumnType::MYSQL_TYPE_LONGLONG),
            9 => Ok(ColumnType::MYSQL_TYPE_INT24),
            10 => Ok(ColumnType::MYSQL_TYPE_DATE),
            11 => Ok(ColumnType::MYSQL_TYPE_TIME),
            12 => Ok(ColumnType::MYSQL_TYPE_DATETIME),
            13 => Ok(ColumnType::MYSQL_TYPE_YEAR),
            14 => Ok(ColumnType::MYSQL_TYPE_NEWDATE),
            15 => Ok(ColumnType::MYSQL_TYPE_VARCHAR),
            16 => Ok(ColumnType::MYSQL_TYPE_BIT),
            17 => Ok(ColumnType::MYSQL_TYPE_TIMESTAMP2),
            18 => Ok(ColumnType::MYSQL_TYPE_DATETIME2),
            19 => Ok(ColumnType::MYSQL_TYPE_TIME2),
            20 => Ok(ColumnType::MYSQL_TYPE_TYPED_ARRAY),
            242 => Ok(ColumnType::MYSQL_TYPE_VECTOR),
            243 => Ok(ColumnType::MYSQL_TYPE_UNKNOWN),
            245 => Ok(ColumnType::MYSQL_TYPE_JSON),
            246 => Ok(ColumnType::MYSQL_TYPE_NEWDECIMAL),
            247 => Ok(ColumnType::MYSQL_TYPE_ENUM),
            248 => Ok(ColumnType::MYSQL_TYPE_SET),
            249 => Ok(ColumnType::MYSQL_TYPE_TINY_BLOB),
            250 => Ok(ColumnType::MYSQL_TYPE_MEDIUM_BLOB),
            251 => Ok(ColumnType::MYSQL_TYPE_LONG_BLOB),
            252 => Ok(ColumnType::MYSQL_TYPE_BLOB),
            253 => Ok(ColumnType::MYSQL_TYPE_VAR_STRING),
            254 => Ok(ColumnType::MYSQL_TYPE_STRING),
            255 => Ok(ColumnType::MYSQL_TYPE_GEOMETRY),
            _ => Err(UnknownColumnType(number)),
        }
    }
}

impl From<ColumnType> for u8 {
    ghost from_gives = { λ column_type number. number ≡ column_type_number column_type };

    fn from(column_type: ColumnType) -> u8 {
        column_type as u8
    }
}

impl From<UnknownColumnType> for u8 {
    ghost from_gives = { λ unknown number. number ≡ unknown.0 };

    fn from(unknown: UnknownColumnType) -> u8 {
        unknown.0
    }
}

impl Constant<u8> for ColumnType {
    ghost number = { column_type_number };

    fn to_number(self) -> u8 {
        self as u8
    }

    ghost takes = { λ n v h. h };

    ghost fails = { λ n e h. h.1 };

    ghost its_own = { Prim.search rules };
}
