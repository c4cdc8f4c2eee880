//! The fields of a table map's optional metadata.

ghost use Rattle.std.specs.Prelude.{◌≡◌};
ghost use Rattle.std.proofs.Common.{rules};
ghost use Rattle.wire_constants.specs.Numbering.{IsConstantOf};
ghost use Rattle.rows_constants.specs.MetadataTypes.{optional_metadata_field_type_number};

use thiserror::Error;
use wire_constants::Constant;

/// The type of a field in the optional metadata of a table map. MySQL's source:
/// `Table_map_event::Optional_metadata_field_type`.
#[derive(Clone, Copy, Debug, PartialEq, Eq, Hash)]
pub enum OptionalMetadataFieldType {
    /// Which numeric columns are unsigned.
    SIGNEDNESS = 1,
    /// The default character set of the character columns, and the columns with another one.
    DEFAULT_CHARSET = 2,
    /// The character set of each character column.
    COLUMN_CHARSET = 3,
    /// The names of the columns.
    COLUMN_NAME = 4,
    /// The strings of each `SET` column.
    SET_STR_VALUE = 5,
    /// The strings of each `ENUM` column.
    ENUM_STR_VALUE = 6,
    /// The geometry type of each geometry column.
    GEOMETRY_TYPE = 7,
    /// The columns of a primary key without prefixes.
    SIMPLE_PRIMARY_KEY = 8,
    /// The columns of a primary key with prefixes, and the prefix lengths.
    PRIMARY_KEY_WITH_PREFIX = 9,
    /// `DEFAULT_CHARSET` for `ENUM` and `SET` columns.
    ENUM_AND_SET_DEFAULT_CHARSET = 10,
    /// `COLUMN_CHARSET` for `ENUM` and `SET` columns.
    ENUM_AND_SET_COLUMN_CHARSET = 11,
    /// Which columns are visible.
    COLUMN_VISIBILITY = 12,
    /// The dimensions of each vector column.
    VECTOR_DIMENSIONALITY = 13,
}

/// A number that no such type has.
#[derive(Clone, Copy, Debug, PartialEq, Eq, Error)]
#[error("Unknown optional metadata field type {0}")]
pub struct UnknownOptionalMetadataFieldType(pub u8);

impl TryFrom<u8> for OptionalMetadataFieldType {
    type Error = UnknownOptionalMetadataFieldType;

    ghost try_from_gives = { IsConstantOf optional_metadata_field_type_number (λ unknown. unknown.0) };

    /// Returns the type with this number. Returns an error for 0 and from 14 on.
    fn try_from(number: u8) -> Result<OptionalMetadataFieldType, UnknownOptionalMetadataFieldType> {
        match number {
            1 => Ok(OptionalMetadataFieldType::SIGNEDNESS),
            2 => Ok(OptionalMetadataFieldType::DEFAULT_CHARSET),
            3 => Ok(OptionalMetadataFieldType::COLUMN_CHARSET),
            4 => Ok(OptionalMetadataFieldType::COLUMN_NAME),
            5 => Ok(OptionalMetadataFieldType::SET_STR_VALUE),
            6 => Ok(OptionalMetadataFieldType::ENUM_STR_VALUE),
            7 => Ok(OptionalMetadataFieldType::GEOMETRY_TYPE),
            8 => Ok(OptionalMetadataFieldType::SIMPLE_PRIMARY_KEY),
            9 => Ok(OptionalMetadataFieldType::PRIMARY_KEY_WITH_PREFIX),
            10 => Ok(OptionalMetadataFieldType::ENUM_AND_SET_DEFAULT_CHARSET),
            11 => Ok(OptionalMetadataFieldType::ENUM_AND_SET_COLUMN_CHARSET),
            12 => Ok(OptionalMetadataFieldType::COLUMN_VISIBILITY),
            13 => Ok(OptionalMetadataFieldType::VECTOR_DIMENSIONALITY),
            _ => Err(UnknownOptionalMetadataFieldType(number)),
        }
    }
}

impl Constant<u8> for OptionalMetadataFieldType {
    ghost number = { optional_metadata_field_type_number };

    /// Returns the constant's number.
    fn to_number(self) -> u8 {
        self as u8
    }

    ghost takes = { λ n v h. h };

    ghost fails = { λ n e h. h.1 };

    ghost its_own = { Prim.search rules };
}

impl From<UnknownOptionalMetadataFieldType> for u8 {
    ghost from_gives = { λ unknown number. number ≡ unknown.0 };

    /// Returns the unknown number.
    fn from(unknown: UnknownOptionalMetadataFieldType) -> u8 {
        unknown.0
    }
}
