//! The types of a GEOMETRY column.

ghost use Rattle.std.specs.Prelude.{◌≡◌};
ghost use Rattle.std.proofs.Common.{rules};
ghost use Rattle.wire_constants.specs.Numbering.{IsConstantOf};
ghost use Rattle.wire_constants.specs.GeometryTypes.{geometry_type_number};

use crate::constant::Constant;
use thiserror::Error;

/// The type of a `GEOMETRY` column, as numbered in the optional metadata of a table map.
#[derive(Clone, Copy, Debug, PartialEq, Eq, Hash)]
pub enum GeometryType {
    /// Any geometry.
    GEOM_GEOMETRY = 0,
    /// One point.
    GEOM_POINT = 1,
    /// A line string.
    GEOM_LINESTRING = 2,
    /// A polygon.
    GEOM_POLYGON = 3,
    /// Several points.
    GEOM_MULTIPOINT = 4,
    /// Several line strings.
    GEOM_MULTILINESTRING = 5,
    /// Several polygons.
    GEOM_MULTIPOLYGON = 6,
    /// Several geometries of any kind.
    GEOM_GEOMETRYCOLLECTION = 7,
}

/// A number that no geometry type has.
#[derive(Clone, Copy, Debug, PartialEq, Eq, Hash, Error)]
#[error("Unknown geometry type {0}")]
pub struct UnknownGeometryType(pub u8);

impl TryFrom<u8> for GeometryType {
    type Error = UnknownGeometryType;

    ghost try_from_gives = { IsConstantOf geometry_type_number (λ unknown. unknown.0) };

    /// Returns the geometry type with this number. Returns an error from 8 on.
    fn try_from(number: u8) -> Result<GeometryType, UnknownGeometryType> {
        match number {
            0 => Ok(GeometryType::GEOM_GEOMETRY),
            1 => Ok(GeometryType::GEOM_POINT),
            2 => Ok(GeometryType::GEOM_LINESTRING),
            3 => Ok(GeometryType::GEOM_POLYGON),
            4 => Ok(GeometryType::GEOM_MULTIPOINT),
            5 => Ok(GeometryType::GEOM_MULTILINESTRING),
            6 => Ok(GeometryType::GEOM_MULTIPOLYGON),
            7 => Ok(GeometryType::GEOM_GEOMETRYCOLLECTION),
            _ => Err(UnknownGeometryType(number)),
        }
    }
}

impl From<UnknownGeometryType> for u8 {
    ghost from_gives = { λ unknown number. number ≡ unknown.0 };

    fn from(unknown: UnknownGeometryType) -> u8 {
        unknown.0
    }
}

impl Constant<u8> for GeometryType {
    ghost number = { geometry_type_number };

    fn to_number(self) -> u8 {
        self as u8
    }

    ghost takes = { λ n v h. h };

    ghost fails = { λ n e h. h.1 };

    ghost its_own = { Prim.search rules };
}
