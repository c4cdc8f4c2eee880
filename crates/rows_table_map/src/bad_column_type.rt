//! Why a column has no real type.

ghost use Rattle.std.specs.Prelude.{◌≡◌};
ghost use Rattle.rows_table_map.specs.declared.bad_column_type.BadColumnType.TheVariants.{Unknown};

use thiserror::Error;
use wire_constants::UnknownColumnType;

/// Why a column of a table map has no real type.
#[derive(Clone, Copy, Debug, PartialEq, Eq, Hash, Error)]
pub enum BadColumnType {
    /// No column type has this number.
    #[error("{0}")]
    Unknown(UnknownColumnType),
    /// The metadata of a STRING column gives this number, which is none of a type that a STRING column may have.
    #[error("Unexpected column type {0}")]
    Unexpected(u8),
}

impl From<UnknownColumnType> for BadColumnType {
    ghost from_gives = { λ unknown bad. bad ≡ Unknown unknown };

    /// Wraps the error for an unknown number.
    fn from(unknown: UnknownColumnType) -> BadColumnType {
        BadColumnType::Unknown(unknown)
    }
}
