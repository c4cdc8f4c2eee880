//! What `LOAD DATA` does with duplicate keys.

ghost use Rattle.std.specs.Prelude.{◌≡◌};
ghost use Rattle.std.proofs.Common.{rules};
ghost use Rattle.wire_constants.specs.Numbering.{IsConstantOf};
ghost use Rattle.rows_constants_extra.specs.MoreConstants.{load_duplicate_handling_number};

use thiserror::Error;
use wire_constants::Constant;

/// What `LOAD DATA` does with a row whose key is already in the table.
#[derive(Clone, Copy, Debug, PartialEq, Eq, Hash)]
pub enum LoadDuplicateHandling {
    /// It fails.
    LOAD_DUP_ERROR = 0,
    /// It skips the row.
    LOAD_DUP_IGNORE = 1,
    /// It replaces the existing row.
    LOAD_DUP_REPLACE = 2,
}

/// A number that no duplicate handling has.
#[derive(Clone, Copy, Debug, PartialEq, Eq, Hash, Error)]
#[error("Unknown duplicate handling variant {0}")]
pub struct UnknownDuplicateHandling(pub u8);

impl TryFrom<u8> for LoadDuplicateHandling {
    type Error = UnknownDuplicateHandling;

    ghost try_from_gives = { IsConstantOf load_duplicate_handling_number (λ unknown. unknown.0) };

    /// Returns the handling with this number. Returns an error from 3 on.
    fn try_from(number: u8) -> Result<LoadDuplicateHandling, UnknownDuplicateHandling> {
        match number {
            0 => Ok(LoadDuplicateHandling::LOAD_DUP_ERROR),
            1 => Ok(LoadDuplicateHandling::LOAD_DUP_IGNORE),
            2 => Ok(LoadDuplicateHandling::LOAD_DUP_REPLACE),
            _ => Err(UnknownDuplicateHandling(number)),
        }
    }
}

impl Constant<u8> for LoadDuplicateHandling {
    ghost number = { load_duplicate_handling_number };

    /// Returns the constant's number.
    fn to_number(self) -> u8 {
        self as u8
    }

    ghost takes = { λ n v h. h };

    ghost fails = { λ n e h. h.1 };

    ghost its_own = { Prim.search rules };
}

impl From<LoadDuplicateHandling> for u8 {
    ghost from_gives = { λ handling number. number ≡ load_duplicate_handling_number handling };

    /// Returns the handling's number.
    fn from(load_duplicate_handling: LoadDuplicateHandling) -> u8 {
        load_duplicate_handling as u8
    }
}

impl From<UnknownDuplicateHandling> for u8 {
    ghost from_gives = { λ unknown number. number ≡ unknown.0 };

    /// Returns the unknown number.
    fn from(unknown: UnknownDuplicateHandling) -> u8 {
        unknown.0
    }
}
