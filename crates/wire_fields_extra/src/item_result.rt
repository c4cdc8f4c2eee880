//! The types of an expression's result.

ghost use Rattle.std.specs.Prelude.{◌≡◌};
ghost use Rattle.std.proofs.Common.{rules};
ghost use Rattle.wire_fields_extra.specs.ItemResults.{item_result_number};
ghost use Rattle.wire_constants.specs.Numbering.{IsConstantOf};

use thiserror::Error;
use wire_constants::Constant;

/// The type of an expression's result, as numbered in the value of a user variable. MySQL's source:
/// `Item_result`.
#[derive(Clone, Copy, Debug, PartialEq, Eq, Hash)]
pub enum ItemResult {
    /// No result.
    INVALID_RESULT = -1,
    /// Text or bytes.
    STRING_RESULT = 0,
    /// A float.
    REAL_RESULT = 1,
    /// An integer.
    INT_RESULT = 2,
    /// A row of values.
    ROW_RESULT = 3,
    /// A decimal.
    DECIMAL_RESULT = 4,
}

/// A number that no result type has.
#[derive(Clone, Copy, Debug, PartialEq, Eq, Hash, Error)]
#[error("Unknown item result type {0}")]
pub struct UnknownItemResultType(pub i8);

impl TryFrom<i8> for ItemResult {
    type Error = UnknownItemResultType;

    ghost try_from_gives = { IsConstantOf item_result_number (λ unknown. unknown.0) };

    /// Returns the result type with this number. Returns an error below -1 and from 5 on.
    fn try_from(number: i8) -> Result<ItemResult, UnknownItemResultType> {
        match number {
            -1 => Ok(ItemResult::INVALID_RESULT),
            0 => Ok(ItemResult::STRING_RESULT),
            1 => Ok(ItemResult::REAL_RESULT),
            2 => Ok(ItemResult::INT_RESULT),
            3 => Ok(ItemResult::ROW_RESULT),
            4 => Ok(ItemResult::DECIMAL_RESULT),
            _ => Err(UnknownItemResultType(number)),
        }
    }
}

impl From<UnknownItemResultType> for i8 {
    ghost from_gives = { λ unknown number. number ≡ unknown.0 };

    fn from(unknown: UnknownItemResultType) -> i8 {
        unknown.0
    }
}

impl Constant<i8> for ItemResult {
    ghost number = { item_result_number };

    fn to_number(self) -> i8 {
        self as i8
    }

    ghost takes = { λ n v h. h };

    ghost fails = { λ n e h. h.1 };

    ghost its_own = { Prim.search rules };
}
