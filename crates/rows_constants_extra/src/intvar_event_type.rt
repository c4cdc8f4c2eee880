//! The variables that an INTVAR_EVENT sets.

ghost use Rattle.std.specs.Prelude.{◌≡◌};
ghost use Rattle.std.proofs.Common.{rules};
ghost use Rattle.wire_constants.specs.Numbering.{IsConstantOf};
ghost use Rattle.rows_constants_extra.specs.MoreConstants.{intvar_event_type_number};

use thiserror::Error;
use wire_constants::Constant;

/// Which variable an integer variable event sets.
#[derive(Clone, Copy, Debug, PartialEq, Eq, Hash)]
pub enum IntvarEventType {
    /// None.
    INVALID_INT_EVENT = 0,
    /// The value of `LAST_INSERT_ID()` in the next statement.
    LAST_INSERT_ID_EVENT = 1,
    /// The `AUTO_INCREMENT` value that the next statement inserts.
    INSERT_ID_EVENT = 2,
}

/// A number that no integer variable has.
#[derive(Clone, Copy, Debug, PartialEq, Eq, Hash, Error)]
#[error("Unknown intvar event type {0}")]
pub struct UnknownIntvarEventType(pub u8);

impl TryFrom<u8> for IntvarEventType {
    type Error = UnknownIntvarEventType;

    ghost try_from_gives = { IsConstantOf intvar_event_type_number (λ unknown. unknown.0) };

    /// Returns the variable with this number. Returns an error from 3 on.
    fn try_from(number: u8) -> Result<IntvarEventType, UnknownIntvarEventType> {
        match number {
            0 => Ok(IntvarEventType::INVALID_INT_EVENT),
            1 => Ok(IntvarEventType::LAST_INSERT_ID_EVENT),
            2 => Ok(IntvarEventType::INSERT_ID_EVENT),
            _ => Err(UnknownIntvarEventType(number)),
        }
    }
}

impl Constant<u8> for IntvarEventType {
    ghost number = { intvar_event_type_number };

    /// Returns the constant's number.
    fn to_number(self) -> u8 {
        self as u8
    }

    ghost takes = { λ n v h. h };

    ghost fails = { λ n e h. h.1 };

    ghost its_own = { Prim.search rules };
}

impl From<IntvarEventType> for u8 {
    ghost from_gives = { λ intvar_event_type number. number ≡ intvar_event_type_number intvar_event_type };

    /// Returns the variable's number.
    fn from(intvar_event_type: IntvarEventType) -> u8 {
        intvar_event_type as u8
    }
}

impl From<UnknownIntvarEventType> for u8 {
    ghost from_gives = { λ unknown number. number ≡ unknown.0 };

    /// Returns the unknown number.
    fn from(unknown: UnknownIntvarEventType) -> u8 {
        unknown.0
    }
}
