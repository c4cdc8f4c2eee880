//! The kinds of an incident event.

ghost use Rattle.std.specs.Prelude.{◌≡◌};
ghost use Rattle.std.proofs.Common.{rules};
ghost use Rattle.wire_constants.specs.Numbering.{IsConstantOf};
ghost use Rattle.rows_constants_extra.specs.MoreConstants.{incident_type_number};

use thiserror::Error;
use wire_constants::Constant;

/// The kind of an error on the source of a log, from an incident event.
#[derive(Clone, Copy, Debug, PartialEq, Eq, Hash)]
pub enum IncidentType {
    /// No incident.
    INCIDENT_NONE = 0,
    /// Events were lost, so that a replica may not have the same data any more.
    INCIDENT_LOST_EVENTS = 1,
}

/// A number that no incident has.
#[derive(Clone, Copy, Debug, PartialEq, Eq, Hash, Error)]
#[error("Unknown item incident type {0}")]
pub struct UnknownIncidentType(pub u16);

impl TryFrom<u16> for IncidentType {
    type Error = UnknownIncidentType;

    ghost try_from_gives = { IsConstantOf incident_type_number (λ unknown. unknown.0) };

    /// Returns the incident with this number. Returns an error from 2 on.
    fn try_from(number: u16) -> Result<IncidentType, UnknownIncidentType> {
        match number {
            0 => Ok(IncidentType::INCIDENT_NONE),
            1 => Ok(IncidentType::INCIDENT_LOST_EVENTS),
            _ => Err(UnknownIncidentType(number)),
        }
    }
}

impl Constant<u16> for IncidentType {
    ghost number = { incident_type_number };

    /// Returns the constant's number.
    fn to_number(self) -> u16 {
        self as u16
    }

    ghost takes = { λ n v h. h };

    ghost fails = { λ n e h. h.1 };

    ghost its_own = { Prim.search rules };
}

impl From<IncidentType> for u16 {
    ghost from_gives = { λ incident_type number. number ≡ incident_type_number incident_type };

    /// Returns the incident's number.
    fn from(incident_type: IncidentType) -> u16 {
        incident_type as u16
    }
}

impl From<UnknownIncidentType> for u16 {
    ghost from_gives = { λ unknown number. number ≡ unknown.0 };

    /// Returns the unknown number.
    fn from(unknown: UnknownIncidentType) -> u16 {
        unknown.0
    }
}
