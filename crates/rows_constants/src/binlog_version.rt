//! The versions of the binary log's format.

ghost use Rattle.std.specs.Prelude.{◌≡◌};
ghost use Rattle.std.proofs.Common.{rules};
ghost use Rattle.wire_constants.specs.Numbering.{IsConstantOf};
ghost use Rattle.rows_constants.specs.BinlogVersions.{binlog_version_number};

use thiserror::Error;
use wire_constants::Constant;

/// The version of the binary log format, from the format description.
#[derive(Clone, Copy, Debug, PartialEq, Eq, PartialOrd, Ord, Hash)]
pub enum BinlogVersion {
    /// The format of servers before 4.0.
    Version1 = 1,
    /// The format of 4.0.0 and 4.0.1.
    Version2 = 2,
    /// The format of 4.0.2 to 4.1.
    Version3 = 3,
    /// The format since 5.0.
    Version4 = 4,
}

/// A number that no version has.
#[derive(Clone, Copy, Debug, PartialEq, Eq, Hash, Error)]
#[error("Unknown binlog version {0}")]
pub struct UnknownBinlogVersion(pub u16);

impl TryFrom<u16> for BinlogVersion {
    type Error = UnknownBinlogVersion;

    ghost try_from_gives = { IsConstantOf binlog_version_number (λ unknown. unknown.0) };

    /// Returns the version with this number. Returns an error for 0 and from 5 on.
    fn try_from(number: u16) -> Result<BinlogVersion, UnknownBinlogVersion> {
        match number {
            1 => Ok(BinlogVersion::Version1),
            2 => Ok(BinlogVersion::Version2),
            3 => Ok(BinlogVersion::Version3),
            4 => Ok(BinlogVersion::Version4),
            _ => Err(UnknownBinlogVersion(number)),
        }
    }
}

impl Constant<u16> for BinlogVersion {
    ghost number = { binlog_version_number };

    /// Returns the constant's number.
    fn to_number(self) -> u16 {
        self as u16
    }

    ghost takes = { λ n v h. h };

    ghost fails = { λ n e h. h.1 };

    ghost its_own = { Prim.search rules };
}

impl From<BinlogVersion> for u16 {
    ghost from_gives = { λ binlog_version number. number ≡ binlog_version_number binlog_version };

    /// Returns the version's number.
    fn from(binlog_version: BinlogVersion) -> u16 {
        binlog_version as u16
    }
}

impl From<UnknownBinlogVersion> for u16 {
    ghost from_gives = { λ unknown number. number ≡ unknown.0 };

    /// Returns the unknown number.
    fn from(unknown: UnknownBinlogVersion) -> u16 {
        unknown.0
    }
}
