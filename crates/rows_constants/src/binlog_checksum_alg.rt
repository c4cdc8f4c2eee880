//! The checksum algorithms of a log.

ghost use Rattle.std.specs.Prelude.{◌≡◌};
ghost use Rattle.std.proofs.Common.{rules};
ghost use Rattle.wire_constants.specs.Numbering.{IsConstantOf};
ghost use Rattle.rows_constants.specs.BinlogVersions.{binlog_checksum_alg_number};

use thiserror::Error;
use wire_constants::Constant;

/// The checksum algorithm of a log, from its format description. MySQL's source: `enum_binlog_checksum_alg`.
#[derive(Clone, Copy, Debug, PartialEq, Eq, Hash)]
pub enum BinlogChecksumAlg {
    /// Events have no checksum.
    BINLOG_CHECKSUM_ALG_OFF = 0,
    /// Events end with their CRC-32.
    BINLOG_CHECKSUM_ALG_CRC32 = 1,
}

/// A number that no checksum algorithm has.
#[derive(Clone, Copy, Debug, PartialEq, Eq, Hash, Error)]
#[error("Unknown checksum algorithm {0}")]
pub struct UnknownChecksumAlg(pub u8);

impl TryFrom<u8> for BinlogChecksumAlg {
    type Error = UnknownChecksumAlg;

    ghost try_from_gives = { IsConstantOf binlog_checksum_alg_number (λ unknown. unknown.0) };

    /// Returns the algorithm with this number. Returns an error from 2 on.
    fn try_from(number: u8) -> Result<BinlogChecksumAlg, UnknownChecksumAlg> {
        match number {
            0 => Ok(BinlogChecksumAlg::BINLOG_CHECKSUM_ALG_OFF),
            1 => Ok(BinlogChecksumAlg::BINLOG_CHECKSUM_ALG_CRC32),
            _ => Err(UnknownChecksumAlg(number)),
        }
    }
}

impl Constant<u8> for BinlogChecksumAlg {
    ghost number = { binlog_checksum_alg_number };

    /// Returns the constant's number.
    fn to_number(self) -> u8 {
        self as u8
    }

    ghost takes = { λ n v h. h };

    ghost fails = { λ n e h. h.1 };

    ghost its_own = { Prim.search rules };
}

impl From<UnknownChecksumAlg> for u8 {
    ghost from_gives = { λ unknown number. number ≡ unknown.0 };

    /// Returns the unknown number.
    fn from(unknown: UnknownChecksumAlg) -> u8 {
        unknown.0
    }
}
