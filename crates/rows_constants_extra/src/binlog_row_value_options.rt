//! The options of updated rows.

ghost use Rattle.std.specs.Prelude.{◌≡◌};
ghost use Rattle.std.proofs.Common.{rules};
ghost use Rattle.wire_constants.specs.Numbering.{IsConstantOf};
ghost use Rattle.rows_constants_extra.specs.MoreConstants.{binlog_row_value_options_number};

use thiserror::Error;
use wire_constants::Constant;

/// The options of updated rows, from a bit set in a row's shared part. MySQL's system variable
/// `binlog_row_value_options`.
#[derive(Clone, Copy, Debug, PartialEq, Eq, Hash)]
pub enum BinlogRowValueOptions {
    /// JSON documents may be stored as their changes.
    PARTIAL_JSON_UPDATES = 1,
}

/// A number that no such option has.
#[derive(Clone, Copy, Debug, PartialEq, Eq, Hash, Error)]
#[error("Unknown binlog row value options {0}")]
pub struct UnknownBinlogRowValueOptions(pub u64);

impl TryFrom<u64> for BinlogRowValueOptions {
    type Error = UnknownBinlogRowValueOptions;

    ghost try_from_gives = { IsConstantOf binlog_row_value_options_number (λ unknown. unknown.0) };

    /// Returns the option with this number. Returns an error for all numbers but 1.
    fn try_from(number: u64) -> Result<BinlogRowValueOptions, UnknownBinlogRowValueOptions> {
        match number {
            1 => Ok(BinlogRowValueOptions::PARTIAL_JSON_UPDATES),
            _ => Err(UnknownBinlogRowValueOptions(number)),
        }
    }
}

impl Constant<u64> for BinlogRowValueOptions {
    ghost number = { binlog_row_value_options_number };

    /// Returns the constant's number.
    fn to_number(self) -> u64 {
        self as u64
    }

    ghost takes = { λ n v h. h };

    ghost fails = { λ n e h. h.1 };

    ghost its_own = { Prim.search rules };
}

impl From<UnknownBinlogRowValueOptions> for u64 {
    ghost from_gives = { λ unknown number. number ≡ unknown.0 };

    /// Returns the unknown number.
    fn from(unknown: UnknownBinlogRowValueOptions) -> u64 {
        unknown.0
    }
}
