//! The number of a transaction in its GTID.

ghost use Rattle.std.specs.Prelude.{◌≡◌};
ghost use Rattle.rows_constants_extra.specs.Conversions.{IsGnoOf};

use thiserror::Error;

/// The sequence number of a transaction on its source, the second part of a GTID. An anonymous transaction
/// has 0.
#[derive(Clone, Copy, Debug, PartialEq, Eq, PartialOrd, Ord, Hash)]
pub struct Gno(u64);

impl Gno {
    /// The smallest sequence number of a transaction with a GTID.
    pub const MIN_GNO: u64 = 1;

    /// The largest sequence number of a transaction: 2^63 - 1.
    pub const MAX_GNO: u64 = 0x7fff_ffff_ffff_ffff;
}

/// A number greater than the largest sequence number.
#[derive(Clone, Copy, Debug, PartialEq, Eq, Hash, Error)]
#[error("Group number {0} is out of range [1, 9223372036854775807]")]
pub struct InvalidGno(pub u64);

impl TryFrom<u64> for Gno {
    type Error = InvalidGno;

    ghost try_from_gives = { IsGnoOf };

    /// Returns the sequence number. Returns an error from 2^63 on; `mysql_common` also does for 2^63 - 1.
    fn try_from(number: u64) -> Result<Gno, InvalidGno> {
        if number <= Gno::MAX_GNO {
            Ok(Gno(number))
        } else {
            Err(InvalidGno(number))
        }
    }
}

impl From<InvalidGno> for u64 {
    ghost from_gives = { λ invalid number. number ≡ invalid.0 };

    /// Returns the unknown number.
    fn from(invalid: InvalidGno) -> u64 {
        invalid.0
    }
}
