//! The flags of a column.

ghost use Rattle.std.specs.Prelude.{⊤, ◌≡◌};
ghost use Rattle.wire_constants.specs.Numbering.{IsFlagsOf};
ghost use Rattle.wire_constants.specs.ColumnFlagBits.{column_flags};

use bitflags::{Flag, Flags, bitflag_items};
use thiserror::Error;

/// The flags of a column, as its column definition gives them. MySQL's source: the `_FLAG` constants of
/// `include/mysql_com.h`.
#[derive(Clone, Copy, Debug, Default, PartialEq, Eq, Hash)]
pub struct ColumnFlags(u16);

bitflag_items! {
    impl ColumnFlags: u16 {
        /// The column can't be NULL.
        const NOT_NULL_FLAG = 1;
        /// The column is part of the primary key.
        const PRI_KEY_FLAG = 2;
        /// The column is part of a unique key.
        const UNIQUE_KEY_FLAG = 4;
        /// The column is part of a key that isn't unique.
        const MULTIPLE_KEY_FLAG = 8;
        /// The column is a blob or a text.
        const BLOB_FLAG = 16;
        /// The column is unsigned.
        const UNSIGNED_FLAG = 32;
        /// The column's numbers are shown with leading zeros.
        const ZEROFILL_FLAG = 64;
        /// The column's text is compared by its bytes.
        const BINARY_FLAG = 128;
        /// The column is an enumeration.
        const ENUM_FLAG = 256;
        /// The column is AUTO_INCREMENT.
        const AUTO_INCREMENT_FLAG = 512;
        /// The column is a timestamp.
        const TIMESTAMP_FLAG = 1024;
        /// The column is a set.
        const SET_FLAG = 2048;
        /// The column has no default value.
        const NO_DEFAULT_VALUE_FLAG = 4096;
        /// The column is set to the current time at each update.
        const ON_UPDATE_NOW_FLAG = 8192;
        /// The column is part of some key.
        const PART_KEY_FLAG = 16384;
        /// The column is numeric.
        const NUM_FLAG = 32768;
    }
}

impl Flags for ColumnFlags {
    type Bits = u16;

    ghost exact = { ⊤ };

    ghost table = { column_flags };

    ghost set_of = { λ flags. flags.0 };

    fn flags<'a>() -> &'a [Flag<ColumnFlags>] {
        ColumnFlags::FLAGS
    }

    fn bits(&self) -> u16 {
        self.0
    }

    fn from_bits_retain(bits: u16) -> ColumnFlags {
        ColumnFlags(bits)
    }
}

/// A number with a bit that no column flag has.
#[derive(Clone, Copy, Debug, PartialEq, Eq, Hash, Error)]
#[error("Unknown flags in the raw value of ColumnFlags (raw={0:b})")]
pub struct UnknownColumnFlags(pub u16);

impl TryFrom<u16> for ColumnFlags {
    type Error = UnknownColumnFlags;

    ghost try_from_gives = { IsFlagsOf column_flags (λ flags. flags.0) (λ unknown. unknown.0) };

    /// Returns the set of flags that the bits make up. Returns an error if a bit is no flag.
    fn try_from(bits: u16) -> Result<ColumnFlags, UnknownColumnFlags> {
        ColumnFlags::from_bits(bits).ok_or(UnknownColumnFlags(bits))
    }
}

impl From<ColumnFlags> for u16 {
    ghost from_gives = { λ flags bits. bits ≡ flags.0 };

    fn from(flags: ColumnFlags) -> u16 {
        flags.0
    }
}

impl From<UnknownColumnFlags> for u16 {
    ghost from_gives = { λ unknown bits. bits ≡ unknown.0 };

    fn from(unknown: UnknownColumnFlags) -> u16 {
        unknown.0
    }
}
