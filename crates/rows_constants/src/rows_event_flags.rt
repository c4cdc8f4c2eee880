//! The flags of a rows event.

ghost use Rattle.std.specs.Prelude.{⊤, ◌≡◌};
ghost use Rattle.wire_constants.specs.Numbering.{IsFlagsOf};
ghost use Rattle.rows_constants.specs.FlagTables.{rows_event_flags};

use bitflags::{Flag, Flags, bitflag_items};
use thiserror::Error;

/// The flags of a rows event.
#[derive(Clone, Copy, Debug, Default, PartialEq, Eq, Hash)]
pub struct RowsEventFlags(u16);

bitflag_items! {
    impl RowsEventFlags: u16 {
        /// This is the last rows event of a statement.
        const STMT_END = 1;
        /// Foreign keys weren't checked.
        const NO_FOREIGN_KEY_CHECKS = 2;
        /// Unique keys weren't fully checked.
        const RELAXED_UNIQUE_CHECKS = 4;
        /// Rows have all columns of the table.
        const COMPLETE_ROWS = 8;
    }
}

impl Flags for RowsEventFlags {
    type Bits = u16;

    ghost exact = { ⊤ };

    ghost table = { rows_event_flags };

    ghost set_of = { λ flags. flags.0 };

    /// Returns all flags with their names.
    fn flags<'a>() -> &'a [Flag<RowsEventFlags>] {
        RowsEventFlags::FLAGS
    }

    /// Returns the set's bits as a number.
    fn bits(&self) -> u16 {
        self.0
    }

    /// Returns the set of these bits, including bits that are no flag.
    fn from_bits_retain(bits: u16) -> RowsEventFlags {
        RowsEventFlags(bits)
    }
}

/// A number with a bit that is no flag of `RowsEventFlags`.
#[derive(Clone, Copy, Debug, PartialEq, Eq, Hash, Error)]
#[error("Unknown flags in the raw value of RowsEventFlags (raw={0:b})")]
pub struct UnknownRowsEventFlags(pub u16);

impl TryFrom<u16> for RowsEventFlags {
    type Error = UnknownRowsEventFlags;

    ghost try_from_gives = { IsFlagsOf rows_event_flags (λ flags. flags.0) (λ unknown. unknown.0) };

    /// Returns the set of flags that the bits make up. Returns an error if a bit is no flag.
    fn try_from(bits: u16) -> Result<RowsEventFlags, UnknownRowsEventFlags> {
        RowsEventFlags::from_bits(bits).ok_or(UnknownRowsEventFlags(bits))
    }
}

impl From<RowsEventFlags> for u16 {
    ghost from_gives = { λ flags bits. bits ≡ flags.0 };

    /// Returns the set's bits as a number.
    fn from(flags: RowsEventFlags) -> u16 {
        flags.0
    }
}

impl From<UnknownRowsEventFlags> for u16 {
    ghost from_gives = { λ unknown bits. bits ≡ unknown.0 };

    /// Returns the number's bits, both known and unknown ones.
    fn from(unknown: UnknownRowsEventFlags) -> u16 {
        unknown.0
    }
}
