//! The flags before an event of a semi-synchronous source.

ghost use Rattle.std.specs.Prelude.{⊤, ◌≡◌};
ghost use Rattle.wire_constants.specs.Numbering.{IsFlagsOf};
ghost use Rattle.rows_constants.specs.FlagTables.{semi_sync_flags};

use bitflags::{Flag, Flags, bitflag_items};
use thiserror::Error;

/// The flags that a semi-synchronous source sends with an event.
#[derive(Clone, Copy, Debug, Default, PartialEq, Eq, Hash)]
pub struct SemiSyncFlags(u8);

bitflag_items! {
    impl SemiSyncFlags: u8 {
        /// The source waits until this event is acknowledged.
        const SEMI_SYNC_ACK_REQ = 1;
    }
}

impl Flags for SemiSyncFlags {
    type Bits = u8;

    ghost exact = { ⊤ };

    ghost table = { semi_sync_flags };

    ghost set_of = { λ flags. flags.0 };

    /// Returns all flags with their names.
    fn flags<'a>() -> &'a [Flag<SemiSyncFlags>] {
        SemiSyncFlags::FLAGS
    }

    /// Returns the set's bits as a number.
    fn bits(&self) -> u8 {
        self.0
    }

    /// Returns the set of these bits, including bits that are no flag.
    fn from_bits_retain(bits: u8) -> SemiSyncFlags {
        SemiSyncFlags(bits)
    }
}

/// A number with a bit that is no flag of `SemiSyncFlags`.
#[derive(Clone, Copy, Debug, PartialEq, Eq, Hash, Error)]
#[error("Unknown flags in the raw value of SemiSyncFlags (raw={0:b})")]
pub struct UnknownSemiSyncFlags(pub u8);

impl TryFrom<u8> for SemiSyncFlags {
    type Error = UnknownSemiSyncFlags;

    ghost try_from_gives = { IsFlagsOf semi_sync_flags (λ flags. flags.0) (λ unknown. unknown.0) };

    /// Returns the set of flags that the bits make up. Returns an error if a bit is no flag.
    fn try_from(bits: u8) -> Result<SemiSyncFlags, UnknownSemiSyncFlags> {
        SemiSyncFlags::from_bits(bits).ok_or(UnknownSemiSyncFlags(bits))
    }
}

impl From<SemiSyncFlags> for u8 {
    ghost from_gives = { λ flags bits. bits ≡ flags.0 };

    /// Returns the set's bits as a number.
    fn from(flags: SemiSyncFlags) -> u8 {
        flags.0
    }
}

impl From<UnknownSemiSyncFlags> for u8 {
    ghost from_gives = { λ unknown bits. bits ≡ unknown.0 };

    /// Returns the number's bits, both known and unknown ones.
    fn from(unknown: UnknownSemiSyncFlags) -> u8 {
        unknown.0
    }
}
