//! The flags of a GTID event.

ghost use Rattle.std.specs.Prelude.{⊤, ◌≡◌};
ghost use Rattle.wire_constants.specs.Numbering.{IsFlagsOf};
ghost use Rattle.rows_constants.specs.FlagTables.{gtid_flags};

use bitflags::{Flag, Flags, bitflag_items};
use thiserror::Error;

/// The flags of a GTID event.
#[derive(Clone, Copy, Debug, Default, PartialEq, Eq, Hash)]
pub struct GtidFlags(u8);

bitflag_items! {
    impl GtidFlags: u8 {
        /// The transaction may contain statements, not only row changes.
        const MAY_HAVE_SBR = 1;
    }
}

impl Flags for GtidFlags {
    type Bits = u8;

    ghost exact = { ⊤ };

    ghost table = { gtid_flags };

    ghost set_of = { λ flags. flags.0 };

    /// Returns all flags with their names.
    fn flags<'a>() -> &'a [Flag<GtidFlags>] {
        GtidFlags::FLAGS
    }

    /// Returns the set's bits as a number.
    fn bits(&self) -> u8 {
        self.0
    }

    /// Returns the set of these bits, including bits that are no flag.
    fn from_bits_retain(bits: u8) -> GtidFlags {
        GtidFlags(bits)
    }
}

/// A number with a bit that is no flag of `GtidFlags`.
#[derive(Clone, Copy, Debug, PartialEq, Eq, Hash, Error)]
#[error("Unknown flags in the raw value of GtidFlags (raw={0:b})")]
pub struct UnknownGtidFlags(pub u8);

impl TryFrom<u8> for GtidFlags {
    type Error = UnknownGtidFlags;

    ghost try_from_gives = { IsFlagsOf gtid_flags (λ flags. flags.0) (λ unknown. unknown.0) };

    /// Returns the set of flags that the bits make up. Returns an error if a bit is no flag.
    fn try_from(bits: u8) -> Result<GtidFlags, UnknownGtidFlags> {
        GtidFlags::from_bits(bits).ok_or(UnknownGtidFlags(bits))
    }
}

impl From<GtidFlags> for u8 {
    ghost from_gives = { λ flags bits. bits ≡ flags.0 };

    /// Returns the set's bits as a number.
    fn from(flags: GtidFlags) -> u8 {
        flags.0
    }
}

impl From<UnknownGtidFlags> for u8 {
    ghost from_gives = { λ unknown bits. bits ≡ unknown.0 };

    /// Returns the number's bits, both known and unknown ones.
    fn from(unknown: UnknownGtidFlags) -> u8 {
        unknown.0
    }
}
