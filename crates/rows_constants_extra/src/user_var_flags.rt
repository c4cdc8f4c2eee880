//! The flags of a USER_VAR_EVENT's value.

ghost use Rattle.std.specs.Prelude.{⊤, ◌≡◌};
ghost use Rattle.wire_constants.specs.Numbering.{IsFlagsOf};
ghost use Rattle.rows_constants.specs.FlagTables.{user_var_flags};

use bitflags::{Flag, Flags, bitflag_items};
use thiserror::Error;

/// The flags of a user variable event's value.
#[derive(Clone, Copy, Debug, Default, PartialEq, Eq, Hash)]
pub struct UserVarFlags(u8);

bitflag_items! {
    impl UserVarFlags: u8 {
        /// The value is an unsigned integer.
        const UNSIGNED = 1;
    }
}

impl Flags for UserVarFlags {
    type Bits = u8;

    ghost exact = { ⊤ };

    ghost table = { user_var_flags };

    ghost set_of = { λ flags. flags.0 };

    /// Returns all flags with their names.
    fn flags<'a>() -> &'a [Flag<UserVarFlags>] {
        UserVarFlags::FLAGS
    }

    /// Returns the set's bits as a number.
    fn bits(&self) -> u8 {
        self.0
    }

    /// Returns the set of these bits, including bits that are no flag.
    fn from_bits_retain(bits: u8) -> UserVarFlags {
        UserVarFlags(bits)
    }
}

/// A number with a bit that is no flag of `UserVarFlags`.
#[derive(Clone, Copy, Debug, PartialEq, Eq, Hash, Error)]
#[error("Unknown flags in the raw value of UserVarFlags (raw={0:b})")]
pub struct UnknownUserVarFlags(pub u8);

impl TryFrom<u8> for UserVarFlags {
    type Error = UnknownUserVarFlags;

    ghost try_from_gives = { IsFlagsOf user_var_flags (λ flags. flags.0) (λ unknown. unknown.0) };

    /// Returns the set of flags that the bits make up. Returns an error if a bit is no flag.
    fn try_from(bits: u8) -> Result<UserVarFlags, UnknownUserVarFlags> {
        UserVarFlags::from_bits(bits).ok_or(UnknownUserVarFlags(bits))
    }
}

impl From<UserVarFlags> for u8 {
    ghost from_gives = { λ flags bits. bits ≡ flags.0 };

    /// Returns the set's bits as a number.
    fn from(flags: UserVarFlags) -> u8 {
        flags.0
    }
}

impl From<UnknownUserVarFlags> for u8 {
    ghost from_gives = { λ unknown bits. bits ≡ unknown.0 };

    /// Returns the number's bits, both known and unknown ones.
    fn from(unknown: UnknownUserVarFlags) -> u8 {
        unknown.0
    }
}
