//! The options of a query's session.

ghost use Rattle.std.specs.Prelude.{⊤, ◌≡◌, IsOkAnd};
ghost use Rattle.wire_constants.specs.Numbering.{IsFlagsOf};
ghost use Rattle.wire_fields_extra.specs.QueryFlagBits.{flags2, sql_mode};

use bitflags::{Flag, Flags, bitflag_items};
use thiserror::Error;

/// Options of the session that ran a query, from the query event's status variables (`Q_FLAGS2_CODE`).
#[derive(Clone, Copy, Debug, Default, PartialEq, Eq, Hash)]
pub struct Flags2(u32);

bitflag_items! {
    impl Flags2: u32 {
        /// `SQL_AUTO_IS_NULL` was set.
        const OPTION_AUTO_IS_NULL = 16384;
        /// Autocommit was off.
        const OPTION_NOT_AUTOCOMMIT = 524288;
        /// Foreign keys weren't checked.
        const OPTION_NO_FOREIGN_KEY_CHECKS = 67108864;
        /// Unique keys weren't fully checked.
        const OPTION_RELAXED_UNIQUE_CHECKS = 134217728;
    }
}

impl Flags for Flags2 {
    type Bits = u32;

    ghost exact = { ⊤ };

    ghost table = { flags2 };

    ghost set_of = { λ flags. flags.0 };

    fn flags<'a>() -> &'a [Flag<Flags2>] {
        Flags2::FLAGS
    }

    fn bits(&self) -> u32 {
        self.0
    }

    fn from_bits_retain(bits: u32) -> Flags2 {
        Flags2(bits)
    }
}

/// A number with a bit that no such option has.
#[derive(Clone, Copy, Debug, PartialEq, Eq, Hash, Error)]
#[error("Unknown flags in the raw value of Flags2 (raw={0:b})")]
pub struct UnknownFlags2(pub u32);

impl TryFrom<u32> for Flags2 {
    type Error = UnknownFlags2;

    ghost try_from_gives = { IsFlagsOf flags2 (λ flags. flags.0) (λ unknown. unknown.0) };

    /// Returns the set of options that the bits make up. Returns an error if a bit is no option.
    fn try_from(bits: u32) -> Result<Flags2, UnknownFlags2> {
        Flags2::from_bits(bits).ok_or(UnknownFlags2(bits))
    }
}

impl From<Flags2> for u32 {
    ghost from_gives = { λ flags bits. bits ≡ flags.0 };

    fn from(flags: Flags2) -> u32 {
        flags.0
    }
}

impl From<UnknownFlags2> for u32 {
    ghost from_gives = { λ unknown bits. bits ≡ unknown.0 };

    fn from(unknown: UnknownFlags2) -> u32 {
        unknown.0
    }
}

/// The SQL mode of the session that ran a query, as all of its 64 bits: no bit has a name here, and no bit is
/// unknown.
#[derive(Clone, Copy, Debug, Default, PartialEq, Eq, Hash)]
pub struct SqlMode(u64);

impl SqlMode {
    /// One flag without a name that has every bit, so that no bit is unknown.
    pub const FLAGS: &'static [Flag<SqlMode>] = &[Flag {
        name: "",
        value: SqlMode(u64::MAX),
    }];
}

impl Flags for SqlMode {
    type Bits = u64;

    ghost exact = { ⊤ };

    ghost table = { sql_mode };

    ghost set_of = { λ mode. mode.0 };

    fn flags<'a>() -> &'a [Flag<SqlMode>] {
        SqlMode::FLAGS
    }

    fn bits(&self) -> u64 {
        self.0
    }

    fn from_bits_retain(bits: u64) -> SqlMode {
        SqlMode(bits)
    }
}

/// A number with a bit that no SQL mode has. No call returns it, as no bit is unknown.
#[derive(Clone, Copy, Debug, PartialEq, Eq, Hash, Error)]
#[error("Unknown flags in the raw value of SqlMode (raw={0:b})")]
pub struct UnknownSqlMode(pub u64);

impl TryFrom<u64> for SqlMode {
    type Error = UnknownSqlMode;

    ghost try_from_gives = { λ bits result. IsOkAnd result (λ mode. mode.0 ≡ bits) };

    /// Returns the SQL mode with these bits; never an error.
    fn try_from(bits: u64) -> Result<SqlMode, UnknownSqlMode> {
        Ok(SqlMode(bits))
    }
}

impl From<SqlMode> for u64 {
    ghost from_gives = { λ mode bits. bits ≡ mode.0 };

    fn from(mode: SqlMode) -> u64 {
        mode.0
    }
}

impl From<UnknownSqlMode> for u64 {
    ghost from_gives = { λ unknown bits. bits ≡ unknown.0 };

    fn from(unknown: UnknownSqlMode) -> u64 {
        unknown.0
    }
}
