//! Why the command line can't be used.

ghost use Rattle.std.specs.Prelude.{◌≡◌, ◌⊎◌};

use clap::Error;
use clap::error::ErrorKind;
use std::alloc::AllocError;

/// Why the command line can't be used.
#[derive(Drop)]
pub enum Refused {
    /// By the words; help and version are here too.
    Words(Error),
    /// The value of this option can't be used.
    Value(&'static str),
    /// This option has no meaning for lines in the format of another program.
    OwnLines(&'static str),
    /// There is no command.
    NoCommand,
    /// Out of memory.
    Memory,
}

impl From<AllocError> for Refused {
    ghost use Rattle.changes_commands.specs.declared.refused.Refused.TheVariants.{Memory};

    ghost from_gives = { λ _ r. r ≡ Memory };

    fn from(_error: AllocError) -> Refused {
        Refused::Memory
    }
}

impl From<Error> for Refused {
    ghost use Rattle.changes_commands.specs.declared.refused.Refused.TheVariants.{Memory, Words};

    ghost from_gives = { λ e r. (r ≡ Memory) ⊎ (r ≡ Words e) };

    fn from(error: Error) -> Refused {
        match error.kind() {
            ErrorKind::OutOfMemory => Refused::Memory,
            _ => Refused::Words(error),
        }
    }
}

/// Why a command can't be run with its options.
#[derive(Clone, Copy)]
pub(crate) enum Unusable {
    /// The value of this option can't be used.
    Value(&'static str),
    /// This option has no meaning for lines in the format of another program.
    OwnLines(&'static str),
    /// There is no command.
    NoCommand,
    /// Out of memory.
    Memory,
}

impl From<AllocError> for Unusable {
    ghost use Rattle.changes_commands.specs.declared.refused.Unusable.TheVariants.{Memory};

    ghost from_gives = { λ _ r. r ≡ Memory };

    fn from(_error: AllocError) -> Unusable {
        Unusable::Memory
    }
}

impl From<Unusable> for Refused {
    ghost use Rattle.changes_commands.specs.RefusedOptions.{refused_of};

    ghost from_gives = { λ unusable r. r ≡ refused_of unusable };

    fn from(unusable: Unusable) -> Refused {
        match unusable {
            Unusable::Value(option) => Refused::Value(option),
            Unusable::OwnLines(option) => Refused::OwnLines(option),
            Unusable::NoCommand => Refused::NoCommand,
            Unusable::Memory => Refused::Memory,
        }
    }
}

impl Refused {
    /// A value that this option takes.
    pub fn example(option: &str) -> &'static str {
        match option {
            "database" => "shop",
            "schema" => "'schema.tsv@2026-11-24 10:00:00'",
            "table" | "exclude-table" => "shop.orders",
            "character-set" => "utf8mb4",
            "format" => "maxwell, debezium or canal",
            "where" => "id=42",
            "by" => "second, minute or hour",
            "time-zone" => "UTC, +02:00 or Europe/Berlin",
            "with" => "xid,row; the names are begin, ts_ms, xid, thread_id, query, row and all",
            _ => "'2026-11-27 10:00:00'",
        }
    }
}
