//! The keys of a query event's status variables.

ghost use Rattle.std.proofs.Common.{rules};
ghost use Rattle.wire_constants.specs.Numbering.{IsConstantOf};
ghost use Rattle.rows_constants_extra.specs.StatusVarKeys.{status_var_key_number};

use thiserror::Error;
use wire_constants::Constant;

/// The key of a status variable of a query event. MySQL's source: `Query_event::Query_event_status_vars`.
#[derive(Clone, Copy, Debug, PartialEq, Eq, Hash)]
pub enum StatusVarKey {
    /// Options of the session, 4 bytes.
    Flags2 = 0,
    /// The SQL mode, 8 bytes.
    SqlMode = 1,
    /// The catalog, of servers from 5.0.0 to 5.0.3: a length, text and a zero byte.
    Catalog = 2,
    /// Increment and offset of `AUTO_INCREMENT`, 2 bytes each.
    AutoIncrement = 3,
    /// The character sets of client, connection and server, 2 bytes each.
    Charset = 4,
    /// The time zone: a length and text.
    TimeZone = 5,
    /// The catalog: a length and text.
    CatalogNz = 6,
    /// The locale of month and day names, 2 bytes.
    LcTimeNames = 7,
    /// The character set of the default schema, 2 bytes.
    CharsetDatabase = 8,
    /// The tables that a statement updates, as 64 bits.
    TableMapForUpdate = 9,
    /// The length of the event at its source, 4 bytes.
    MasterDataWritten = 10,
    /// User and host of the invoker: each a length and text.
    Invoker = 11,
    /// The schemas that a statement updates: a count, then null-terminated names.
    UpdatedDbNames = 12,
    /// The microseconds of the statement's start time, 3 bytes.
    Microseconds = 13,
    /// Never written.
    CommitTs = 14,
    /// Never written.
    CommitTs2 = 15,
    /// The variable `explicit_defaults_for_timestamp`, 1 byte.
    ExplicitDefaultsForTimestamp = 16,
    /// The XID of a DDL statement, 8 bytes.
    DdlLoggedWithXid = 17,
    /// The default collation of `utf8mb4`, 2 bytes.
    DefaultCollationForUtf8mb4 = 18,
    /// The variable `sql_require_primary_key`, 1 byte.
    SqlRequirePrimaryKey = 19,
    /// The variable `default_table_encryption`, 1 byte.
    DefaultTableEncryption = 20,
}

/// A number that no status variable key has.
#[derive(Clone, Copy, Debug, PartialEq, Eq, Hash, Error)]
#[error("Unknown status var key {0}")]
pub struct UnknownStatusVarKey(pub u8);

impl TryFrom<u8> for StatusVarKey {
    type Error = UnknownStatusVarKey;

    ghost try_from_gives = { IsConstantOf status_var_key_number (λ unknown. unknown.0) };

    /// Returns the key with this number. Returns an error from 21 on.
    fn try_from(number: u8) -> Result<StatusVarKey, UnknownStatusVarKey> {
        match number {
            0 => Ok(StatusVarKey::Flags2),
            1 => Ok(StatusVarKey::SqlMode),
            2 => Ok(StatusVarKey::Catalog),
            3 => Ok(StatusVarKey::AutoIncrement),
            4 => Ok(StatusVarKey::Charset),
            5 => Ok(StatusVarKey::TimeZone),
            6 => Ok(StatusVarKey::CatalogNz),
            7 => Ok(StatusVarKey::LcTimeNames),
            8 => Ok(StatusVarKey::CharsetDatabase),
            9 => Ok(StatusVarKey::TableMapForUpdate),
            10 => Ok(StatusVarKey::MasterDataWritten),
            11 => Ok(StatusVarKey::Invoker),
            12 => Ok(StatusVarKey::UpdatedDbNames),
            13 => Ok(StatusVarKey::Microseconds),
            14 => Ok(StatusVarKey::CommitTs),
            15 => Ok(StatusVarKey::CommitTs2),
            16 => Ok(StatusVarKey::ExplicitDefaultsForTimestamp),
            17 => Ok(StatusVarKey::DdlLoggedWithXid),
            18 => Ok(StatusVarKey::DefaultCollationForUtf8mb4),
            19 => Ok(StatusVarKey::SqlRequirePrimaryKey),
            20 => Ok(StatusVarKey::DefaultTableEncryption),
            _ => Err(UnknownStatusVarKey(number)),
        }
    }
}

impl Constant<u8> for StatusVarKey {
    ghost number = { status_var_key_number };

    /// Returns the constant's number.
    fn to_number(self) -> u8 {
        self as u8
    }

    ghost takes = { λ n v h. h };

    ghost fails = { λ n e h. h.1 };

    ghost its_own = { Prim.search rules };
}
