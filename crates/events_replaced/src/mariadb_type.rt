//! The types of events that only MariaDB's servers write.

ghost use Rattle.std.specs.Prelude.{◌≡◌, false, IfSome, IfNone};
ghost use Rattle.events_replaced.specs.MariadbTypes.{is_mariadb_number, mariadb_number};

/// The type of an event that only MariaDB's servers write: the fifth byte of its header. MariaDB's knowledge base: 2-Binlog Event
/// Header.
#[derive(Clone, Copy, Debug, PartialEq, Eq)]
pub enum MariadbType {
    /// The statement that changed the rows after it.
    ANNOTATE_ROWS_EVENT,
    /// The first log that the server may need after a crash.
    BINLOG_CHECKPOINT_EVENT,
    /// The GTID of the transaction or the statement after it.
    GTID_EVENT,
    /// The GTIDs of the logs before.
    GTID_LIST_EVENT,
    /// The events after it are encrypted.
    START_ENCRYPTION_EVENT,
    /// A compressed statement.
    QUERY_COMPRESSED_EVENT,
    /// Compressed inserted rows.
    WRITE_ROWS_COMPRESSED_EVENT_V1,
    /// Compressed updated rows.
    UPDATE_ROWS_COMPRESSED_EVENT_V1,
    /// Compressed deleted rows.
    DELETE_ROWS_COMPRESSED_EVENT_V1,
    /// Compressed inserted rows, in version 2.
    WRITE_ROWS_COMPRESSED_EVENT,
    /// Compressed updated rows, in version 2.
    UPDATE_ROWS_COMPRESSED_EVENT,
    /// Compressed deleted rows, in version 2.
    DELETE_ROWS_COMPRESSED_EVENT,
}

/// Returns whether a type is MariaDB's own.
#[inline(always)]
pub fn is_mariadb_number(number: u8) -> bool
    ensures { result ≡ is_mariadb_number number }
{
    160 <= number && number <= 171
}

impl MariadbType {
    /// Returns the type with this number; None if there is none.
    pub fn of(number: u8) -> Option<MariadbType>
        ensures some { IfSome result (λ t. mariadb_number t ≡ number) }
        ensures none { IfNone result (is_mariadb_number number ≡ false) }
    {
        match number {
            160 => Some(MariadbType::ANNOTATE_ROWS_EVENT),
            161 => Some(MariadbType::BINLOG_CHECKPOINT_EVENT),
            162 => Some(MariadbType::GTID_EVENT),
            163 => Some(MariadbType::GTID_LIST_EVENT),
            164 => Some(MariadbType::START_ENCRYPTION_EVENT),
            165 => Some(MariadbType::QUERY_COMPRESSED_EVENT),
            166 => Some(MariadbType::WRITE_ROWS_COMPRESSED_EVENT_V1),
            167 => Some(MariadbType::UPDATE_ROWS_COMPRESSED_EVENT_V1),
            168 => Some(MariadbType::DELETE_ROWS_COMPRESSED_EVENT_V1),
            169 => Some(MariadbType::WRITE_ROWS_COMPRESSED_EVENT),
            170 => Some(MariadbType::UPDATE_ROWS_COMPRESSED_EVENT),
            171 => Some(MariadbType::DELETE_ROWS_COMPRESSED_EVENT),
            _ => None,
        }
    }
}
