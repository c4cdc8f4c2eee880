//! What an event is to XA transactions.

ghost use Rattle.std.specs.Prelude.{◌≡◌, ◌≤◌, length, drop};
ghost use Rattle.events_replaced.specs.XaRoles.{is_indifferent, is_part, role_of, statement_of, statement_role, xa_role};
ghost use Rattle.events_replaced.specs.XaIdentifiers.{committed_xid, rolled_back_xid};

use byteorder::{ByteOrder, LittleEndian};
use events_frames::type_number;
use rows_constants::EventType;

/// The length of a QUERY_EVENT's header, its fields before the status variables, and the byte before the statement.
const STATEMENT_START: usize = 33;

/// The offsets of the schema's length, and of the status variables' length, in a QUERY_EVENT.
const SCHEMA_LEN_OFFSET: usize = 27;

const STATUS_LEN_OFFSET: usize = 30;

/// What the statements that commit and roll back a prepared transaction begin with. Its XID follows.
const COMMIT: &[u8] = b"XA COMMIT ";

const ROLLBACK: &[u8] = b"XA ROLLBACK ";

/// What an event is to XA transactions. A statement is that of the event without its checksum.
#[derive(Clone, Copy, PartialEq, Eq)]
pub(crate) enum XaRole {
    /// XA START: it begins a transaction.
    Start,
    /// XA END: no changes follow.
    End,
    /// An XA_PREPARE_LOG_EVENT: the transaction is prepared, or committed in one phase.
    Prepare,
    /// XA COMMIT.
    Commit,
    /// XA ROLLBACK.
    Rollback,
    /// Another XA statement.
    Other,
    /// A format description: no transaction is open after it.
    Description,
    /// ROLLBACK: no transaction is open after it.
    Drop,
    /// A table map, rows, a statement, the text of one, or a commit: a part of the open transaction.
    Part,
    /// None.
    None,
}

/// The statement of a QUERY_EVENT without its checksum; no bytes, if it is too short.
pub fn statement_of(event: &[u8]) -> &[u8]
    ensures { result.now ≡ statement_of event.now }
{
    if event.len() < STATEMENT_START {
        return &[];
    }
    let schema_len = usize::from(event[SCHEMA_LEN_OFFSET]);
    let status_len = usize::from(LittleEndian::read_u16(&event[STATUS_LEN_OFFSET..]));
    let start = STATEMENT_START + status_len + schema_len;
    if event.len() < start {
        return &[];
    }
    let (_, statement) = event.split_at(start);
    statement
}

/// What an XA statement is.
#[cold]
#[inline(never)]
fn xa_role(statement: &[u8]) -> XaRole
    ensures { result ≡ xa_role statement.now }
{
    if statement.starts_with(b"XA START") {
        return XaRole::Start;
    }
    if statement.starts_with(b"XA END") {
        return XaRole::End;
    }
    if statement.starts_with(COMMIT) {
        return XaRole::Commit;
    }
    if statement.starts_with(ROLLBACK) {
        return XaRole::Rollback;
    }
    XaRole::Other
}

/// What a statement is.
#[inline(always)]
fn statement_role(statement: &[u8]) -> XaRole
    ensures { result ≡ statement_role statement.now }
{
    if statement.starts_with(b"XA ") {
        return xa_role(statement);
    }
    if statement == b"ROLLBACK".as_slice() {
        return XaRole::Drop;
    }
    XaRole::Part
}

/// Whether an event of this type, which is no statement, may be a part of a transaction.
#[inline(always)]
fn is_part(number: u8) -> bool
    ensures { result ≡ is_part number }
{
    number == EventType::XID_EVENT as u8
        || number == EventType::TABLE_MAP_EVENT as u8
        || number == EventType::PARTIAL_UPDATE_ROWS_EVENT as u8
        || (number >= EventType::WRITE_ROWS_EVENT_V1 as u8
            && number <= EventType::DELETE_ROWS_EVENT_V1 as u8)
        || (number >= EventType::ROWS_QUERY_EVENT as u8
            && number <= EventType::DELETE_ROWS_EVENT as u8)
}

/// What an event without its checksum is to XA transactions.
#[inline(always)]
pub(crate) fn role_of(event: &[u8]) -> XaRole
    requires { 19 ≤ length event.now }
    ensures { result ≡ role_of event.now }
{
    let number = type_number(event);
    if number == EventType::QUERY_EVENT as u8 {
        return statement_role(statement_of(event));
    }
    if number == EventType::XA_PREPARE_LOG_EVENT as u8 {
        return XaRole::Prepare;
    }
    if number == EventType::FORMAT_DESCRIPTION_EVENT as u8 {
        return XaRole::Description;
    }
    if is_part(number) {
        return XaRole::Part;
    }
    XaRole::None
}

/// Whether an event is no statement, and neither prepares a transaction nor describes a format.
#[inline(always)]
pub(crate) fn is_indifferent(event: &[u8]) -> bool
    requires { 19 ≤ length event.now }
    ensures { result ≡ is_indifferent event.now }
{
    let number = type_number(event);
    number != EventType::QUERY_EVENT as u8
        && number != EventType::XA_PREPARE_LOG_EVENT as u8
        && number != EventType::FORMAT_DESCRIPTION_EVENT as u8
}

/// The XID of a statement that commits a prepared transaction.
pub(crate) fn committed_xid(event: &[u8]) -> &[u8]
    ensures { result.now ≡ committed_xid event.now }
{
    after(COMMIT.len(), statement_of(event))
}

/// The XID of a statement that rolls back a prepared transaction.
pub(crate) fn rolled_back_xid(event: &[u8]) -> &[u8]
    ensures { result.now ≡ rolled_back_xid event.now }
{
    after(ROLLBACK.len(), statement_of(event))
}

/// The bytes of a text after the first `len`; none, if it has fewer.
fn after(len: usize, text: &[u8]) -> &[u8]
    ensures { result.now ≡ drop len text.now }
{
    if text.len() < len {
        return &[];
    }
    let (_, rest) = text.split_at(len);
    rest
}
