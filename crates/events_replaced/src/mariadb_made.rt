//! The events that stand for MariaDB's, as bytes.

ghost use Rattle.std.specs.Prelude.{◌≡◌, ◌≤◌, ◌<◌, ◌+◌, ◌^◌, ◌++◌, ◌∷◌, [], List, ℕ, length, drop, take, vec_len, OnOk};
ghost use Rattle.std.specs.List.{concat};
ghost use Rattle.events_replaced.specs.MadeEvents.{begin_for, gtid_body, header_made, is_prepared_xa, is_standalone, made, statement_body};

use byteorder::{ByteOrder, LittleEndian};
use events_frames::BinlogEventHeader;
use rows_constants::EventType;
use std::alloc::AllocError;

/// The offsets of the fields of a header: the type, the id of the server, the size, and the flags, which are the last field.
const TYPE_OFFSET: usize = 4;

const SERVER_OFFSET: usize = 5;

const SIZE_OFFSET: usize = 9;

const FLAGS_OFFSET: usize = 17;

/// The offsets of the fields of a GTID_EVENT: the sequence number, the id of the domain, and the flags.
const DOMAIN_OFFSET: usize = 27;

const GTID_FLAGS_OFFSET: usize = 31;

/// The offset after the fields of a GTID_EVENT that are kept.
const GTID_END: usize = 36;

/// The flag of a GTID_EVENT before a statement that is no transaction.
const STANDALONE: u8 = 1;

/// Its flag before an XA transaction that is prepared.
const PREPARED_XA: u8 = 64;

/// The fields of a QUERY_EVENT after the id of its thread: no schema, no error and no status variables.
const NO_FIELDS: [u8; 10] = [0; 10];

/// The length of a QUERY_EVENT with these fields before its statement.
const FIELDS_LEN: u32 = 33;

/// Appends the header of an event with this number of its type and this length. The time, the server and the flags are those of another event, the position
/// is 0. `AllocError`: out of memory.
#[tactic(auto, unfolding(crate::specs::MadeEvents::header_made))]
pub(crate) fn put_header(
    event: &[u8],
    number: u8,
    len: u32,
    out: &mut Vec<u8>,
) -> Result<(), AllocError>
    requires { 19 ≤ length event.now }
    ensures made { OnOk result (out.new.items ≡ out.old.items ++ header_made number len event.now) }
    ensures len { OnOk result (vec_len out.new ≡ vec_len out.old + 19) }
    ensures few { vec_len out.new ≤ vec_len out.old + 19 }
{
    let (time, _) = event.split_at(TYPE_OFFSET);
    let (_, after_type) = event.split_at(SERVER_OFFSET);
    let (server, _) = after_type.split_at(SIZE_OFFSET - SERVER_OFFSET);
    let (_, after_position) = event.split_at(FLAGS_OFFSET);
    let (flags, _) = after_position.split_at(BinlogEventHeader::LEN - FLAGS_OFFSET);
    out.extend_from_slice(time)?;
    out.extend_from_slice(&[number])?;
    out.extend_from_slice(server)?;
    out.extend_from_slice(&len.to_le_bytes())?;
    out.extend_from_slice(&[0, 0, 0, 0])?;
    out.extend_from_slice(flags)
}

/// Appends an event with this number of its type and the body of another.
pub(crate) fn put_retyped(event: &[u8], number: u8, out: &mut Vec<u8>) -> Result<(), AllocError>
    requires long { 19 ≤ length event.now }
    requires few { length event.now < 2 ^ 32 }
    ensures made { OnOk result (out.new.items ≡ out.old.items ++ made number (drop 19 event.now) event.now) }
    ensures len { OnOk result (vec_len out.new ≡ vec_len out.old + length event.now) }
    ensures few { vec_len out.new ≤ vec_len out.old + length event.now }
{
    let (_, body) = event.split_at(BinlogEventHeader::LEN);
    put_header(event, number, event.len() as u32, out)?;
    out.extend_from_slice(body)
}

/// Appends the ROWS_QUERY_EVENT in place of an ANNOTATE_ROWS_EVENT: a length, which no reader uses, and the statement.
pub(crate) fn put_annotation(event: &[u8], out: &mut Vec<u8>) -> Result<(), AllocError>
    requires long { 19 ≤ length event.now }
    requires few { length event.now + 1 < 2 ^ 32 }
    ensures made { OnOk result (out.new.items ≡ out.old.items ++ made 29 (0 ∷ drop 19 event.now) event.now) }
    ensures len { OnOk result (vec_len out.new ≡ vec_len out.old + length event.now + 1) }
    ensures few { vec_len out.new ≤ vec_len out.old + length event.now + 1 }
{
    let (_, statement) = event.split_at(BinlogEventHeader::LEN);
    put_header(
        event,
        EventType::ROWS_QUERY_EVENT as u8,
        event.len() as u32 + 1,
        out,
    )?;
    out.extend_from_slice(&[0])?;
    out.extend_from_slice(statement)
}

/// Whether the event after a GTID_EVENT is a statement that is no transaction.
fn is_standalone(event: &[u8]) -> bool
    requires { 38 ≤ length event.now }
    ensures { result ≡ is_standalone event.now }
{
    event[GTID_FLAGS_OFFSET] % 2 == STANDALONE
}

/// Appends the GTID of a GTID_EVENT. The byte 0 that it begins with is no version of MySQL's format of tagged GTIDs.
#[tactic(auto, unfolding(crate::specs::MadeEvents::gtid_body))]
fn put_gtid_body(event: &[u8], out: &mut Vec<u8>) -> Result<(), AllocError>
    requires { 38 ≤ length event.now }
    ensures made { OnOk result (out.new.items ≡ out.old.items ++ gtid_body event.now) }
    ensures len { OnOk result (vec_len out.new + 19 ≡ vec_len out.old + length event.now) }
    ensures few { vec_len out.new + 19 ≤ vec_len out.old + length event.now }
{
    let (_, after_type) = event.split_at(SERVER_OFFSET);
    let (server, _) = after_type.split_at(SIZE_OFFSET - SERVER_OFFSET);
    let (_, body) = event.split_at(BinlogEventHeader::LEN);
    let (sequence, _) = body.split_at(DOMAIN_OFFSET - BinlogEventHeader::LEN);
    let (_, after_sequence) = event.split_at(DOMAIN_OFFSET);
    let (domain, _) = after_sequence.split_at(GTID_FLAGS_OFFSET - DOMAIN_OFFSET);
    let (_, rest) = event.split_at(GTID_END);
    out.extend_from_slice(&[0])?;
    out.extend_from_slice(domain)?;
    out.extend_from_slice(server)?;
    out.extend_from_slice(sequence)?;
    out.extend_from_slice(rest)
}

/// Appends the GTID_TAGGED_LOG_EVENT in place of a GTID_EVENT, of the same length.
fn put_tagged(event: &[u8], out: &mut Vec<u8>) -> Result<(), AllocError>
    requires long { 38 ≤ length event.now }
    requires few { length event.now < 2 ^ 32 }
    ensures made { OnOk result (out.new.items ≡ out.old.items ++ made 42 (gtid_body event.now) event.now) }
    ensures len { OnOk result (vec_len out.new ≡ vec_len out.old + length event.now) }
    ensures few { vec_len out.new ≤ vec_len out.old + length event.now }
{
    put_header(
        event,
        EventType::GTID_TAGGED_LOG_EVENT as u8,
        event.len() as u32,
        out,
    )?;
    put_gtid_body(event, out)
}

/// Appends the body of a QUERY_EVENT with this statement and the id of a thread.
#[tactic(auto, unfolding(crate::specs::MadeEvents::statement_body))]
fn put_statement_body(thread_id: u32, statement: &[u8], out: &mut Vec<u8>) -> Result<(), AllocError>
    ensures made { OnOk result (out.new.items ≡ out.old.items ++ statement_body thread_id statement.now) }
    ensures len { OnOk result (vec_len out.new ≡ vec_len out.old + 14 + length statement.now) }
    ensures few { vec_len out.new ≤ vec_len out.old + 14 + length statement.now }
{
    out.extend_from_slice(&thread_id.to_le_bytes())?;
    out.extend_from_slice(&NO_FIELDS)?;
    out.extend_from_slice(statement)
}

/// Appends a QUERY_EVENT with this statement and the id of a thread, without a schema. The time, the server and the flags are those of
/// another event, the position is 0. `AllocError`: out of memory; a part of it may be appended then.
pub fn put_statement(
    event: &[u8],
    thread_id: u32,
    statement: &[u8],
    out: &mut Vec<u8>,
) -> Result<(), AllocError>
    requires long { 19 ≤ length event.now }
    requires few { length statement.now ≤ 8 }
    ensures made { OnOk result (out.new.items ≡ out.old.items ++ made 2 (statement_body thread_id statement.now) event.now) }
    ensures len { OnOk result (vec_len out.new ≡ vec_len out.old + 33 + length statement.now) }
    ensures few { vec_len out.new ≤ vec_len out.old + 33 + length statement.now }
{
    let len = FIELDS_LEN + statement.len() as u32;
    put_header(event, EventType::QUERY_EVENT as u8, len, out)?;
    put_statement_body(thread_id, statement, out)
}

/// Whether an XA transaction that is prepared follows a GTID_EVENT.
fn is_prepared_xa(event: &[u8]) -> bool
    requires { 38 ≤ length event.now }
    ensures { result ≡ is_prepared_xa event.now }
{
    event[GTID_FLAGS_OFFSET] / PREPARED_XA % 2 == 1
}

/// Appends the events in place of a GTID_EVENT: its GTID, and BEGIN, or XA START before an XA transaction that is prepared, unless a
/// statement that is no transaction follows.
pub(crate) fn put_gtid(event: &[u8], out: &mut Vec<u8>) -> Result<(), AllocError>
    requires long { 38 ≤ length event.now }
    requires few { length event.now < 2 ^ 32 }
    ensures made { OnOk result (out.new.items ≡ out.old.items ++ (made 42 (gtid_body event.now) event.now ++ concat (begin_for event.now))) }
    ensures few { vec_len out.new ≤ vec_len out.old + length event.now + 41 }
{
    put_tagged(event, out)?;
    if is_standalone(event) {
        return Ok(());
    }
    if is_prepared_xa(event) {
        return put_statement(event, 0, b"XA START", out);
    }
    put_statement(event, 0, b"BEGIN", out)
}
