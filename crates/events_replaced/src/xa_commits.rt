//! The COMMIT of an XA transaction, which has the transaction's XID.

ghost use Rattle.std.specs.Prelude.{◌≡◌, ◌≤◌, ◌+◌, ◌++◌, length, vec_len, OnOk};
ghost use Rattle.events_replaced.specs.MadeEvents.{header_made, made};
ghost use Rattle.events_replaced.specs.XaCommits.{commit_made, commit_of, has_room, xid_body};

use crate::mariadb_made::put_statement;
use events_frames::BinlogEventHeader;
use rows_constants::EventType;
use std::alloc::AllocError;

/// The offsets of the fields of a header: the type, the id of the server, the size, and the flags, which are the last field.
const TYPE_OFFSET: usize = 4;

const SERVER_OFFSET: usize = 5;

const SIZE_OFFSET: usize = 9;

const FLAGS_OFFSET: usize = 17;

/// The fields of a QUERY_EVENT before the length of its status variables: no thread, no time, no schema and no error.
const NO_FIELDS: [u8; 11] = [0; 11];

/// The number of the status variable that is the XID. No server writes one of this number.
const XID_VARIABLE: u8 = 255;

/// The length of a QUERY_EVENT with the statement COMMIT and that variable, without the XID.
const LEN: u32 = 40;

/// The maximum length of an XID as statements have it: both parts have at most 64 bytes.
const MAX_XID_LEN: usize = 274;

/// The maximum length of the events of a transaction whose COMMIT has its XID.
const MAX_EVENTS_LEN: usize = 0xffff_fe00;

/// The statement.
const COMMIT: &[u8] = b"COMMIT";

/// Whether the COMMIT after these events has this XID.
fn has_room(events: &[u8], xid: &[u8]) -> bool
    ensures { result ≡ has_room events.now xid.now }
{
    events.len() <= MAX_EVENTS_LEN && xid.len() <= MAX_XID_LEN
}

/// Appends the header of a QUERY_EVENT of this length. The time, the server and the flags are those of another event, the position is 0.
#[tactic(auto, unfolding(crate::specs::MadeEvents::header_made))]
fn put_header(event: &[u8], len: u32, out: &mut Vec<u8>) -> Result<(), AllocError>
    requires { 19 ≤ length event.now }
    ensures made { OnOk result (out.new.items ≡ out.old.items ++ header_made 2 len event.now) }
    ensures few { vec_len out.new ≤ vec_len out.old + 19 }
{
    let (time, _) = event.split_at(TYPE_OFFSET);
    let (_, after_type) = event.split_at(SERVER_OFFSET);
    let (server, _) = after_type.split_at(SIZE_OFFSET - SERVER_OFFSET);
    let (_, after_position) = event.split_at(FLAGS_OFFSET);
    let (flags, _) = after_position.split_at(BinlogEventHeader::LEN - FLAGS_OFFSET);
    out.extend_from_slice(time)?;
    out.extend_from_slice(&[EventType::QUERY_EVENT as u8])?;
    out.extend_from_slice(server)?;
    out.extend_from_slice(&len.to_le_bytes())?;
    out.extend_from_slice(&[0, 0, 0, 0])?;
    out.extend_from_slice(flags)
}

/// Appends the body of a QUERY_EVENT with the statement COMMIT and this XID.
#[tactic(auto, unfolding(crate::specs::XaCommits::xid_body))]
fn put_xid_body(xid: &[u8], out: &mut Vec<u8>) -> Result<(), AllocError>
    requires { length xid.now ≤ 274 }
    ensures made { OnOk result (out.new.items ≡ out.old.items ++ xid_body xid.now) }
    ensures few { vec_len out.new ≤ vec_len out.old + 21 + length xid.now }
{
    let status_len = xid.len() as u16 + 1;
    out.extend_from_slice(&NO_FIELDS)?;
    out.extend_from_slice(&status_len.to_le_bytes())?;
    out.extend_from_slice(&[XID_VARIABLE])?;
    out.extend_from_slice(xid)?;
    out.extend_from_slice(&[0])?;
    out.extend_from_slice(COMMIT)
}

/// Appends COMMIT, with the time and the server of an event. `AllocError`: out of memory.
pub(crate) fn put_commit(event: &[u8], out: &mut Vec<u8>) -> Result<(), AllocError>
    requires { 19 ≤ length event.now }
    ensures made { OnOk result (out.new.items ≡ out.old.items ++ commit_made event.now) }
    ensures few { vec_len out.new ≤ vec_len out.old + 39 }
{
    put_statement(event, 0, COMMIT, out)
}

/// Appends COMMIT after the events of a transaction, with its XID, if that isn't longer than those of servers and the events leave room
/// for it, and with the time and the server of an event. `AllocError`: out of memory.
pub(crate) fn put_commit_of(
    events: &[u8],
    xid: &[u8],
    event: &[u8],
    out: &mut Vec<u8>,
) -> Result<(), AllocError>
    requires long { 19 ≤ length event.now }
    requires kept { length events.now ≤ 0xffff_ff00 }
    requires begun { vec_len out.old ≤ length events.now + 38 }
    ensures made { OnOk result (out.new.items ≡ out.old.items ++ commit_of events.now xid.now event.now) }
    ensures few { vec_len out.new ≤ 0xffff_fffb }
{
    if !has_room(events, xid) {
        return put_commit(event, out);
    }
    put_header(event, LEN + xid.len() as u32, out)?;
    put_xid_body(xid, out)
}
