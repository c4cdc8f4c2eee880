//! The event in place of another, of the same size.

ghost use Rattle.std.specs.Prelude.{◌≡◌, ◌≤◌, ◌++◌, ◌⊎◌, true, length, IfOk, IfErr, OnOk};
ghost use Rattle.events_replaced.specs.SamePlaceEvents.{begin_body, begin_bytes, fault_of, gtid_bytes, has_xa, ignorable_bytes, is_compressed, is_replaced, is_xa, plain_bytes, summed, IsPlain, IsUnplain};
ghost use Rattle.events_replaced.specs.declared.plain_fault.PlainFault.TheVariants.{Memory, Xa};

use crate::plain_fault::PlainFault;
use crate::replacements::checked;
use crate::xa_role::statement_of;
use crc32::crc32;
use events_frames::{BinlogEventHeader, type_number};
use rows_constants::EventType;
use std::alloc::AllocError;

/// The types of MariaDB's own events: the first of those that others stand in place of, and the last; their GTIDs; the beginning of
/// encryption; and the first and the last of the compressed ones.
const ANNOTATE_ROWS: u8 = 160;

const GTID_LIST: u8 = 163;

const GTID: u8 = 162;

const START_ENCRYPTION: u8 = 164;

const FIRST_COMPRESSED: u8 = 165;

const LAST_COMPRESSED: u8 = 171;

/// The offsets of the type and of the flags in a header.
const TYPE_OFFSET: usize = 4;

const FLAGS_OFFSET: usize = 17;

/// The flag of an event that may be ignored.
const IGNORABLE: u8 = 0x80;

/// The minimum length of a GTID_EVENT, which is that of BEGIN without a schema, and the maximum, which is that of BEGIN with the longest
/// name of a schema.
const MIN_GTID_LEN: usize = 38;

const MAX_GTID_LEN: usize = 293;

/// The offset of the flags of a GTID_EVENT, its flag before a statement that is no transaction, and that before an XA transaction that is
/// prepared.
const GTID_FLAGS_OFFSET: usize = 31;

const STANDALONE: u8 = 1;

const PREPARED_XA: u8 = 64;

/// Whether an event is one of an XA transaction: a statement that begins with `XA `, or a transaction that is prepared.
fn is_xa(number: u8, event: &[u8]) -> bool
    ensures { result ≡ is_xa number event.now }
{
    if number == EventType::XA_PREPARE_LOG_EVENT as u8 {
        return true;
    }
    number == EventType::QUERY_EVENT as u8 && statement_of(event).starts_with(b"XA ")
}

/// Whether an event is compressed.
fn is_compressed(number: u8) -> bool
    ensures { result ≡ is_compressed number }
{
    number == EventType::TRANSACTION_PAYLOAD_EVENT as u8
        || (FIRST_COMPRESSED <= number && number <= LAST_COMPRESSED)
}

/// Whether another event may stand in place of one of this type.
fn is_replaced(number: u8) -> bool
    ensures { result ≡ is_replaced number }
{
    ANNOTATE_ROWS <= number && number <= GTID_LIST
}

/// Why no event stands in place of one of this type.
fn fault_of(number: u8, event: &[u8]) -> Option<PlainFault>
    ensures { result ≡ fault_of number event.now }
{
    if is_compressed(number) {
        return Some(PlainFault::Compressed);
    }
    if is_xa(number, event) {
        return Some(PlainFault::Xa);
    }
    (number == START_ENCRYPTION).then_some(PlainFault::Encrypted)
}

/// Appends an event with this number of its type and the flag of one that may be ignored; the rest is that of another event.
fn put_ignorable(event: &[u8], out: &mut Vec<u8>) -> Result<(), AllocError>
    requires { 19 ≤ length event.now }
    ensures { OnOk result (out.new.items ≡ out.old.items ++ ignorable_bytes event.now) }
{
    let (time, _) = event.split_at(TYPE_OFFSET);
    let (_, after_type) = event.split_at(TYPE_OFFSET + 1);
    let (place, _) = after_type.split_at(FLAGS_OFFSET - TYPE_OFFSET - 1);
    let (_, after_flag) = event.split_at(FLAGS_OFFSET + 1);
    let flags = event[FLAGS_OFFSET];
    out.extend_from_slice(time)?;
    out.push(EventType::IGNORABLE_EVENT as u8)?;
    out.extend_from_slice(place)?;
    out.push(if flags < IGNORABLE {
        flags + IGNORABLE
    } else {
        flags
    })?;
    out.extend_from_slice(after_flag)
}

/// Appends the body of a QUERY_EVENT with the statement BEGIN, and a schema whose name is so many spaces.
#[tactic(auto, unfolding(crate::specs::SamePlaceEvents::begin_body))]
fn put_begin_body(padding: u8, out: &mut Vec<u8>) -> Result<(), AllocError>
    ensures { OnOk result (out.new.items ≡ out.old.items ++ begin_body padding) }
{
    out.extend_from_slice(&[0, 0, 0, 0, 0, 0, 0, 0, padding, 0, 0, 0, 0])?;
    out.resize(out.len() + usize::from(padding), b' ')?;
    out.extend_from_slice(b"\0BEGIN")
}

/// Appends the event BEGIN, of the same length as another: what is too much for it is the name of a schema.
fn put_begin(event: &[u8], out: &mut Vec<u8>) -> Result<(), AllocError>
    requires long { 38 ≤ length event.now }
    requires few { length event.now ≤ 293 }
    ensures { OnOk result (out.new.items ≡ out.old.items ++ begin_bytes event.now) }
{
    let padding = (event.len() - MIN_GTID_LEN) as u8;
    let (time, _) = event.split_at(TYPE_OFFSET);
    let (_, after_type) = event.split_at(TYPE_OFFSET + 1);
    let (rest, _) = after_type.split_at(BinlogEventHeader::LEN - TYPE_OFFSET - 1);
    out.extend_from_slice(time)?;
    out.push(EventType::QUERY_EVENT as u8)?;
    out.extend_from_slice(rest)?;
    put_begin_body(padding, out)
}

/// Appends what stands in place of a GTID_EVENT: BEGIN; an event that may be ignored, before a statement that is no transaction; or the
/// event itself, if it is too short or too long. `Xa`: an XA transaction follows. `Memory`: out of memory.
fn put_gtid(event: &[u8], out: &mut Vec<u8>) -> Result<(), PlainFault>
    requires { 19 ≤ length event.now }
    ensures ok { OnOk result (out.new.items ≡ out.old.items ++ gtid_bytes event.now) }
    ensures err { IfErr result (λ f. ((f ≡ Xa) × (has_xa event.now ≡ true)) ⊎ (f ≡ Memory)) }
{
    if event.len() < MIN_GTID_LEN || event.len() > MAX_GTID_LEN {
        return Ok(out.extend_from_slice(event)?);
    }
    let flags = event[GTID_FLAGS_OFFSET];
    if flags / PREPARED_XA % 2 == 1 {
        return Err(PlainFault::Xa);
    }
    if flags % 2 == STANDALONE {
        return Ok(put_ignorable(event, out)?);
    }
    Ok(put_begin(event, out)?)
}

/// Makes the event in place of another, which is without its checksum.
fn make(number: u8, event: &[u8], has_checksum: bool, made: &mut Vec<u8>) -> Result<(), PlainFault>
    requires { 19 ≤ length event.now }
    ensures ok { OnOk result (made.new.items ≡ summed has_checksum (plain_bytes number event.now)) }
    ensures err { IfErr result (λ f. ((f ≡ Xa) × (number ≡ 162) × (has_xa event.now ≡ true)) ⊎ (f ≡ Memory)) }
{
    made.clear();
    if number == GTID {
        put_gtid(event, made)?;
    } else {
        put_ignorable(event, made)?;
    }
    if has_checksum {
        let sum = crc32(made);
        made.extend_from_slice(&sum.to_le_bytes())?;
    }
    Ok(())
}

/// Returns the event in place of an event of a log, of the same size and with the same position, or the event itself; `made` is a buffer
/// to make it in. Of MariaDB's own events a GTID becomes the BEGIN of its transaction, or an event that may be ignored if it precedes a
/// statement that is no transaction; texts of statements, checkpoints and lists of GTIDs become events that may be ignored. One whose
/// checksum is wrong stays as it is. `has_checksum`: the log's events have one.
///
/// - `Compressed`: it is a compressed transaction, or a compressed event of MariaDB.
/// - `Xa`: it is an XA statement, prepares an XA transaction, or is the GTID of one that is prepared.
/// - `Encrypted`: the events after it are encrypted.
/// - `Memory`: out of memory.
pub fn plain_event<'e>(
    event: &'e [u8],
    has_checksum: bool,
    made: &'e mut Vec<u8>,
) -> Result<&'e [u8], PlainFault>
    requires { 19 ≤ length event.now }
    ensures ok { IfOk result (λ p. IsPlain has_checksum event.now p.now) }
    ensures err { IfErr result (IsUnplain has_checksum event.now) }
{
    let number = type_number(event);
    if let Some(fault) = fault_of(number, event) {
        return Err(fault);
    }
    if !is_replaced(number) {
        return Ok(event);
    }
    let Some(bytes) = checked(event, has_checksum) else {
        return Ok(event);
    };
    match make(number, bytes, has_checksum, made) {
        Ok(()) => Ok(made),
        Err(fault) => Err(fault),
    }
}
