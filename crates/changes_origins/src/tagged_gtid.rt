//! The GTID and the time of the commit in the body of a GTID_TAGGED_LOG_EVENT, which is in the format of MySQL's library
//! `mysql::serialization`.

ghost use Rattle.std.specs.Prelude.{◌≡◌, IfNone, IfSome};
ghost use Rattle.std.specs.List.{list_all};
ghost use Rattle.wire_buf.specs.Encoding.{Lacks, Reads};
ghost use Rattle.changes_origins.specs.TaggedGtids.{IsByte, IsField, IsInteger, IsNumberField, IsTagField, IsTaggedTime, IsUuidField, is_of_tag};

use wire_buf::ParseBuf;
use wire_fields_extra::read_varlen_uint;

/// The version of the format.
const VERSION: u64 = 1;

/// The numbers of fields: the flags, the UUID, the number of the transaction, the tag, two logical timestamps, and the time of the commit
/// in microseconds.
const FLAGS: u64 = 0;

const UUID: u64 = 1;

const NUMBER: u64 = 2;

const TAG: u64 = 3;

const LAST_COMMITTED: u64 = 4;

const SEQUENCE_NUMBER: u64 = 5;

const COMMIT_TIME: u64 = 6;

/// A tagged GTID.
#[derive(Clone, Copy)]
pub(crate) struct TaggedGtid<'a> {
    pub(crate) uuid: [u8; 16],
    pub(crate) tag: &'a [u8],
    /// The number of the transaction.
    pub(crate) number: u64,
}

/// Reads an integer. None if the bytes don't begin with one.
fn integer(buf: &mut ParseBuf<'_>) -> Option<u64>
    ensures some { IfSome result (λ v. Reads IsInteger v buf.old.0.now buf.new.0.now) }
    ensures none { IfNone result (Lacks IsInteger buf.old.0.now) }
{
    match read_varlen_uint(buf) {
        Ok(value) => Some(value),
        Err(_) => None,
    }
}

/// Reads this integer, and then another. None if the bytes don't begin with them.
fn integer_field(buf: &mut ParseBuf<'_>, number: u64) -> Option<u64>
    ensures some { IfSome result (λ v. Reads (IsField number IsInteger) v buf.old.0.now buf.new.0.now) }
    ensures none { IfNone result (Lacks (IsField number IsInteger) buf.old.0.now) }
{
    if integer(buf)? != number {
        return None;
    }
    integer(buf)
}

/// Reads an integer below 256.
fn byte(buf: &mut ParseBuf<'_>) -> Option<u8>
    ensures some { IfSome result (λ v. Reads IsByte v buf.old.0.now buf.new.0.now) }
    ensures none { IfNone result (Lacks IsByte buf.old.0.now) }
{
    let value = integer(buf)?;
    if value > 255 {
        return None;
    }
    Some(value as u8)
}

/// Reads the UUID, each byte of it an integer.
fn uuid_field(buf: &mut ParseBuf<'_>) -> Option<[u8; 16]>
    ensures some { IfSome result (λ v. Reads IsUuidField v buf.old.0.now buf.new.0.now) }
    ensures none { IfNone result (Lacks IsUuidField buf.old.0.now) }
{
    if integer(buf)? != UUID {
        return None;
    }
    let mut uuid = [0u8; 16];
    for own in uuid.iter_mut() {
        *own = byte(buf)?;
    }
    Some(uuid)
}

/// Reads the number of the transaction, a signed integer: its sign is its lowest bit.
fn number_field(buf: &mut ParseBuf<'_>) -> Option<u64>
    ensures some { IfSome result (λ v. Reads IsNumberField v buf.old.0.now buf.new.0.now) }
    ensures none { IfNone result (Lacks IsNumberField buf.old.0.now) }
{
    let number = integer_field(buf, NUMBER)?;
    if number % 2 != 0 {
        return None;
    }
    Some(number / 2)
}

/// Whether a tag may have this byte.
fn is_of_tag(byte: u8) -> bool
    ensures { result ≡ is_of_tag byte }
{
    byte.is_ascii_alphanumeric() || byte == b'_'
}

/// Whether these may be the bytes of a tag.
fn are_of_tag(bytes: &[u8]) -> bool
    ensures { result ≡ list_all is_of_tag bytes.now }
{
    bytes.iter().all(|byte| is_of_tag(*byte))
}

/// Reads the tag, after its length.
fn tag_field<'a>(buf: &mut ParseBuf<'a>) -> Option<&'a [u8]>
    ensures some { IfSome result (λ v. Reads IsTagField v.now buf.old.0.now buf.new.0.now) }
    ensures none { IfNone result (Lacks IsTagField buf.old.0.now) }
{
    let len = integer_field(buf, TAG)? as usize;
    let tag = buf.checked_eat(len)?;
    if !are_of_tag(tag) {
        return None;
    }
    Some(tag)
}

impl<'a> TaggedGtid<'a> {
    ghost use Rattle.std.specs.Prelude.{option_map};
    ghost use Rattle.changes_origins.specs.TaggedGtids.{IsBody, IsTaggedGtid, ReadsGtid};
    ghost use Rattle.changes_origins.specs.TaggedViews.{gtid_view};

    /// Reads the GTID. None if the bytes aren't the fields up to it.
    fn parse(buf: &mut ParseBuf<'a>) -> Option<TaggedGtid<'a>>
        ensures some { IfSome result (λ g. ReadsGtid (gtid_view g) buf.old.0.now buf.new.0.now) }
        ensures none { IfNone result (Lacks IsBody buf.old.0.now) }
    {
        let _size = integer_field(buf, VERSION)?;
        let _last_known = integer(buf)?;
        let _flags = integer_field(buf, FLAGS)?;
        let uuid = uuid_field(buf)?;
        let number = number_field(buf)?;
        let tag = tag_field(buf)?;
        Some(TaggedGtid { uuid, tag, number })
    }

    /// The GTID in the body of an event; None if the body can't be read.
    pub(crate) fn read(body: &'a [u8]) -> Option<TaggedGtid<'a>>
        ensures { IsTaggedGtid body.now (option_map gtid_view result) }
    {
        TaggedGtid::parse(&mut ParseBuf(body))
    }
}

/// The time of the commit in the body of an event, in milliseconds since 1970; None if the body has none, or can't be read.
pub fn tagged_commit_time(body: &[u8]) -> Option<u64>
    ensures { IsTaggedTime body.now result }
{
    let mut buf = ParseBuf(body);
    let _gtid = TaggedGtid::parse(&mut buf)?;
    let _last_committed = integer_field(&mut buf, LAST_COMMITTED)?;
    let _sequence_number = integer_field(&mut buf, SEQUENCE_NUMBER)?;
    let micros = integer_field(&mut buf, COMMIT_TIME)?;
    Some(micros / 1000)
}
