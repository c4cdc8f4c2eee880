//! GTIDs as JSON.

ghost use Rattle.std.specs.Prelude.{◌≡◌, ◌++◌, Some, OnOk, option_map};
ghost use Rattle.feed_checks.specs.KindViews.{gtid_view};
ghost use Rattle.feed_checks.specs.Kinds.{Numbered, Tagged};
ghost use Rattle.feed_text.specs.Buffers.{text_in};
ghost use Rattle.changes_origins.specs.GtidJson.{AppendsGtid};
ghost use Rattle.changes_origins.specs.MariadbGtids.{mariadb_json};
ghost use Rattle.changes_origins.specs.MariadbViews.{mariadb_view};

use crate::mariadb_gtid::MariadbGtid;
use crate::tagged_gtid::TaggedGtid;
use crate::utf8::put_base64;
use feed_checks::Gtid;
use feed_text::{TextBuffer, put_uuid};
use std::alloc::{AllocError, Allocator};

/// Appends a GTID of MariaDB as a string.
fn put_mariadb<A: Allocator>(gtid: MariadbGtid, text: &mut TextBuffer<A>) -> Result<(), AllocError>
    ensures { OnOk result (text_in text.new ≡ text_in text.old ++ mariadb_json (mariadb_view gtid)) }
{
    text.put(b'"')?;
    text.put_number(u64::from(gtid.domain))?;
    text.put(b'-')?;
    text.put_number(u64::from(gtid.server))?;
    text.put(b'-')?;
    text.put_number(gtid.sequence)?;
    text.put(b'"')
}

/// Appends a tagged GTID, or one of MariaDB, as a string; an object with the Base64 of the event's body if that can't be read.
fn put_tagged<A: Allocator>(body: &[u8], text: &mut TextBuffer<A>) -> Result<(), AllocError>
    ensures { OnOk result (AppendsGtid (Some (Tagged body.now)) (text_in text.old) (text_in text.new)) }
{
    if let Some(gtid) = MariadbGtid::read(body) {
        return put_mariadb(gtid, text);
    }
    let Some(gtid) = TaggedGtid::read(body) else {
        return put_base64(body, text);
    };
    text.put(b'"')?;
    put_uuid(&gtid.uuid, text)?;
    text.put(b':')?;
    text.put_text(gtid.tag)?;
    text.put(b':')?;
    text.put_number(gtid.number)?;
    text.put(b'"')
}

/// Appends a GTID with this UUID and this number as a string.
///
/// - `AllocError`: out of memory; a part of it may be appended.
pub fn put_numbered_gtid<A: Allocator>(
    uuid: &[u8; 16],
    number: u64,
    text: &mut TextBuffer<A>,
) -> Result<(), AllocError>
    ensures { OnOk result (AppendsGtid (Some (Numbered uuid.now number)) (text_in text.old) (text_in text.new)) }
{
    text.put(b'"')?;
    put_uuid(uuid, text)?;
    text.put(b':')?;
    text.put_number(number)?;
    text.put(b'"')
}

/// Appends a GTID as a string, or null if it is anonymous or there is none.
///
/// - `AllocError`: out of memory; a part of it may be appended.
pub fn put_gtid<A: Allocator>(
    gtid: Option<Gtid<'_>>,
    text: &mut TextBuffer<A>,
) -> Result<(), AllocError>
    ensures { OnOk result (AppendsGtid (option_map gtid_view gtid.entry) (text_in text.old) (text_in text.new)) }
{
    match gtid {
        Some(Gtid::Numbered { uuid, number }) => {
            text.put(b'"')?;
            put_uuid(&uuid, text)?;
            text.put(b':')?;
            text.put_number(number)?;
            text.put(b'"')
        }
        Some(Gtid::Tagged(body)) => put_tagged(body, text),
        Some(Gtid::Anonymous) | None => text.put_text(b"null"),
    }
}
