//! What the bodies of MariaDB's own events say, in brief.

ghost use Rattle.std.specs.Prelude.{◌≤◌, length};
ghost use Rattle.changes_commands.specs.GrowingTexts.{Grows};

use crate::brief::{put_statement, put_table};
use crate::text::Text;
use byteorder::{ByteOrder, LittleEndian};
use events_frames::{EventParts, EventStreamReader};
use events_replaced::MariadbType;

/// The offset of the domain in the body of a GTID_EVENT, after the sequence number.
const DOMAIN_OFFSET: usize = 8;

/// The offset of the first GTID in the body of a GTID_LIST_EVENT, after their number, and the length of each: its domain, its server and
/// its sequence number.
const FIRST_OFFSET: usize = 4;

const LISTED_LEN: usize = 16;

const SERVER_OFFSET: usize = 4;

const NUMBER_OFFSET: usize = 8;

/// The offset of the name in the body of a BINLOG_CHECKPOINT_EVENT, after its length.
const NAME_OFFSET: usize = 4;

/// The length of the id of a table.
const TABLE_ID_LEN: usize = 6;

/// Appends the GTID in the body of a GTID_EVENT, of this server.
#[tactic(auto, using(crate::proofs::GrowingLemmas::grows_by))]
fn put_gtid(server: u32, body: &[u8], out: &mut Text)
    ensures { Grows out.old out.new }
{
    if body.len() < DOMAIN_OFFSET + 4 {
        out.words("damaged");
        return;
    }
    out.unsigned(u64::from(LittleEndian::read_u32(&body[DOMAIN_OFFSET..])));
    out.label(b"-", u64::from(server));
    out.label(b"-", LittleEndian::read_u64(body));
}

/// Appends a GTID of a list.
fn put_listed(gtid: &[u8], out: &mut Text)
    requires { 16 ≤ length gtid.now }
    ensures { Grows out.old out.new }
{
    out.unsigned(u64::from(LittleEndian::read_u32(gtid)));
    out.label(
        b"-",
        u64::from(LittleEndian::read_u32(&gtid[SERVER_OFFSET..])),
    );
    out.label(b"-", LittleEndian::read_u64(&gtid[NUMBER_OFFSET..]));
}

/// Appends a comma, if others are left.
fn put_separator(left: &[u8], out: &mut Text)
    ensures { Grows out.old out.new }
{
    if !left.is_empty() {
        out.push(b',');
    }
}

/// Appends the GTIDs in the body of a GTID_LIST_EVENT, with commas between them.
fn put_list(body: &[u8], out: &mut Text)
    ensures { Grows out.old out.new }
{
    let mut rest = body.get(FIRST_OFFSET..).unwrap_or(&[]);
    while rest.len() >= LISTED_LEN {
        let (gtid, after) = rest.split_at(LISTED_LEN);
        put_listed(gtid, out);
        put_separator(after, out);
        rest = after;
    }
}

/// Appends the table of compressed rows.
fn put_compressed_rows(reader: &EventStreamReader, body: &[u8], out: &mut Text)
    ensures { Grows out.old out.new }
{
    if body.len() < TABLE_ID_LEN {
        out.words("damaged");
        return;
    }
    let table_id = LittleEndian::read_u48(body);
    if let Some(map) = reader.get_tme(table_id) {
        put_table(map, out);
        out.words(", ");
    }
    out.label(b"table ", table_id);
}

/// Appends what one of MariaDB's own events says.
pub(crate) fn put_mariadb(
    reader: &EventStreamReader,
    mariadb_type: MariadbType,
    parts: &EventParts<'_>,
    out: &mut Text,
)
    ensures { Grows out.old out.new }
{
    match mariadb_type {
        MariadbType::GTID_EVENT => put_gtid(parts.header().server_id(), parts.body(), out),
        MariadbType::GTID_LIST_EVENT => put_list(parts.body(), out),
        MariadbType::ANNOTATE_ROWS_EVENT => put_statement(parts.body(), out),
        MariadbType::BINLOG_CHECKPOINT_EVENT => {
            out.name(parts.body().get(NAME_OFFSET..).unwrap_or(&[]));
        }
        MariadbType::START_ENCRYPTION_EVENT => out.words("encrypted from here on"),
        MariadbType::QUERY_COMPRESSED_EVENT => out.words("a compressed statement"),
        _ => put_compressed_rows(reader, parts.body(), out),
    }
}
