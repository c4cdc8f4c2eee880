//! What the bodies of events say, in brief.

ghost use Rattle.std.specs.Prelude.{◌≡◌, false, option_map};
ghost use Rattle.events_frames.specs.EventParts.{event_parts_of};
ghost use Rattle.events_frames.specs.ReadingViews.{reading_of};
ghost use Rattle.feed_checks.specs.Kinds.{kind_by};
ghost use Rattle.feed_checks.specs.KindViews.{kind_view};
ghost use Rattle.rows_table_map.specs.MapViews.{map_of};
ghost use Rattle.changes_commands.specs.EventLines.{is_named, IsReadAs};
ghost use Rattle.changes_commands.specs.GrowingTexts.{Grows};

use crate::brief_mariadb::put_mariadb;
use crate::events::Names;
use crate::text::Text;
use events_frames::{
    BinlogEventHeader, EventError, EventParts, EventStreamReader, QueryTexts, RotateEvent,
    read_body,
};
use events_replaced::{MariadbType, read_prepared, xid_text};
use feed_checks::{EventKind, Verdict};
use rows_constants::EventType;
use rows_event_body::RowsEvent;
use rows_table_map::TableMapEvent;

/// How many bytes of a statement are shown, at most.
const SHOWN_OF_STATEMENT: usize = 60;

/// Appends the beginning of a statement, as a string.
pub(crate) fn put_statement(statement: &[u8], out: &mut Text)
    ensures { Grows out.old out.new }
{
    match statement.get(..SHOWN_OF_STATEMENT) {
        Some(first) => {
            out.name(first);
            out.words("..");
        }
        None => out.name(statement),
    }
}

/// Appends the names of a table.
pub(crate) fn put_table(map: &TableMapEvent<'_>, out: &mut Text)
    ensures { Grows out.old out.new }
{
    out.name(map.database_name_raw());
    out.push(b'.');
    out.name(map.table_name_raw());
}

/// Appends the names of a table, its id and how many columns it has.
fn put_map(map: &TableMapEvent<'_>, out: &mut Text)
    ensures { Grows out.old out.new }
{
    put_table(map, out);
    out.label(b", table ", map.table_id());
    out.label(b", columns ", map.columns_count());
}

/// Appends the table of rows.
fn put_rows(reader: &EventStreamReader, rows: &RowsEvent<'_>, out: &mut Text)
    ensures { Grows out.old out.new }
{
    if let Some(map) = reader.get_tme(rows.table_id()) {
        put_table(map, out);
        out.words(", ");
    }
    out.label(b"table ", rows.table_id());
}

/// Appends the statement that an XA_PREPARE_LOG_EVENT stands for, whose bytes before its checksum these are.
#[tactic(auto, using(crate::proofs::GrowingLemmas::grows_by))]
fn put_prepared(event: &[u8], out: &mut Text)
    ensures { Grows out.old out.new }
{
    let Some(prepared) = read_prepared(event) else {
        out.words("damaged");
        return;
    };
    let xid = xid_text(
        out.alloc(),
        prepared.format,
        prepared.global,
        prepared.branch,
    );
    let Ok(xid) = xid else {
        out.run_short();
        return;
    };
    let (before, after) = if prepared.is_one_phase {
        ("\"XA COMMIT ", " ONE PHASE\"")
    } else {
        ("\"XA PREPARE ", "\"")
    };
    out.words(before);
    out.put(&xid);
    out.words(after);
}

/// Appends what an event says that isn't shown by itself: an XA statement, or a transaction that is prepared.
fn put_unshown(event: &[u8], parts: &EventParts<'_>, out: &mut Text)
    ensures { Grows out.old out.new }
{
    let number = parts.header().event_type_raw();
    if number == EventType::XA_PREPARE_LOG_EVENT as u8 {
        let len = BinlogEventHeader::LEN.saturating_add(parts.body().len());
        put_prepared(event.get(..len).unwrap_or(event), out);
        return;
    }
    match QueryTexts::read(parts.body()) {
        Some(texts) if number == EventType::QUERY_EVENT as u8 => out.name(texts.query),
        _ => out.words("not shown"),
    }
}

/// Appends what an event of this kind says, unless it isn't shown by itself.
#[tactic(auto, using(crate::proofs::GrowingLemmas::grows_by))]
fn put_kind(reader: &EventStreamReader, kind: &EventKind<'_>, out: &mut Text)
    ensures { Grows out.old out.new }
{
    match kind {
        EventKind::Format => out.name(reader.get_fde().server_version_raw()),
        EventKind::NextGtid(gtid) => out.gtid(Some(*gtid)),
        EventKind::Begin => out.words("BEGIN"),
        EventKind::Commit => out.words("COMMIT"),
        EventKind::Rollback => out.words("ROLLBACK"),
        EventKind::Statement(texts) => put_statement(texts.query, out),
        EventKind::Map(map) => put_map(map, out),
        EventKind::Rows(rows) => put_rows(reader, rows, out),
        EventKind::RealRotate | EventKind::Ignored => {}
        EventKind::Unshown => {}
        EventKind::Unknown => out.words("unknown"),
    }
}

/// Whether the events of a table are listed.
fn takes_map<N: Names>(names: &N, map: &TableMapEvent<'_>) -> bool
    ensures { result ≡ N.tables names.now (map_of map.now).database (map_of map.now).table }
{
    names.takes_table(map.database_name_raw(), map.table_name_raw())
}

/// Whether an event of this kind is listed: a table map and rows by their table, a statement by its schema, others always.
fn is_taken<N: Names>(reader: &EventStreamReader, names: &N, kind: &EventKind<'_>) -> bool
    ensures { result ≡ is_named (N.databases names.now) (N.tables names.now) (reading_of reader.now) (kind_view kind.now) }
{
    match kind {
        EventKind::Map(map) => takes_map(names, map),
        EventKind::Rows(rows) => match reader.get_tme(rows.table_id()) {
            Some(map) => takes_map(names, map),
            None => true,
        },
        EventKind::Statement(texts) => names.takes_database(texts.schema),
        _ => true,
    }
}

/// Appends where the log goes on.
#[tactic(auto, using(crate::proofs::GrowingLemmas::grows_by))]
fn put_rotate(body: &[u8], out: &mut Text)
    ensures { Grows out.old out.new }
{
    match read_body::<RotateEvent<'_>>(out.alloc(), (), body) {
        Ok(rotate) => {
            out.name(rotate.name_raw());
            out.label(b" at ", rotate.position());
        }
        Err(_) => out.words("damaged"),
    }
}

/// Appends what an event with these parts says. Returns whether it is listed.
#[tactic(auto, using(crate::proofs::GrowingLemmas::grows_by))]
pub(crate) fn put_parts<N: Names>(
    reader: &EventStreamReader,
    names: &N,
    event: &[u8],
    parts: &EventParts<'_>,
    out: &mut Text,
) -> bool
    ensures text { Grows out.old out.new }
    ensures named { out.new.is_short ≡ false → result ≡ is_named (N.databases names.now) (N.tables names.now) (reading_of reader.now) (kind_by (reading_of reader.now).description (event_parts_of parts.now)) }
{
    if parts.header().event_type_raw() == EventType::ROTATE_EVENT as u8 {
        put_rotate(parts.body(), out);
        return true;
    }
    if let Some(mariadb_type) = MariadbType::of(parts.header().event_type_raw()) {
        put_mariadb(reader, mariadb_type, parts, out);
        return true;
    }
    match EventKind::of(out.alloc(), reader.get_fde(), parts) {
        Ok(EventKind::Unshown) => {
            put_unshown(event, parts, out);
            true
        }
        Ok(kind) => {
            put_kind(reader, &kind, out);
            let is_taken = is_taken(reader, names, &kind);
            drop(kind);
            is_taken
        }
        Err(Verdict::Memory) => {
            out.run_short();
            true
        }
        Err(_) => {
            out.words("damaged");
            true
        }
    }
}

/// Appends what an event says. The reader has accepted the events before it. Returns whether it is listed; each event that can't be
/// read is.
#[tactic(auto, using(crate::proofs::GrowingLemmas::grows_by))]
pub(crate) fn put_brief<N: Names>(
    reader: &mut EventStreamReader,
    names: &N,
    event: &[u8],
    out: &mut Text,
) -> bool
    ensures text { Grows out.old out.new }
    ensures read { out.new.is_short ≡ false → IsReadAs (N.databases names.now) (N.tables names.now) (reading_of reader.old) (reading_of reader.new) event.now result }
{
    match reader.read_slice(event) {
        Ok(parts) => put_parts(reader, names, event, &parts, out),
        Err(EventError::Memory) => {
            out.run_short();
            true
        }
        Err(_) => {
            out.words("damaged");
            true
        }
    }
}
