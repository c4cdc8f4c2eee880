//! The values of Debezium's messages, without their schemas.

ghost use Rattle.std.specs.Prelude.{◌≡◌, IfErr};
ghost use Rattle.changes_statements.specs.NoStatements.{IsMemoryOr};
ghost use Rattle.changes_formats.specs.RefusedCells.{IsUnprinted, after_of as image_after, before_of as image_before};

use crate::images::{Taken, put_image};
use crate::origins::{LineOrigin, LineRow, put_number_member};
use crate::strings::put_string;
use crate::tables::FormatTable;
use crate::values::Buffers;
use changes_commands::{Format, PROGRAM_VERSION};
use changes_origins::put_gtid;
use changes_statements::{NoStatement, RowCells, RowChange};
use feed_text::TextBuffer;
use std::alloc::{AllocError, Global};

/// The image before a change, if there is one.
fn before_of<'c, 'a>(change: RowChange<&'c RowCells<'a>>) -> Option<&'c RowCells<'a>>
    ensures { result ≡ image_before change.entry }
{
    match change {
        RowChange::Inserted(_) => None,
        RowChange::Updated(before, _) | RowChange::Deleted(before) => Some(before),
    }
}

/// The image after a change, if there is one.
fn after_of<'c, 'a>(change: RowChange<&'c RowCells<'a>>) -> Option<&'c RowCells<'a>>
    ensures { result ≡ image_after change.entry }
{
    match change {
        RowChange::Inserted(after) | RowChange::Updated(_, after) => Some(after),
        RowChange::Deleted(_) => None,
    }
}

/// The letter of an operation.
fn operation_of(change: RowChange<&RowCells<'_>>) -> u8 {
    match change {
        RowChange::Inserted(_) => b'c',
        RowChange::Updated(_, _) => b'u',
        RowChange::Deleted(_) => b'd',
    }
}

/// Appends an image of a row; null without one.
fn put_state(
    table: &FormatTable,
    image: Option<&RowCells<'_>>,
    buffers: &mut Buffers,
    out: &mut TextBuffer<Global>,
) -> Result<(), NoStatement>
    ensures { IfErr result (IsMemoryOr IsUnprinted) }
{
    match image {
        Some(cells) => put_image(Format::Debezium, table, cells, Taken::All, buffers, out),
        None => Ok(out.put_text(b"null")?),
    }
}

/// Appends where a row comes from.
fn put_source(
    origin: LineOrigin<'_>,
    row: LineRow<'_, '_, '_>,
    out: &mut TextBuffer<Global>,
) -> Result<(), AllocError> {
    out.put_text(b"{\"version\":\"")?;
    out.put_text(PROGRAM_VERSION.as_bytes())?;
    out.put_text(b"\",\"connector\":\"mysql\",\"name\":\"binlog-changes\"")?;
    put_number_member(b",\"ts_ms\":", origin.millis(), out)?;
    out.put_text(b",\"snapshot\":\"false\",\"db\":")?;
    out.put_text(&row.table.database)?;
    out.put_text(b",\"sequence\":null,\"table\":")?;
    out.put_text(&row.table.name)?;
    put_number_member(
        b",\"server_id\":",
        u64::from(origin.header.server_id()),
        out,
    )?;
    out.put_text(b",\"gtid\":")?;
    put_gtid(origin.gtid, out)?;
    out.put_text(b",\"file\":")?;
    put_string(origin.file, out)?;
    put_number_member(b",\"pos\":", u64::from(origin.start()), out)?;
    put_number_member(b",\"row\":", row.number, out)?;
    match origin.thread_id {
        Some(thread_id) => put_number_member(b",\"thread\":", thread_id, out)?,
        None => out.put_text(b",\"thread\":null")?,
    }
    out.put_text(b",\"query\":null}")
}

/// Appends the line of a row.
pub(crate) fn put_row(
    origin: LineOrigin<'_>,
    row: LineRow<'_, '_, '_>,
    buffers: &mut Buffers,
    out: &mut TextBuffer<Global>,
) -> Result<(), NoStatement>
    ensures { IfErr result (IsMemoryOr IsUnprinted) }
{
    out.put_text(b"{\"before\":")?;
    put_state(row.table, before_of(row.change), buffers, out)?;
    out.put_text(b",\"after\":")?;
    put_state(row.table, after_of(row.change), buffers, out)?;
    out.put_text(b",\"source\":")?;
    put_source(origin, row, out)?;
    out.put_text(b",\"op\":\"")?;
    out.put(operation_of(row.change))?;
    put_number_member(b"\",\"ts_ms\":", origin.millis(), out)?;
    out.put_text(b",\"transaction\":null}\n")?;
    Ok(())
}
