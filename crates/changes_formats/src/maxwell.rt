//! The lines of Maxwell.

ghost use Rattle.std.specs.Prelude.{◌≡◌, ◌++◌, IfErr, OnOk};
ghost use Rattle.feed_text.specs.Buffers.{text_in};
ghost use Rattle.changes_statements.specs.NoStatements.{IsMemoryOr};
ghost use Rattle.changes_formats.specs.FormatLineTexts.{maxwell_end};
ghost use Rattle.changes_formats.specs.RefusedCells.{IsUnprinted};

use crate::images::{Taken, newest_of, put_image, put_key};
use crate::origins::{LineOrigin, LineRow, put_number_member, put_place};
use crate::values::Buffers;
use changes_commands::Format;
use changes_origins::put_gtid;
use changes_statements::{NoStatement, RowChange};
use feed_text::TextBuffer;
use std::alloc::{AllocError, Global};

/// Appends what a line says of its transaction and its event.
fn put_origin(origin: LineOrigin<'_>, out: &mut TextBuffer<Global>) -> Result<(), AllocError> {
    put_number_member(b",\"ts\":", u64::from(origin.header.timestamp()), out)?;
    if let Some(xid) = origin.xid {
        put_number_member(b",\"xid\":", xid, out)?;
    }
    out.put_text(b",\"position\":")?;
    put_place(origin, out)?;
    if origin.gtid.is_some() {
        out.put_text(b",\"gtid\":")?;
        put_gtid(origin.gtid, out)?;
    }
    put_number_member(
        b",\"server_id\":",
        u64::from(origin.header.server_id()),
        out,
    )?;
    if let Some(thread_id) = origin.thread_id {
        put_number_member(b",\"thread_id\":", thread_id, out)?;
    }
    Ok(())
}

/// Appends the values and the names of the columns of the key, if the table has one.
fn put_keys(
    row: LineRow<'_, '_, '_>,
    buffers: &mut Buffers,
    out: &mut TextBuffer<Global>,
) -> Result<(), NoStatement>
    ensures { IfErr result (IsMemoryOr IsUnprinted) }
{
    if row.table.key.is_empty() {
        return Ok(());
    }
    out.put_text(b",\"primary_key\":")?;
    put_key(
        Format::Maxwell,
        row.table,
        newest_of(row.change),
        buffers,
        out,
    )?;
    out.put_text(b",\"primary_key_columns\":")?;
    out.put_text(&row.table.key_names)?;
    Ok(())
}

/// Appends the line of a row up to its values: what follows is its place in the transaction.
pub(crate) fn put_row(
    origin: LineOrigin<'_>,
    row: LineRow<'_, '_, '_>,
    buffers: &mut Buffers,
    out: &mut TextBuffer<Global>,
) -> Result<(), NoStatement>
    ensures { IfErr result (IsMemoryOr IsUnprinted) }
{
    out.put_text(b"{\"database\":")?;
    out.put_text(&row.table.database)?;
    out.put_text(b",\"table\":")?;
    out.put_text(&row.table.name)?;
    out.put_text(match row.change {
        RowChange::Inserted(_) => b",\"type\":\"insert\"".as_slice(),
        RowChange::Updated(_, _) => b",\"type\":\"update\"",
        RowChange::Deleted(_) => b",\"type\":\"delete\"",
    })?;
    put_origin(origin, out)?;
    put_keys(row, buffers, out)?;
    out.put_text(b",\"data\":")?;
    let format = Format::Maxwell;
    put_image(
        format,
        row.table,
        newest_of(row.change),
        Taken::All,
        buffers,
        out,
    )?;
    if let RowChange::Updated(before, after) = row.change {
        out.put_text(b",\"old\":")?;
        put_image(
            format,
            row.table,
            before,
            Taken::Unlike(after),
            buffers,
            out,
        )?;
    }
    Ok(())
}

/// Appends the end of a line: that it is the last of its transaction, or its number there, from 0.
pub(crate) fn put_end(
    is_last: bool,
    number: u64,
    out: &mut TextBuffer<Global>,
) -> Result<(), AllocError>
    ensures { OnOk result (text_in out.new ≡ text_in out.old ++ maxwell_end is_last number) }
{
    if is_last {
        return out.put_text(b",\"commit\":true}\n");
    }
    put_number_member(b",\"xoffset\":", number, out)?;
    out.put_text(b"}\n")
}
