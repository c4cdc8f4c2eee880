//! The flat messages of Canal, with one row each.

ghost use Rattle.std.specs.Prelude.{IfErr};
ghost use Rattle.changes_statements.specs.NoStatements.{IsMemoryOr};
ghost use Rattle.changes_formats.specs.RefusedCells.{IsUnprinted};

use crate::images::{Taken, newest_of, put_image};
use crate::origins::{LineOrigin, LineRow, put_number_member};
use crate::values::Buffers;
use changes_commands::Format;
use changes_origins::put_gtid;
use changes_statements::{NoStatement, RowChange};
use feed_text::TextBuffer;
use std::alloc::Global;

/// Appends the old values of the columns that an update changes, as a list with one object; null of another change.
fn put_old(
    row: LineRow<'_, '_, '_>,
    buffers: &mut Buffers,
    out: &mut TextBuffer<Global>,
) -> Result<(), NoStatement>
    ensures { IfErr result (IsMemoryOr IsUnprinted) }
{
    let RowChange::Updated(before, after) = row.change else {
        out.put_text(b"null")?;
        return Ok(());
    };
    out.put(b'[')?;
    put_image(
        Format::Canal,
        row.table,
        before,
        Taken::Unlike(after),
        buffers,
        out,
    )?;
    out.put(b']')?;
    Ok(())
}

/// Appends the line of a row.
pub(crate) fn put_row(
    origin: LineOrigin<'_>,
    row: LineRow<'_, '_, '_>,
    buffers: &mut Buffers,
    out: &mut TextBuffer<Global>,
) -> Result<(), NoStatement>
    ensures { IfErr result (IsMemoryOr IsUnprinted) }
{
    let table = row.table;
    out.put_text(b"{\"data\":[")?;
    put_image(
        Format::Canal,
        table,
        newest_of(row.change),
        Taken::All,
        buffers,
        out,
    )?;
    out.put_text(b"],\"database\":")?;
    out.put_text(&table.database)?;
    put_number_member(b",\"es\":", origin.millis(), out)?;
    out.put_text(b",\"gtid\":")?;
    put_gtid(origin.gtid, out)?;
    put_number_member(b",\"id\":", origin.transaction, out)?;
    out.put_text(b",\"isDdl\":false,\"mysqlType\":")?;
    out.put_text(&table.type_names)?;
    out.put_text(b",\"old\":")?;
    put_old(row, buffers, out)?;
    out.put_text(b",\"pkNames\":")?;
    out.put_text(&table.key_names)?;
    out.put_text(b",\"sql\":\"\",\"sqlType\":")?;
    out.put_text(&table.type_numbers)?;
    out.put_text(b",\"table\":")?;
    out.put_text(&table.name)?;
    put_number_member(b",\"ts\":", origin.millis(), out)?;
    out.put_text(match row.change {
        RowChange::Inserted(_) => b",\"type\":\"INSERT\"}\n".as_slice(),
        RowChange::Updated(_, _) => b",\"type\":\"UPDATE\"}\n",
        RowChange::Deleted(_) => b",\"type\":\"DELETE\"}\n",
    })?;
    Ok(())
}
