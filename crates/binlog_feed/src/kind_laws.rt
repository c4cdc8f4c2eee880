//! Laws, each stated as the contract of a function that does nothing.

ghost use Rattle.std.specs.Prelude.{ℕ};
ghost use Rattle.rows_table_map.specs.TableMaps.{IsTableMap};
ghost use Rattle.rows_event_body.specs.RowsEvents.{IsRowsEvent};
ghost use Rattle.rows_event_body.specs.declared.rows_event_ctx.RowsEventCtx.{RowsEventCtx};
ghost use Rattle.events_frames.specs.RotateAndXid.{IsRotate, IsXid};
ghost use Rattle.events_frames.specs.Queries.{IsQuery};
ghost use Rattle.feed_checks.specs.Readers.{IsBodyOf};
ghost use Rattle.feed_checks.specs.BodyReaders.{query_in, rotate_in, xid_in, table_map_in, rows_event_in};

/// Each `.._in` function reads a body exactly if the body is in its type's format, and returns the value that the format states.
pub fn bodies_are_read()
    ensures query { IsBodyOf IsQuery query_in }
    ensures rotate { IsBodyOf IsRotate rotate_in }
    ensures xid { IsBodyOf IsXid xid_in }
    ensures table_map { (post_header : ℕ) → IsBodyOf (IsTableMap post_header) (table_map_in post_header) }
    ensures rows_event { (ctx : RowsEventCtx) → IsBodyOf (IsRowsEvent ctx) (rows_event_in ctx) }
{}
