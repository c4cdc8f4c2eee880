//! The events of MySQL's binary logs: headers, bodies, format descriptions, and the readers of streams and files.
//!
//! It re-exports its parts, but for what only they and the feed call (the places of a header's fields, and their readers in a whole
//! event), and has laws of the parts' readers and writers. `events_frames` has what every event has, `events_bodies` the bodies
//! without rows, and `events_owned` bodies of any type, owned events and files.
#![tactic(auto)]

mod frame_laws;
pub mod laws;
mod reader_laws;

pub use events_bodies::{
    AnonymousGtidEvent, BeginLoadQueryEvent, ExecuteLoadQueryEvent, GtidEvent, IncidentEvent,
    IntvarEvent, QueryEvent, RandEvent, RowsQueryEvent, StatusVar, StatusVarVal, StatusVars,
    StatusVarsIterator, UserVarEvent,
};
pub use events_frames::{
    BinlogCtx, BinlogEvent, BinlogEventFooter, BinlogEventHeader, BinlogFileHeader, BinlogStruct,
    EventError, EventParts, EventSource, EventStreamReader, FormatDescriptionEvent, NextFrame,
    QueryTexts, RotateEvent, XidEvent, calc_checksum, gather, next_frame, read_body, read_struct,
};
pub use events_owned::{
    BinlogFile, BodyFormat, DeleteRows, DeleteRowsEvent, DeleteRowsEventV1, DeleteRowsV1, Event,
    EventData, HasAfter, HasBefore, PartialUpdateRows, PartialUpdateRowsEvent, PostHeaderLens,
    ReadEvents, RowsEventData, RowsEventOf, RowsKind, UpdateRows, UpdateRowsEvent,
    UpdateRowsEventV1, UpdateRowsV1, WriteRows, WriteRowsEvent, WriteRowsEventV1, WriteRowsV1,
    write_event,
};
