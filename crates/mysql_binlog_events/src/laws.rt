//! The laws of the parts and of the whole. Each is a function without code; its contract is the law.

ghost use Rattle.std.specs.Prelude.{◌≡◌, [], ℕ, List};
ghost use Rattle.rows_constants.specs.declared.event_type.EventType.TheVariants.{TABLE_MAP_EVENT};
ghost use Rattle.rows_table_map.specs.TableMaps.{IsTableMap, table_map_encoded, written_map};
ghost use Rattle.rows_event_body.specs.RowsEvents.{IsRowsEvent};
ghost use Rattle.rows_event_body.specs.declared.rows_event_ctx.RowsEventCtx.{RowsEventCtx as RowsContext};
ghost use Rattle.events_frames.specs.Descriptions.{IsDescription, post_header_length};
ghost use Rattle.events_bodies.specs.FixedBodies.{IsRand, rand_encoded, IsIntvar, intvar_encoded, IsBeginLoadQuery, begin_load_query_encoded, IsIncident, incident_encoded, written_incident, IsRowsQuery, rows_query_encoded};
ghost use Rattle.events_frames.specs.RotateAndXid.{IsRotate, rotate_encoded, IsXid, xid_encoded};
ghost use Rattle.events_bodies.specs.UserVars.{IsUserVar, user_var_encoded, written_user_var};
ghost use Rattle.events_frames.specs.Queries.{IsQuery, query_encoded, written_query};
ghost use Rattle.events_bodies.specs.LoadQueries.{IsLoadQuery, load_query_encoded, written_load_query};
ghost use Rattle.events_bodies.specs.Gtids.{IsGtid, gtid_encoded};
ghost use Rattle.std.specs.Fn.{FnReturnsAt};
ghost use Rattle.mysql_binlog_events.specs.DataAgain.{IsDataSameAgain};
ghost use Rattle.events_frames.specs.LogReadings.{ReaderState, Change, first_reading};
ghost use Rattle.mysql_binlog_events.specs.Newest.{AcceptsAll, newest_described, newest_table_map};
ghost use Rattle.mysql_binlog_events.specs.WrittenAgain.{IsWrittenBack, IsReadWithSum, IsFileWrittenBack};
ghost use Rattle.mysql_binlog_events.specs.ReadAgain.{IsReadAsEncoded, IsReadAgain, IsSameAgain, IsDescriptionReadAgain, IsDescriptionSameAgain, IsRowsReadAgain, IsRowsSameAgain, NothingFollows, AnythingFollows};

pub use crate::frame_laws::{
    descriptions_are_written_whole, equal_descriptions_say_the_same, equal_headers_say_the_same,
    events_are_split, parts_are_unique, worked_footers, worked_frames, worked_header,
    worked_post_header_lengths, written_descriptions_are_read_back,
};
pub use crate::reader_laws::{
    accepted_events_have_no_error, events_are_accepted_in_one_way, table_maps_change_no_reading,
};
pub use events_bodies::gtid_laws::{
    equal_gtids_say_the_same, gtids_are_written_back, worked_fields, worked_gtid,
};
pub use events_bodies::laws::{
    equal_begin_load_queries_say_the_same, equal_incidents_say_the_same,
    equal_intvars_say_the_same, equal_rands_say_the_same, equal_rotates_say_the_same,
    equal_rows_queries_say_the_same, equal_user_vars_say_the_same, equal_xids_say_the_same,
    incidents_are_written_whole,
};
pub use events_bodies::statement_laws::{
    equal_load_queries_say_the_same, equal_queries_say_the_same, equal_status_vars_say_the_same,
    equal_values_say_the_same, equal_variables_are_the_same, load_queries_are_written_whole,
    queries_are_written_whole, variables_are_read, worked_names, worked_queries, worked_variables,
};
pub use events_owned::laws::{
    equal_bodies_say_the_same, files_end_once, files_give_few_items,
    whole_events_fail_only_as_too_short,
};
pub use events_owned::rows_laws::{
    default_contexts_are_those_of_writing, equal_data_say_the_same, equal_events_say_the_same,
    images_are_those_of_the_kind, types_are_read_back, worked_contexts,
};

/// Bytes that begin with the encoding of a body are read as this body.
pub fn encoded_bodies_are_read()
    ensures rotate { IsReadAsEncoded IsRotate }
    ensures xid { IsReadAsEncoded IsXid }
    ensures rand { IsReadAsEncoded IsRand }
    ensures intvar { IsReadAsEncoded IsIntvar }
    ensures begin_load_query { IsReadAsEncoded IsBeginLoadQuery }
    ensures incident { IsReadAsEncoded IsIncident }
    ensures rows_query { IsReadAsEncoded IsRowsQuery }
    ensures user_var { IsReadAsEncoded IsUserVar }
    ensures description { IsReadAsEncoded IsDescription }
    ensures query { IsReadAsEncoded IsQuery }
    ensures load_query { IsReadAsEncoded IsLoadQuery }
    ensures gtid { IsReadAsEncoded IsGtid }
    ensures table_map { (post_header : ℕ) → IsReadAsEncoded (IsTableMap post_header) }
    ensures rows { (ctx : RowsContext) → IsReadAsEncoded (IsRowsEvent ctx) }
{}

/// What is written for a body is read again as this body, if all bytes are the body and the post-header lengths are those that
/// servers use today. The footer of a format description isn't written with its body.
pub fn written_bodies_are_read_again()
    ensures rotate { IsReadAgain rotate_encoded IsRotate NothingFollows }
    ensures xid { IsReadAgain xid_encoded IsXid AnythingFollows }
    ensures rand { IsReadAgain rand_encoded IsRand AnythingFollows }
    ensures intvar { IsReadAgain intvar_encoded IsIntvar AnythingFollows }
    ensures begin_load_query { IsReadAgain begin_load_query_encoded IsBeginLoadQuery NothingFollows }
    ensures incident { IsReadAgain incident_encoded IsIncident AnythingFollows }
    ensures rows_query { IsReadAgain rows_query_encoded IsRowsQuery NothingFollows }
    ensures user_var { IsReadAgain user_var_encoded IsUserVar NothingFollows }
    ensures description { IsDescriptionReadAgain }
    ensures query { IsReadAgain query_encoded IsQuery NothingFollows }
    ensures load_query { IsReadAgain load_query_encoded IsLoadQuery NothingFollows }
    ensures gtid { IsReadAgain gtid_encoded IsGtid NothingFollows }
    ensures table_map { IsReadAgain table_map_encoded (IsTableMap (post_header_length [] TABLE_MAP_EVENT)) NothingFollows }
    ensures rows { IsRowsReadAgain }
{}

/// A body that was read, written and read again is the same body, even for types whose long fields are truncated: what was read
/// is written completely. Bodies of the other types are never truncated.
pub fn read_bodies_are_the_same_again()
    ensures incident { IsSameAgain written_incident incident_encoded IsIncident AnythingFollows }
    ensures user_var { IsSameAgain written_user_var user_var_encoded IsUserVar NothingFollows }
    ensures description { IsDescriptionSameAgain }
    ensures query { IsSameAgain written_query query_encoded IsQuery NothingFollows }
    ensures load_query { IsSameAgain written_load_query load_query_encoded IsLoadQuery NothingFollows }
    ensures table_map { IsSameAgain written_map table_map_encoded (IsTableMap (post_header_length [] TABLE_MAP_EVENT)) NothingFollows }
    ensures rows { IsRowsSameAgain }
{}

/// An event that was read, and whose checksum is the function's result for it, is written as the same bytes. So reading the
/// written bytes gives the same event.
pub fn events_are_written_back<F: Fn(&[u8]) -> u32>()
    ensures { (checksum : F) → IsWrittenBack (FnReturnsAt F.Fn checksum) }
{}

/// What is written for an event that was read is read again with the same parts, except that its checksum, if it has one, is the
/// function's result for it.
pub fn written_events_are_read_again<F: Fn(&[u8]) -> u32>()
    ensures { (checksum : F) → IsReadWithSum (FnReturnsAt F.Fn checksum) }
{}

/// The events of a file, each written, are the bytes of the file after its magic number, as far as events were returned; if the
/// checksum of each, where it has one, is the function's result for it.
pub fn files_are_written_back<F: Fn(&[u8]) -> u32>()
    ensures { (checksum : F) → IsFileWrittenBack (FnReturnsAt F.Fn checksum) }
{}

/// The body of an event of any type that was read, written and read again is the same, with the post-header lengths that servers
/// use today. A format description has no footer then, as when it was read.
pub fn read_data_are_the_same_again()
    ensures { IsDataSameAgain }
{}

/// After all events that a reader accepted, the format description in force is the newest, or the first one if there was none;
/// and the table map of a table id is the newest with this id, unless another file began after it.
pub fn readers_know_the_newest()
    ensures description { (first r : ReaderState) (said : List Change) → AcceptsAll first said r → r.description ≡ newest_described first.description said }
    ensures table_map { (version id : ℕ) (r : ReaderState) (said : List Change) → AcceptsAll (first_reading version) said r → r.table_map id ≡ newest_table_map id said }
{}
