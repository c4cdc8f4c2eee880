//! Laws of the parts, each stated as the contract of a function that does nothing, and worked examples, computed from the
//! definitions.

ghost use Rattle.std.specs.Prelude.{◌≡◌, ◌↔◌, ◌⊎◌, ℕ, List, [], drop, Some, None, true, length, false, codes, nat_eq, ◌++◌, ◌<◌, ◌/◌, ◌^◌, Option};
ghost use Rattle.events_frames.specs.Descriptions.{Description, IsDescription};
ghost use Rattle.events_bodies.specs.Gtids.{GtidBody, IsGtid};
ghost use Rattle.rows_event_body.specs.EventShapes.{event_rows};
ghost use Rattle.rows_event_body.specs.RowsEvents.{RowsBody};
ghost use Rattle.rows_table_map.specs.TableMaps.{TableMap};
ghost use Rattle.feed_checks.specs.BodyReaders.{gtid_in, is_description_body};
ghost use Rattle.feed_transactions.specs.MappedRows.{plan_by, rows_result, rows_in, fault_in};
ghost use Rattle.feed_checks.specs.Kinds.{Kind, Rows, Begin, NextGtid, kinds, newest_map, since_begin, is_inside, is_waiting, waiting, Gtid};
ghost use Rattle.feed_transactions.specs.Transactions.{lines_at, Line, Transaction};
ghost use Rattle.binlog_feed.specs.RowsByMap.{AreRowsOf};
ghost use Rattle.std.specs.List.{starts_with};
ghost use Rattle.feed_checks.specs.EventFields.{Event, in_force};
ghost use Rattle.feed_transactions.specs.Rules.{rules, good, shown, Rules};
ghost use Rattle.feed_transactions.specs.TransactionTexts.{line_text, begin_line, commit_line};
ghost use Rattle.feed_transactions.specs.ReportLaws.{IsOpen, IsBetween, IsCompleteAtEvent, Each};
ghost use Rattle.feed_checks.specs.LogFormat.{events};
ghost use Rattle.feed_transactions.specs.Reports.{Report, file_events, file_transactions};
ghost use Rattle.feed_checks.specs.declared.verdict.Verdict.{Verdict};
ghost use Rattle.feed_replication.specs.Requests.{dump_request};
ghost use Rattle.feed_replication.specs.declared.format.PayloadFormat.{PayloadFormat as Format};
ghost use Rattle.feed_replication.specs.Positions.{past_at, is_between_transactions};
ghost use Rattle.feed_replication.specs.Serving.{answer};
ghost use Rattle.feed_replication.specs.RequestedPackets.{served};
ghost use Rattle.feed_replication.specs.ServerLaws.{ServesTheFile, StopsAtDamage, IsOfTheFile};
ghost use Rattle.wire_buf.specs.Encoding.{AreBytes};
ghost use Rattle.feed_replication.specs.Streams.{stream_transactions};
ghost use Rattle.feed_replication.specs.declared.step.Step.{Step};
ghost use Rattle.feed_replication.specs.AnswerLaws.{GivesTheRest};
ghost use Rattle.feed_replication.specs.Runs.{run};
ghost use Rattle.binlog_feed.specs.LastCommits.{EndsWithLastCommit};
ghost use Rattle.binlog_feed.specs.Lines.{IsLine, HasLines};
ghost use Rattle.binlog_feed.specs.LookingBack.{HasNewest, IsAnyGtid, IsMap, ends_transaction, takes_gtid, replaces_gtid, replaces_map};
ghost use Rattle.binlog_feed.specs.Repair.{TruncatedTextIsRepaired};
ghost use Rattle.binlog_feed.specs.Rests.{IsUndamagedUpTo, HasRest};

pub use crate::check_laws::{descriptions_are_read, parts_are_those_of_events};
pub use crate::kind_laws::bodies_are_read;
pub use crate::report_laws::events_are_longest;
pub use crate::run_laws::{broken_runs_are_whole, packets_of_a_prefix};
pub use crate::serving_laws::{lengths_of_packets, requests_are_computed, requests_are_packets};
pub use crate::stream_laws::payloads_are_of_their_events;
pub use crate::worked_reports::worked_reports;
pub use crate::worked_rules::{worked_checksums, worked_kinds, worked_rows};
pub use crate::worked_runs::{worked_acknowledged_runs, worked_followable, worked_runs};
pub use crate::worked_serving::{worked_damage, worked_dumps, worked_positions};
pub use crate::worked_streams::{
    worked_acknowledgements, worked_answers, worked_ends, worked_requests,
};
pub use feed_resume::laws::commit_lines_are_read;
pub use feed_resume::worked::worked_kept;
pub use feed_text::laws::{
    equal_quotes_are_of_equal_bytes, values_have_the_texts_of_cells,
    values_of_cells_have_their_texts, worked_quote, worked_times,
};
pub use feed_transactions::laws::{
    first_events_show_the_first_transactions, plans_are_those_of_maps,
    what_came_before_does_not_matter,
};

/// `gtid_in` reads a body exactly if it is in a GTID event's format, with the UUID and the number that the format states.
/// `is_description_body` accepts a body exactly if it is in a format description's format.
pub fn gtids_are_read()
    ensures gtid { (g : GtidBody) (body : List ℕ) → IsGtid g body [] → gtid_in body ≡ Some (g.sid, g.gno) }
    ensures taken { (body : List ℕ) (x : List ℕ × ℕ) → gtid_in body ≡ Some x → (g : GtidBody) × IsGtid g body [] }
    ensures description { (body : List ℕ) → (is_description_body body ≡ true) ↔ ((d : Description) × IsDescription d body []) }
{}

/// A rows event has one line for each of its rows. If it is no fault, its rows data is these rows up to its end, each of them one
/// image or a pair of images under the event's table map, and it has as many lines as rows.
pub fn a_line_for_each_row()
    ensures lines { (past : List Kind) (r : RowsBody) → length (lines_at past (Rows r)) ≡ length (rows_in (rows_result (newest_map past r.table_id) r)) }
    ensures pairs { (r : RowsBody) (t : TableMap) → fault_in (rows_result (Some t) r) ≡ None → length (rows_in (rows_result (Some t) r)) ≡ length (event_rows r (plan_by t)).items }
    ensures rows { (r : RowsBody) (t : TableMap) → fault_in (rows_result (Some t) r) ≡ None → (r.rows_data ≡ []) ⊎ AreRowsOf t r }
    ensures to_the_end { (r : RowsBody) (t : TableMap) → fault_in (rows_result (Some t) r) ≡ None → (event_rows r (plan_by t)).fault ≡ None }
{}

/// If a transaction is open, there is a begin with no begin, commit, rollback or description after it.
pub fn inside_is_an_open_begin()
    ensures { (past : List Kind) → is_inside past ≡ true → IsOpen past }
{}

/// Whether a transaction is open, which GTID waits, and which table map an id has, said of the events so far:
///
/// - A transaction is open exactly if some begin has no commit, rollback or format description after it.
/// - A GTID waits exactly if some GTID has no begin, statement or format description after it; it is the newest of these.
/// - The table map of an id is the newest with it that has no begin after it.
pub fn the_newest_event_decides()
    ensures inside { (past : List Kind) → (is_inside past ≡ true) ↔ HasNewest (λ k. k ≡ Begin) ends_transaction past }
    ensures waits { (past : List Kind) → (is_waiting past ≡ true) ↔ HasNewest IsAnyGtid takes_gtid past }
    ensures gtid { (past : List Kind) (g : Gtid) → (waiting past ≡ Some g) ↔ HasNewest (λ k. k ≡ NextGtid g) replaces_gtid past }
    ensures map { (past : List Kind) (id : ℕ) (m : TableMap) → (newest_map (since_begin past) id ≡ Some m) ↔ HasNewest (IsMap id m) (replaces_map id) past }
{}

/// Each shown transaction is complete at one of the events before the first fault: it reaches from a begin to the commit that
/// this event is, or it is the statement, outside a transaction, that this event is. None of its row and statement lines begins
/// with `begin ` or `commit `.
pub fn shown_transactions_are_whole()
    ensures whole { (f : List ℕ → ℕ) (l : List Event) → Each (IsCompleteAtEvent (good (rules f) l)) (shown (rules f) l) }
    ensures not_opening { (x : Line) → starts_with nat_eq (line_text x) (codes "begin ") ≡ false }
    ensures not_closing { (x : Line) → starts_with nat_eq (line_text x) (codes "commit ") ≡ false }
{}

/// A prefix of a binary log has a prefix of its transactions, under any rules.
pub fn report_of_a_prefix()
    ensures { (r : Rules) (b c : List ℕ) → (more : List Transaction) × (file_transactions r (b ++ c) ≡ file_transactions r b ++ more) }
{}

/// Each transaction of a report is a complete transaction of the events before the first fault.
pub fn reports_are_whole_transactions()
    ensures { (f : List ℕ → ℕ) (b : List ℕ) → Each (IsCompleteAtEvent (good (rules f) (file_events b))) (file_transactions (rules f) b) }
{}

/// If no event is damaged and the limits of the server and of its reader hold each payload, the answer from the start has the
/// text and the verdict of the file. This holds under any rules, plain or semi-synchronous.
pub fn serving_from_the_start_loses_nothing()
    ensures { (r : Rules) (format : Format) (limit reading : ℕ) (b : List ℕ) → ServesTheFile r format limit reading b }
{}

/// If serving from the start stops at damage, and both limits hold what is sent, then the answer has no closing packet and has
/// all of the file's transactions.
pub fn serving_stops_at_damage()
    ensures { (f : List ℕ → ℕ) (format : Format) (limit reading : ℕ) (b : List ℕ) (v : Verdict) → StopsAtDamage (rules f) format limit reading b v }
{}

/// Equal requests have equal positions, servers and names. A request with the file's own name is answered from its position; it
/// isn't rejected as another packet, for its flags or for its name.
pub fn requests_are_their_fields()
    ensures equal { (p q s t : ℕ) (m n : List ℕ) → p < 2 ^ 32 → q < 2 ^ 32 → s < 2 ^ 32 → t < 2 ^ 32 → dump_request p s m ≡ dump_request q t n
        → (p ≡ q) × (s ≡ t) × (m ≡ n) }
    ensures answered { (r : Rules) (format : Format) (limit position server : ℕ) (name b : List ℕ) → position < 2 ^ 32
        → served r format limit (dump_request position server name) name b ≡ answer r format limit b position }
    ensures of_the_file { (r : Rules) (format : Format) (limit position server : ℕ) (name b : List ℕ) → position < 2 ^ 32
        → IsOfTheFile (served r format limit (dump_request position server name) name b).outcome }
{}

/// From any position between transactions, before the first fault, one answer gives the rest of the report, and its verdict too
/// if the answer is complete. Condition: the limits of server and reader hold each payload.
pub fn one_answer_gives_the_rest()
    ensures { (f : List ℕ → ℕ) (format : Format) (limit reading : ℕ) (b : List ℕ) (position : ℕ) → GivesTheRest (rules f) format limit reading b position }
{}

/// From a position between transactions on, only the bytes after it and the format description in force there decide the rest of
/// the report: two logs with the same bytes after two such positions, and no fault before them, have the same rest of the text and
/// the same verdict, whatever table maps came before. A position between transactions, as a server finds it in the bytes, is one
/// where no transaction is open and no GTID waits.
pub fn equal_bytes_have_equal_rests()
    ensures rests { (f : List ℕ → ℕ) (b c : List ℕ) (p q : ℕ) → IsUndamagedUpTo (rules f) b p → IsUndamagedUpTo (rules f) c q
        → in_force (past_at b p) ≡ in_force (past_at c q) → drop p b ≡ drop q c → (rest : Report) × HasRest (rules f) b p rest × HasRest (rules f) c q rest }
    ensures between { (b : List ℕ) (position : ℕ) → is_between_transactions b position ≡ true → IsBetween (kinds (past_at b position)) }
{}

/// From any prefix of a report's text, `kept` keeps the complete transactions, and finds the position after the last of them.
/// What a follower prints that is started there, appended to them, is the report's text. Conditions: each event that shows
/// something has the position after it in its header, the follower gets the whole answer, and the limits hold each payload.
pub fn truncated_text_is_repaired()
    ensures { (f : List ℕ → ℕ) (format : Format) (limit reading : ℕ) (b : List ℕ) → TruncatedTextIsRepaired (rules f) format limit reading b }
{}

/// Each line of a transaction has one line feed, at its end: its opening line, its commit line, and each line between.
pub fn transactions_have_lines()
    ensures opening { (gtid : Option Gtid) → IsLine (begin_line gtid) }
    ensures commit { (position : ℕ) → IsLine (commit_line position) }
    ensures between { (f : List ℕ → ℕ) (l : List Event) → Each HasLines (shown (rules f) l) }
{}

/// The position of the last transaction is the number in the last commit line of the text, which ends with that line: of the
/// transactions that events show, that a stream of packets shows, and that a run over dropped connections prints. So a follower
/// asks again from the position in the last commit line that it printed.
///
/// Condition: the positions fit in 32 bits, as those in the headers of a list of bytes do.
pub fn the_last_commit_line_has_the_last_position()
    ensures events { (f : List ℕ → ℕ) (l : List Event) → Each (λ t. t.position < 2 ^ 32) (shown (rules f) l) → EndsWithLastCommit (shown (rules f) l) }
    ensures stream { (f : List ℕ → ℕ) (format : Format) (limit : ℕ) (s : List ℕ) → AreBytes s → EndsWithLastCommit (stream_transactions (rules f) format limit s) }
    ensures run { (f : List ℕ → ℕ) (format : Format) (b : List ℕ) (steps : List Step) → AreBytes b
        → EndsWithLastCommit (run (rules f) format b steps).transactions }
{}
