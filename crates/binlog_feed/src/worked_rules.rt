//! Worked examples, computed from the definitions: lists of events, the text that they show and their first fault.

ghost use Rattle.std.specs.Prelude.{◌≡◌, [], ◌∷◌, ◌++◌, codes, Some, None};
ghost use Rattle.feed_checks.specs.declared.verdict.Verdict.TheVariants as v;
ghost use Rattle.binlog_feed.specs.WorkedEvents.{shown_of, shows, zeros, flagged_event, event, query_event, begin_event, map_of_types, map_event, rows_event, write_event, write_event_of_table_8, xid_event, commit_event, gtid_event, description_event, with_checksum, broken_map, checksummed_with, one_insert_events, transaction, insert_text, one_insert_text};

/// Transactions of rows.
pub fn worked_rows()
    ensures one_insert { shown_of one_insert_events ≡ shows one_insert_text None }
    ensures unfinished_transaction { shown_of (begin_event ∷ map_event ∷ write_event ∷ []) ≡ shows [] None }
    ensures unknown_table_id { shown_of (begin_event ∷ map_event ∷ write_event_of_table_8 ∷ commit_event ∷ []) ≡ shows [] (Some v.NoTableMap) }
    ensures rows_after_the_commit { shown_of (one_insert_events ++ write_event ∷ commit_event ∷ []) ≡ shows one_insert_text (Some v.Outside) }
    ensures rows_without_columns { shown_of (begin_event ∷ map_of_types 77 [] [] ∷ rows_event 30 108 7 (0 ∷ 5 ∷ []) ∷ xid_event 135 ∷ []) ≡ shows [] (Some v.Row) }
    ensures null_cell { shown_of (begin_event ∷ map_event ∷ rows_event 30 111 7 (1 ∷ 1 ∷ 1 ∷ []) ∷ xid_event 138 ∷ []) ≡ shows (transaction (codes "-") (codes "insert 'd' 't' 0=NULL") (codes "138")) None }
    ensures update_row { shown_of (begin_event ∷ map_event ∷ rows_event 31 121 7 (1 ∷ 1 ∷ 1 ∷ 0 ∷ 5 ∷ 0 ∷ 0 ∷ 0 ∷ 0 ∷ 6 ∷ 0 ∷ 0 ∷ 0 ∷ []) ∷ xid_event 148 ∷ []) ≡ shows (transaction (codes "-") (codes "update 'd' 't' 0=5 to 0=6") (codes "148")) None }
    ensures map_replaced_within_a_transaction { shown_of (begin_event ∷ map_event ∷ write_event ∷ map_of_types 153 (3 ∷ 3 ∷ []) (3 ∷ []) ∷ rows_event 30 193 7 (2 ∷ 3 ∷ 0 ∷ 5 ∷ 0 ∷ 0 ∷ 0 ∷ 6 ∷ 0 ∷ 0 ∷ 0 ∷ []) ∷ xid_event 220 ∷ [])
        ≡ shows (transaction (codes "-") (codes "insert 'd' 't' 0=5\ninsert 'd' 't' 0=5 1=6") (codes "220")) None }
    ensures unusable_map_without_rows { shown_of (begin_event ∷ map_of_types 79 (100 ∷ []) (1 ∷ []) ∷ xid_event 106 ∷ []) ≡ shows (codes "begin -\ncommit 106\n") None }
{}

/// Checksums.
pub fn worked_checksums()
    ensures checksummed { shown_of (checksummed_with (with_checksum (zeros 4) 168 map_event)) ≡ shows (insert_text (codes "-") (codes "239")) None }
    ensures checksum_before_body { shown_of (checksummed_with (with_checksum (0 ∷ 0 ∷ 0 ∷ 1 ∷ []) 168 broken_map)) ≡ shows [] (Some v.Checksum) }
    ensures body_after_checksum { shown_of (checksummed_with (with_checksum (zeros 4) 168 broken_map)) ≡ shows [] (Some v.Body) }
    ensures short_checksummed_event { shown_of (description_event 1 ∷ event 16 107 (zeros 3) ∷ []) ≡ shows [] (Some v.Frame) }
    ensures unknown_algorithm { shown_of (description_event 2 ∷ []) ≡ shows [] (Some v.Algorithm) }
{}

/// Statements, GTIDs and events of other types.
pub fn worked_kinds()
    ensures lone_statement { shown_of (query_event 53 (codes "test") (codes "drop table t") ∷ []) ≡ shows (transaction (codes "-") (codes "statement 'test' 'drop table t'") (codes "53")) None }
    ensures transaction_with_gtid { shown_of (gtid_event ∷ one_insert_events) ≡ shows (insert_text (codes "01020304-0506-0708-090a-0b0c0d0e0f10:5") (codes "142")) None }
    ensures description_drops_the_open_transaction { shown_of (begin_event ∷ map_event ∷ write_event ∷ description_event 0 ∷ commit_event ∷ []) ≡ shows [] (Some v.Outside) }
    ensures two_gtids { shown_of (gtid_event ∷ gtid_event ∷ []) ≡ shows [] (Some v.Inside) }
    ensures begin_within_a_transaction { shown_of (begin_event ∷ begin_event ∷ []) ≡ shows [] (Some v.Inside) }
    ensures xa_query { shown_of (query_event 0 [] (codes "XA START 'x'") ∷ []) ≡ shows [] (Some v.Unshown) }
    ensures unshown_event { shown_of (begin_event ∷ event 6 61 [] ∷ []) ≡ shows [] (Some v.Unshown) }
    ensures ignorable_unknown_event { shown_of (flagged_event 41 128 0 [] ∷ []) ≡ shows [] None }
    ensures unknown_event { shown_of (flagged_event 41 0 0 [] ∷ []) ≡ shows [] (Some v.UnknownKind) }
    ensures tagged_gtid { shown_of (event 42 0 (1 ∷ 2 ∷ []) ∷ one_insert_events) ≡ shows (insert_text (codes "tagged '\\01\\02'") (codes "142")) None }
    ensures commit_query { shown_of (begin_event ∷ map_event ∷ write_event ∷ query_event 154 [] (codes "COMMIT") ∷ []) ≡ shows (insert_text (codes "-") (codes "154")) None }
    ensures rollback_query { shown_of (begin_event ∷ map_event ∷ write_event ∷ query_event 156 [] (codes "ROLLBACK") ∷ one_insert_events) ≡ shows one_insert_text None }
    ensures short_rotate { shown_of (one_insert_events ++ event 4 168 (zeros 7) ∷ []) ≡ shows one_insert_text (Some v.Body) }
    ensures real_rotate_within_a_transaction { shown_of (begin_event ∷ event 4 80 ((4 ∷ []) ++ zeros 7) ∷ []) ≡ shows [] (Some v.Inside) }
{}
