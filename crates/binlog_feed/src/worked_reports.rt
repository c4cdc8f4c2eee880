//! Worked examples, computed from the definitions: small files, the text that is printed of each, and its verdict.

ghost use Rattle.std.specs.Prelude.{◌≡◌, [], ◌∷◌, ◌++◌, codes};
ghost use Rattle.feed_checks.specs.declared.verdict.Verdict.TheVariants as v;
ghost use Rattle.binlog_feed.specs.WorkedEvents.{write_event, commit_event, one_insert_events, insert_text, one_insert_text};
ghost use Rattle.feed_checks.specs.LogFormat.{magic_number};
ghost use Rattle.binlog_feed.specs.WorkedReports.{printed_of, prints, file_of, without_commit, without_last_byte, checksummed_file, broken_header};

/// Complete files, and files that end early or are damaged.
pub fn worked_reports()
    ensures magic_alone { printed_of magic_number ≡ prints [] v.End }
    ensures no_bytes { printed_of [] ≡ prints [] v.Mark }
    ensures unfinished_transaction { printed_of without_commit ≡ prints [] v.End }
    ensures unfinished_transaction_within_an_event { printed_of without_last_byte ≡ prints [] v.End }
    ensures one_insert { printed_of (file_of one_insert_events) ≡ prints one_insert_text v.End }
    ensures checksummed { printed_of checksummed_file ≡ prints (insert_text (codes "-") (codes "239")) v.End }
    ensures broken_header_at_the_end { printed_of (file_of one_insert_events ++ broken_header) ≡ prints one_insert_text v.Frame }
    ensures rows_after_the_commit { printed_of (file_of (one_insert_events ++ write_event ∷ commit_event ∷ [])) ≡ prints one_insert_text v.Outside }
{}
