//! Worked examples, computed from the definitions: what is sent of small files, and the results of requests.

ghost use Rattle.std.specs.Prelude.{◌≡◌, [], ◌∷◌, ◌++◌, codes, take, drop};
ghost use Rattle.feed_checks.specs.declared.verdict.Verdict.TheVariants as v;
ghost use Rattle.binlog_feed.specs.WorkedEvents.{description_event};
ghost use Rattle.binlog_feed.specs.WorkedReports.{without_last_byte, broken_header};
ghost use Rattle.binlog_feed.specs.WorkedEvents.{one_insert_events};
ghost use Rattle.feed_replication.specs.declared.format.PayloadFormat.TheVariants.{Plain, SemiSync};
ghost use Rattle.binlog_feed.specs.WorkedStreams.{packets_from, closing_packet, whole_answer, semi_synchronous_answer};
ghost use Rattle.feed_replication.specs.Streams.{program_limit};
ghost use Rattle.feed_replication.specs.declared.served.Refusal.TheVariants as errors;
ghost use Rattle.feed_replication.specs.declared.served.Served.TheVariants.{Whole, Refused, Fault};
ghost use Rattle.binlog_feed.specs.WorkedServing.{serves_within, serves_from, sends, one_insert_file, checksummed_events, checksummed_file, damaged_file, sound_events, worked_dump, answers};

/// Answers from a position on.
pub fn worked_positions()
    ensures from_the_start { serves_from one_insert_file 4 ≡ sends whole_answer Whole }
    ensures from_the_end { serves_from one_insert_file 142 ≡ sends (closing_packet 1) Whole }
    ensures within_an_event { serves_from one_insert_file 141 ≡ sends [] (Refused errors.Place) }
    ensures after_the_end { serves_from one_insert_file 143 ≡ sends [] (Refused errors.Place) }
    ensures no_bytes { serves_from [] 4 ≡ sends [] (Fault v.Mark) }
    ensures within_the_magic { serves_from [] 3 ≡ sends [] (Refused errors.Place) }
    ensures cut_short { serves_from without_last_byte 4 ≡ sends (packets_from Plain 1 (take 3 one_insert_events) ++ closing_packet 4) Whole }
    ensures broken_header_at_the_end { serves_from (one_insert_file ++ broken_header) 4 ≡ sends (packets_from Plain 1 one_insert_events) (Fault v.Frame) }
    ensures broken_header_before_the_position { serves_from (one_insert_file ++ broken_header) 143 ≡ sends [] (Fault v.Frame) }
    ensures semi_synchronous { serves_within program_limit SemiSync one_insert_file 4 ≡ sends semi_synchronous_answer Whole }
{}

/// Answers with checksums, up to damage, and within a limit.
pub fn worked_damage()
    ensures checksummed { serves_from checksummed_file 4 ≡ sends (packets_from Plain 1 checksummed_events ++ closing_packet 6) Whole }
    ensures led_by_the_description { serves_from checksummed_file 168 ≡ sends (packets_from Plain 1 (description_event 1 ∷ drop 3 checksummed_events) ++ closing_packet 4) Whole }
    ensures up_to_damage { serves_from damaged_file 4 ≡ sends (packets_from Plain 1 sound_events) (Fault v.Checksum) }
    ensures damage_before_the_position { serves_from damaged_file 168 ≡ sends [] (Fault v.Checksum) }
    ensures past_the_limit { serves_within 38 Plain one_insert_file 4 ≡ sends [] (Fault v.TooLarge) }
    ensures at_the_limit { serves_within 39 Plain one_insert_file 4 ≡ sends whole_answer Whole }
    ensures closing_past_the_limit { serves_within 4 Plain one_insert_file 142 ≡ sends [] (Fault v.TooLarge) }
{}

/// Requests.
pub fn worked_dumps()
    ensures whole { answers (worked_dump 0 4 1) (codes "master-bin.000002") ≡ sends whole_answer Whole }
    ensures another_number { answers (worked_dump 1 4 1) (codes "master-bin.000002") ≡ sends [] (Refused errors.NotADump) }
    ensures another_flag { answers (worked_dump 0 4 0) (codes "master-bin.000002") ≡ sends [] (Refused errors.Flags) }
    ensures another_name { answers (worked_dump 0 4 1) (codes "master-bin.000003") ≡ sends [] (Refused errors.Name) }
    ensures another_position { answers (worked_dump 0 3 1) (codes "master-bin.000002") ≡ sends [] (Refused errors.Place) }
    ensures no_request { answers [] (codes "master-bin.000002") ≡ sends [] (Refused errors.NotADump) }
    ensures bytes_after { answers (worked_dump 0 4 1 ++ 0 ∷ []) (codes "master-bin.000002") ≡ sends [] (Refused errors.NotADump) }
{}
