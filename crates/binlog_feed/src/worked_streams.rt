//! Worked examples, computed from the definitions: streams, the text that they show and their verdict, and a request.

ghost use Rattle.std.specs.Prelude.{◌≡◌, [], ◌∷◌, ◌++◌, codes};
ghost use Rattle.feed_checks.specs.declared.verdict.Verdict.TheVariants as v;
ghost use Rattle.binlog_feed.specs.WorkedEvents.{insert_text, one_insert_text};
ghost use Rattle.feed_replication.specs.Requests.{dump_request};
ghost use Rattle.feed_replication.specs.declared.format.PayloadFormat.TheVariants.{Plain, SemiSync};
ghost use Rattle.feed_replication.specs.Streams.{program_limit};
ghost use Rattle.binlog_feed.specs.WorkedStreams.{stream_prints, prints, open_answer, whole_answer, checksummed_answer, semi_synchronous_answer, closing_packet, misnumbered_answer, truncated_misnumbered, empty_payload, long_closing_payload, short_event_payload, error_packet, worked_request, flagged_answer, misnumbered_flagged_answer, ack_of, asks_for};

/// Answers of a server.
pub fn worked_answers()
    ensures whole_answer { stream_prints Plain program_limit whole_answer ≡ prints one_insert_text v.End }
    ensures without_closing_packet { stream_prints Plain program_limit open_answer ≡ prints one_insert_text v.Closed }
    ensures checksummed { stream_prints Plain program_limit checksummed_answer ≡ prints (insert_text (codes "-") (codes "239")) v.End }
    ensures semi_synchronous { stream_prints SemiSync program_limit semi_synchronous_answer ≡ prints one_insert_text v.End }
{}

/// Packets and payloads that end a stream.
pub fn worked_ends()
    ensures out_of_number { stream_prints Plain program_limit misnumbered_answer ≡ prints [] v.OutOfNumber }
    ensures cut_short { stream_prints Plain program_limit truncated_misnumbered ≡ prints [] v.Closed }
    ensures too_large { stream_prints Plain 38 (39 ∷ 0 ∷ 0 ∷ 1 ∷ []) ≡ prints [] v.TooLarge }
    ensures too_large_first { stream_prints Plain 38 (39 ∷ 0 ∷ 0 ∷ 2 ∷ []) ≡ prints [] v.TooLarge }
    ensures empty_payload { stream_prints Plain program_limit empty_payload ≡ prints [] v.NotAnEvent }
    ensures long_closing_payload { stream_prints Plain program_limit long_closing_payload ≡ prints [] v.NotAnEvent }
    ensures short_event_payload { stream_prints Plain program_limit short_event_payload ≡ prints [] v.NotAnEvent }
    ensures error_packet { stream_prints Plain program_limit error_packet ≡ prints [] v.ServerError }
    ensures bytes_after_the_closing_packet { stream_prints Plain program_limit (closing_packet 1 ++ 255 ∷ 255 ∷ 255 ∷ 255 ∷ []) ≡ prints [] v.End }
{}

/// A request.
pub fn worked_requests()
    ensures { dump_request 4 1 (codes "master-bin.000002") ≡ worked_request }
{}

/// Acknowledgements: only of flagged events, one for each, up to the first event that isn't taken.
pub fn worked_acknowledgements()
    ensures semi_synchronous { asks_for SemiSync semi_synchronous_answer ≡ ack_of 42 ∷ ack_of 142 ∷ [] }
    ensures unknown_bits { asks_for SemiSync (flagged_answer 254 255) ≡ ack_of 142 ∷ [] }
    ensures out_of_number { asks_for SemiSync misnumbered_flagged_answer ≡ ack_of 42 ∷ [] }
    ensures plain_answer { asks_for SemiSync whole_answer ≡ [] }
    ensures plain { asks_for Plain whole_answer ≡ [] }
{}
