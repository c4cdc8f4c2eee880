//! Laws of the transactions of a stream, each stated as the contract of a function that does nothing.

ghost use Rattle.std.specs.Prelude.{◌≡◌, ℕ, List, map};
ghost use Rattle.feed_transactions.specs.Changes.{transaction_of};
ghost use Rattle.feed_transactions.specs.Rules.{rules};
ghost use Rattle.feed_replication.specs.declared.format.PayloadFormat.{PayloadFormat as Format};
ghost use Rattle.feed_replication.specs.Streams.{stream_transactions};
ghost use Rattle.feed_replication.specs.ResumePositions.{position_after};
ghost use Rattle.binlog_feed.specs.StreamCommits.{stream_committed, position_after_last};

/// The transactions that a stream shows, and that a follower writes, are the committed ones.
pub fn transactions_of_a_stream_are_the_committed_ones()
    ensures { (f : List ℕ → ℕ) (format : Format) (limit : ℕ) (s : List ℕ) → map transaction_of (stream_committed f format limit s) ≡ stream_transactions (rules f) format limit s }
{}

/// The position after the last committed transaction of a stream is the one that a follower of its text resumes from.
pub fn position_after_the_last_is_that_of_the_text()
    ensures { (f : List ℕ → ℕ) (format : Format) (limit : ℕ) (s : List ℕ) (q : ℕ) → position_after_last (stream_committed f format limit s) q ≡ position_after (rules f) format limit s q }
{}
