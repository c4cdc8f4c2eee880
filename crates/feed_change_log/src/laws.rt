//! Laws of committed transactions, each stated as the contract of a function that does nothing.

ghost use Rattle.std.specs.Prelude.{◌≡◌, ℕ, List, [], None, map};
ghost use Rattle.feed_checks.specs.EventFields.{Event};
ghost use Rattle.feed_checks.specs.PastLists.{onto};
ghost use Rattle.feed_transactions.specs.Changes.{transaction_of};
ghost use Rattle.feed_transactions.specs.Checks.{fault_of};
ghost use Rattle.feed_transactions.specs.Rules.{rules, shown, up_to_fault};
ghost use Rattle.feed_transactions.specs.Logs.{file_transactions};
ghost use Rattle.feed_change_log.specs.CommittedLists.{committed_after};
ghost use Rattle.feed_change_log.specs.Stops.{last_commit, last_log_pos};
ghost use Rattle.feed_change_log.specs.ChangeLaws.{file_committed};

/// The transactions that events show, and that a report prints, are the committed ones.
pub fn shown_transactions_are_the_committed_ones()
    ensures events { (f : List ℕ → ℕ) (l : List Event) → map transaction_of (committed_after (fault_of f) [] l) ≡ shown (rules f) l }
    ensures file { (f : List ℕ → ℕ) (b : List ℕ) → map transaction_of (file_committed f b) ≡ file_transactions (rules f) b }
{}

/// The position after the last commit among events is the position after the last of the committed transactions.
pub fn last_commit_is_that_of_the_last_transaction()
    ensures { (f : List ℕ → ℕ) (l : List Event) → last_commit (onto [] (up_to_fault (fault_of f) [] l)) ≡ last_log_pos (committed_after (fault_of f) [] l) None }
{}
