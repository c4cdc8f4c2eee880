//! Laws of what the options select, each stated as the contract of a function that does nothing.

ghost use Rattle.std.specs.Prelude.{◌≡◌, ℕ, List, Option, None, true};
ghost use Rattle.feed_transactions.specs.Changes.{Committed};
ghost use Rattle.feed_change_log.specs.declared.filter.Filter.{Filter};
ghost use Rattle.changes_walks.specs.Selections.{has_start, between, selected};
ghost use Rattle.changes_walks.specs.AscendingPositions.{HasAscendingPositions, with_positions};

/// If the positions of a log ascend, and a transaction ends at the start position, a `Filter` with the positions of the options
/// selects what they select: the same transactions, with the same changes.
pub fn filters_select_by_the_same_positions()
    ensures { (f : Filter) (start stop : Option ℕ) (ts : List Committed) → f.after ≡ None → f.up_to ≡ None → HasAscendingPositions ts → has_start start ts ≡ true
        → selected (with_positions f start stop) ts ≡ selected f (between start stop ts) }
{}
