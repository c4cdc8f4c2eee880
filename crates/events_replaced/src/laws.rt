//! Laws of what is kept and given of XA transactions, each stated as the contract of a function that does nothing.

ghost use Rattle.std.specs.Prelude.{◌≤◌, ◌<◌, ◌+◌, ◌^◌, ℕ, List, length};
ghost use Rattle.events_replaced.specs.WholeXaEvents.{AreEvents, KeepsEvents};
ghost use Rattle.events_replaced.specs.XaStates.{XaState, no_transactions};
ghost use Rattle.events_replaced.specs.XaSteps.{TakesRole};
ghost use Rattle.events_replaced.specs.declared.xa_role.XaRole.{XaRole};

/// What is given in place of an event is whole events and nothing else, and so is what is kept after it, if what was kept before is. No
/// byte of a transaction is lost between them.
pub fn xa_transactions_are_whole_events()
    ensures none { (limit : ℕ) → KeepsEvents (no_transactions limit) }
    ensures taken { (s t : XaState) (role : XaRole) (event content : List ℕ) → KeepsEvents s → 19 ≤ length event → length event + 4 < 2 ^ 32 → TakesRole s role event content t → KeepsEvents t × AreEvents content }
{}
