//! Laws of the feed's rules, each stated as the contract of a function that does nothing.

ghost use Rattle.std.specs.Prelude.{◌≡◌, ℕ, List, ◌++◌};
ghost use Rattle.feed_checks.specs.EventFields.{Event, in_force};
ghost use Rattle.feed_checks.specs.Kinds.{kinds};
ghost use Rattle.feed_transactions.specs.Checks.{fault_of};
ghost use Rattle.feed_transactions.specs.Transactions.{Transaction};
ghost use Rattle.feed_transactions.specs.Rules.{Rules, rules, shown, up_to_fault, fault_after, shown_after};
ghost use Rattle.feed_transactions.specs.ReportLaws.{IsBetween};
ghost use Rattle.rows_table_map.specs.MapViews.{map_of};
ghost use Rattle.rows_table_map.specs.declared.table_map.TableMapEvent.{TableMapEvent};
ghost use Rattle.rows_event_body.specs.ImageShapes.{table_plan};
ghost use Rattle.rows_event_body.specs.PlanViews.{IsPlanOf};
ghost use Rattle.rows_event_body.specs.declared.plan.ColumnPlan.{ColumnPlan};
ghost use Rattle.feed_transactions.specs.MappedRows.{plan_by};

/// A prefix of the events shows a prefix of the transactions, under any rules.
pub fn first_events_show_the_first_transactions()
    ensures { (r : Rules) (first more : List Event) → (later : List Transaction) × (shown r (first ++ more) ≡ shown r first ++ later) }
{}

/// From a position between two transactions on, only the later events and the description in force decide what is shown and which
/// fault is first. Earlier events don't matter.
pub fn what_came_before_does_not_matter()
    ensures fault { (f : List ℕ → ℕ) (p q l : List Event) → in_force p ≡ in_force q → IsBetween (kinds p) → IsBetween (kinds q) → fault_after (fault_of f) p l ≡ fault_after (fault_of f) q l }
    ensures shown { (f : List ℕ → ℕ) (p q l : List Event) → in_force p ≡ in_force q → IsBetween (kinds p) → IsBetween (kinds q) → shown_after (rules f) p (up_to_fault (fault_of f) p l) ≡ shown_after (rules f) q (up_to_fault (fault_of f) q l) }
{}

/// The plan that the specification computes from a table map is that of the code's plan of the map.
pub fn plans_are_those_of_maps()
    ensures { (plan : ColumnPlan) (map : TableMapEvent) → IsPlanOf plan map → table_plan plan ≡ plan_by (map_of map) }
{}
