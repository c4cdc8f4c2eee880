//! Laws of reports, each stated as the contract of a function that does nothing.

ghost use Rattle.std.specs.Prelude.{◌≡◌, List, ℕ, ◌++◌};
ghost use Rattle.feed_checks.specs.EventFields.{Event};
ghost use Rattle.feed_checks.specs.LogFormat.{AreEvents, events, joined, remaining_bytes};
/// `events` returns the longest list of whole events that the bytes begin with: each is whole, they and the rest are the bytes,
/// and whole events at the start of the bytes are the first of the list.
pub fn events_are_longest()
    ensures whole { (b : List ℕ) → AreEvents (events b) }
    ensures prefix { (b : List ℕ) → joined (events b) ++ remaining_bytes b ≡ b }
    ensures longest { (l : List Event) (r : List ℕ) → AreEvents l → events (joined l ++ r) ≡ l ++ events r }
{}
