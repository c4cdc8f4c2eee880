//! Laws about rows events. Each is a function without code; its contract is the law.

ghost use Rattle.std.specs.Prelude.{◌≡◌, ◌↔◌, true};
ghost use Rattle.rows_event_body.specs.RowsEvents.{IsWrittenWhole};
ghost use Rattle.rows_event_body.specs.Views.{body_of};
ghost use Rattle.rows_event_body.specs.contracts.rows_event.RowsEventPartialEq.TheImpl.{ghosts as event_equality};

use rows_event_body::RowsEvent;

/// An event that was read with the post-header lengths that servers use today is written completely. So reading the written
/// bytes, with these lengths, gives the same event.
pub fn events_are_written_whole()
    ensures { IsWrittenWhole }
{}

/// Events are equal by `==` exactly if their contents are.
pub fn equal_events_say_the_same()
    ensures { (a b : RowsEvent) → (event_equality.eq a b ≡ true) ↔ (body_of a ≡ body_of b) }
{}
