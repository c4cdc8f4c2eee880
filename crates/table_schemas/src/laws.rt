//! What holds for the events that a schema completes. Each law is the contract of a function with an empty body.

ghost use Rattle.std.specs.Prelude.{◌≡◌, [], Bool, List, ℕ};
ghost use Rattle.table_schemas.specs.CompletedEvents.{AreCompleted};

/// An empty schema changes nothing: the events are given as they are.
pub fn empty_schema_changes_nothing()
    ensures { (has_checksum : Bool) (own b : List ℕ) → AreCompleted [] has_checksum own b → b ≡ own }
{}
