//! Laws of the texts, each stated as the contract of a function that does nothing.

ghost use Rattle.std.specs.Prelude.{◌≡◌, ℕ, List};
ghost use Rattle.changes_cells.specs.JsonDocuments.{escaped_key};

/// Different keys of a document are different members.
pub fn equal_members_are_of_equal_keys()
    ensures { (a b : List ℕ) → escaped_key a ≡ escaped_key b → a ≡ b }
{}
