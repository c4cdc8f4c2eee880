//! Laws of changes that are taken back, each stated as the contract of a function that does nothing.

ghost use Rattle.std.specs.Prelude.{◌≡◌, List, Some};
ghost use Rattle.changes_statements.specs.RowChanges.{Rows, RowChange, StoredRow, after_changes, bag_of, turned_round, undone};

/// A change that is turned round twice is the same change, and changes that are taken back twice are the same changes.
pub fn turned_round_twice_is_the_same()
    ensures change { (c : RowChange StoredRow) → turned_round (turned_round c) ≡ c }
    ensures changes { (l : List (RowChange StoredRow)) → undone (undone l) ≡ l }
{}

/// The changes that take others back leave the tables as they were before these, whatever rows they had: each row as often.
pub fn undone_changes_leave_what_was_there()
    ensures bags { (l : List (RowChange StoredRow)) (before after : Rows) → after_changes l before ≡ Some after → after_changes (undone l) after ≡ Some before }
    ensures lists { (l : List (RowChange StoredRow)) (rows : List StoredRow) (after : Rows) → after_changes l (bag_of rows) ≡ Some after → after_changes (undone l) after ≡ Some (bag_of rows) }
{}
