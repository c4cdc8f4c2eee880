//! A change of a row.

ghost use Rattle.std.specs.Prelude.{◌≡◌};
ghost use Rattle.changes_statements.specs.RowChanges.{turned_round};

/// A change of a row, by the images of the row that the log has.
#[derive(Clone, Copy)]
pub enum RowChange<T> {
    /// The row was inserted.
    Inserted(T),
    /// The row was deleted.
    Deleted(T),
    /// The first became the second.
    Updated(T, T),
}

impl<T> RowChange<T> {
    /// Returns the change that takes this one back: the deletion of an inserted row, the insertion of a deleted one, and an update from
    /// the second image to the first.
    pub fn turned_round(self) -> RowChange<T>
        ensures { result ≡ turned_round self }
    {
        match self {
            RowChange::Inserted(row) => RowChange::Deleted(row),
            RowChange::Deleted(row) => RowChange::Inserted(row),
            RowChange::Updated(before, after) => RowChange::Updated(after, before),
        }
    }
}
