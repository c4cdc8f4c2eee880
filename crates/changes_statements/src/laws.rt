//! Laws of the texts of statements, each stated as the contract of a function that does nothing.

ghost use Rattle.std.specs.Prelude.{◌≡◌, ◌++◌, ℕ, List, false};
ghost use Rattle.changes_statements.specs.declared.row_change.RowChange.{RowChange};
ghost use Rattle.changes_statements.specs.NoStatements.{HasNoStatement};
ghost use Rattle.changes_statements.specs.RowsOfCells.{Cells};
ghost use Rattle.changes_statements.specs.SqlStatements.{IsStatement};
ghost use Rattle.changes_statements.specs.SqlTexts.{begins_with, between};
ghost use Rattle.changes_statements.specs.declared.no_statement.NoStatement.{NoStatement};
ghost use Rattle.changes_statements.specs.declared.sql_table.SqlTable.{SqlTable};

/// Bytes between quotes show what they are and where they end, whatever follows them but one more quote: equal strings come from equal
/// bytes, equal names from equal names, and nothing in them ends them early.
pub fn quoted_bytes_end()
    ensures { (q : ℕ) (a b s t : List ℕ) → begins_with q s ≡ false → begins_with q t ≡ false → between q a ++ s ≡ between q b ++ t → (a ≡ b) × (s ≡ t) }
{}

/// Where a change has a reason to be without a statement, no text is one: so an error of `put_statement`, except out of memory, comes only
/// where there is no statement.
pub fn changes_with_a_reason_have_no_statement()
    ensures { (table : SqlTable) (change : RowChange Cells) (e : NoStatement) (text : List ℕ) → HasNoStatement table change e → IsStatement table change text → ⊥ }
{}
