//! Laws, each stated as the contract of a function that does nothing.

ghost use Rattle.std.specs.Prelude.{◌≡◌, ◌≤◌, ◌<◌, ◌++◌, ℕ, List, [], length, take};
ghost use Rattle.std.specs.List.{concat};
ghost use Rattle.feed_resume.specs.Conditions.{onto};
ghost use Rattle.changes_resume.specs.KeptJson.{kept_len, kept_lines};
ghost use Rattle.changes_resume.specs.ResumePoints.{HasResumePoint};
ghost use Rattle.changes_resume.specs.TransactionLines.{AreTransactions, IsTransaction, lines_of, text_of};

/// Of the lines of transactions, and then any part of the lines of another, exactly the transactions are kept, each of their lines.
pub fn truncated_lines_are_repaired()
    ensures len { (ts : List (List (List ℕ))) (t : List (List ℕ)) (n : ℕ) → AreTransactions ts → IsTransaction t → n < length (concat t)
        → kept_len (text_of ts ++ take n (concat t)) ≡ length (text_of ts) }
    ensures lines { (ts : List (List (List ℕ))) (t : List (List ℕ)) (n : ℕ) → AreTransactions ts → IsTransaction t → n < length (concat t)
        → kept_lines (text_of ts ++ take n (concat t)) ≡ onto [] (lines_of ts) }
{}

/// What is kept is a prefix, and all of it is kept again, with the same last line.
pub fn keeping_is_idempotent()
    ensures prefix { (text : List ℕ) → kept_len text ≤ length text }
    ensures again { (text : List ℕ) → kept_lines (take (kept_len text) text) ≡ kept_lines text }
{}

/// A line has at most one file and position to resume from.
pub fn resume_points_are_unique()
    ensures { (line a b : List ℕ) (p q : ℕ) → HasResumePoint line a p → HasResumePoint line b q → (a ≡ b) × (p ≡ q) }
{}
