//! Laws, each stated as the contract of a function that does nothing.

ghost use Rattle.std.specs.Prelude.{◌≡◌, ℕ, ◌<◌, ◌^◌, List, Some};
ghost use Rattle.feed_resume.specs.CommitLines.{commit_line};
ghost use Rattle.feed_resume.specs.Kept.{commit_in};

/// A commit line states its position if that fits in 32 bits, and no other line states one.
pub fn commit_lines_are_read()
    ensures read { (position : ℕ) → position < 2 ^ 32 → commit_in (commit_line position) ≡ Some position }
    ensures only { (line : List ℕ) (position : ℕ) → commit_in line ≡ Some position → (position < 2 ^ 32) × (line ≡ commit_line position) }
{}
