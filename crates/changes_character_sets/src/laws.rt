//! Laws of texts, each stated as the contract of a function that does nothing.

ghost use Rattle.std.specs.Prelude.{◌≡◌, ℕ, List, IsUtf8};
ghost use Rattle.changes_character_sets.specs.Texts.{IsTextOf};
ghost use Rattle.changes_character_sets.specs.declared.character_set.CharacterSet.{CharacterSet};

/// Bytes have one text at most in a character set.
pub fn texts_are_unique()
    ensures { (set : CharacterSet) (bytes a b : List ℕ) → IsTextOf set bytes a → IsTextOf set bytes b → a ≡ b }
{}

/// The text of bytes is UTF-8.
pub fn texts_are_utf8()
    ensures { (set : CharacterSet) (bytes text : List ℕ) → IsTextOf set bytes text → IsUtf8 text }
{}
