//! Worked examples, computed from the definitions: the complete transactions of truncated texts.

ghost use Rattle.std.specs.Prelude.{◌≡◌, [], ◌∷◌, take, codes, Some, None};
ghost use Rattle.feed_resume.specs.Kept.{kept};
ghost use Rattle.feed_resume.specs.Worked.{two_inserts};

/// Prefixes of a text of two transactions, and single lines.
pub fn worked_kept()
    ensures below_38 { kept (take 37 two_inserts) ≡ (0, None) }
    ensures at_38 { kept (take 38 two_inserts) ≡ (38, Some 142) }
    ensures below_76 { kept (take 75 two_inserts) ≡ (38, Some 142) }
    ensures at_76 { kept two_inserts ≡ (76, Some 280) }
    ensures nothing { kept [] ≡ (0, None) }
    ensures line_feed { kept (10 ∷ []) ≡ (0, None) }
    ensures zero { kept (codes "commit 0\n") ≡ (9, Some 0) }
    ensures leading_zeros { kept (codes "commit 007\n") ≡ (0, None) }
    ensures no_digits { kept (codes "commit \n") ≡ (0, None) }
    ensures greatest { kept (codes "commit 4294967295\n") ≡ (18, Some 4294967295) }
    ensures too_great { kept (codes "commit 4294967296\n") ≡ (0, None) }
    ensures truncated { kept (codes "commit 7") ≡ (0, None) }
    ensures truncated_after_another { kept (codes "commit 7\ncommit 8") ≡ (9, Some 7) }
    ensures more_in_the_line { kept (codes "commit 7 \n") ≡ (0, None) }
{}
