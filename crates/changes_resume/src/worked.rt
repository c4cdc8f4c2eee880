//! Worked examples, computed from the definitions: the complete transactions of truncated JSON lines.

ghost use Rattle.std.specs.Prelude.{◌≡◌, [], ◌∷◌, ◌++◌, take, codes};
ghost use Rattle.changes_resume.specs.KeptJson.{first_line, kept_len, kept_lines};
ghost use Rattle.changes_resume.specs.WorkedLines.{one_change, two_changes, whole_transaction};

/// Prefixes of a transaction of two lines after one of one line, and lines that end none.
pub fn worked_kept_json()
    ensures nothing { kept_len [] ≡ 0 }
    ensures line_feed { kept_len (10 ∷ []) ≡ 0 }
    ensures one { kept_len one_change ≡ 26 }
    ensures truncated { kept_len (take 25 one_change) ≡ 0 }
    ensures two { kept_len (one_change ++ two_changes) ≡ 74 }
    ensures two_truncated { kept_len (take 73 (one_change ++ two_changes)) ≡ 26 }
    ensures last { first_line (kept_lines (one_change ++ two_changes)) ≡ codes "{\"data\":{\"a\":2},\"commit\":true}\n" }
    ensures whole { kept_len whole_transaction ≡ 15 }
    ensures column { kept_len (codes "{\"data\":{\"a\":1,\"commit\":true}}\n") ≡ 0 }
    ensures statement { kept_len (codes "{\"sql\":\",\\\"commit\\\":true}\"}\n") ≡ 0 }
{}
