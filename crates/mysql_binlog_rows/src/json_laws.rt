//! Laws about JSON documents and diffs, and worked examples. Each is a function without code; its contract is the law or the
//! computed result.

ghost use Rattle.std.specs.Prelude.{◌≡◌, ◌↔◌, ◌++◌, ℕ, List, ◌∷◌, [], pos, length};
ghost use Rattle.rows_jsonb.specs.Items.{Walked, Finds, items_at};
ghost use Rattle.rows_jsonb.specs.JsonDiffs.{Diff, IsDiff, diff_at};
ghost use Rattle.rows_jsonb.specs.JsonTrees as tree;
ghost use Rattle.rows_jsonb.specs.JsonTrees.{scalar, object, member, no_members};
ghost use Rattle.rows_jsonb.specs.JsonbValues.{malformed};
ghost use Rattle.rows_jsonb.specs.DocumentTrees.{document_tree};
ghost use Rattle.rows_jsonb.specs.WorkedDocuments.{doubled, doubled_tree, nested, nested_tree};
ghost use Rattle.rows_errors.specs.declared.fault.RowsError.TheVariants.{Jsonb};
ghost use Rattle.rows_errors.specs.declared.fault.JsonbError.TheVariants.{InvalidValueOffsetPointer};

/// Two objects with one member each, the second from bytes in which the key occurs twice; and empty bytes.
pub fn worked_objects()
    ensures null_member { document_tree (0 ∷ 1 ∷ 0 ∷ 12 ∷ 0 ∷ 11 ∷ 0 ∷ 1 ∷ 0 ∷ 4 ∷ 0 ∷ 0 ∷ 97 ∷ [])
        ≡ Ok (object (member (97 ∷ []) (scalar tree.null) no_members)) }
    ensures last_wins { document_tree (0 ∷ 2 ∷ 0 ∷ 19 ∷ 0 ∷ 18 ∷ 0 ∷ 1 ∷ 0 ∷ 18 ∷ 0 ∷ 1 ∷ 0 ∷ 5 ∷ 1 ∷ 0 ∷ 5 ∷ 2 ∷ 0 ∷ 97 ∷ [])
        ≡ Ok (object (member (97 ∷ []) (scalar (tree.int (pos 2))) no_members)) }
    ensures no_bytes { document_tree [] ≡ Ok (scalar tree.null) }
{}

/// An array of one string whose offset points into its own entry is an error.
pub fn worked_pointer()
    ensures { document_tree (2 ∷ 1 ∷ 0 ∷ 7 ∷ 0 ∷ 12 ∷ 3 ∷ 0 ∷ [])
        ≡ Err (Jsonb (Some InvalidValueOffsetPointer)) }
{}

/// Nested arrays of two entries that point to the same array: the number of values doubles with each level, the number of bytes
/// doesn't, so the budget is exceeded at some depth.
pub fn worked_budget()
    ensures four_bytes { length (doubled 4) ≡ 44 }
    ensures four { document_tree (2 ∷ doubled 4) ≡ Ok (doubled_tree 4) }
    ensures five_bytes { length (doubled 5) ≡ 54 }
    ensures five { document_tree (2 ∷ doubled 5) ≡ Err malformed }
{}

/// A hundred nested arrays have a tree; a hundred and one don't.
pub fn worked_depth()
    ensures hundred_bytes { length (nested 99) ≡ 697 }
    ensures hundred { document_tree (2 ∷ nested 99) ≡ Ok (nested_tree 99) }
    ensures more { document_tree (2 ∷ nested 100) ≡ Err malformed }
{}

/// The diff that is read from bytes is the one that a prefix of them encodes, whatever follows it.
pub fn diffs_are_read()
    ensures { (d : Diff) (bytes rest : List ℕ)
        → (diff_at bytes ≡ Ok (d, rest)) ↔ ((own : List ℕ) × (bytes ≡ own ++ rest) × IsDiff d own rest) }
{}

/// The diffs found in bytes are those that the bytes encode, up to the end or to the first that can't be read; and there are no
/// others.
pub fn lists_of_diffs_are_read()
    ensures found { (bytes : List ℕ) → Finds IsDiff diff_at (items_at diff_at bytes) bytes }
    ensures only { (found : Walked Diff) (bytes : List ℕ) → Finds IsDiff diff_at found bytes → items_at diff_at bytes ≡ found }
{}
