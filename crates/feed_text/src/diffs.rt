//! The text of partial updates of JSON documents.

ghost use Rattle.std.specs.Prelude.{◌≡◌, None, OnOk, IfErr, Err, length, take, map};
ghost use Rattle.rows_jsonb.specs.JsonDiffViews.{diff_view};
ghost use Rattle.rows_jsonb.specs.JsonParsing.{Parses};
ghost use Rattle.rows_errors.specs.declared.fault.RowsError.TheVariants.{Jsonb};
ghost use Rattle.feed_text.specs.CellText.{Appends};
ghost use Rattle.feed_text.specs.DiffText.{diff_text, diffs_text};
ghost use Rattle.feed_text.specs.DocumentForms.{IsUpdateIn, IsUpdatesIn, AppendsOne};
ghost use Rattle.feed_text.specs.NamelessFaults.{HasNamelessValue, HasNamelessDiff};

use crate::document_form::UpdateForm;
use crate::feed_form::FeedForm;
use rows_errors::RowsError;
use rows_jsonb::JsonDiff;
use std::alloc::{Allocator, Global};

/// Appends the text of partial updates, with commas between them. An error may leave a part of it:
///
/// - `Memory`: out of memory.
/// - `Jsonb`: the JSON document of an update can't be parsed.
pub(crate) fn append_diffs<A: Allocator, F: UpdateForm>(
    alloc: Global,
    diffs: &[JsonDiff<'_>],
    out: &mut Vec<u8, A>,
) -> Result<(), RowsError>
    ensures ok { OnOk result (AppendsOne (IsUpdatesIn F.form (map diff_view diffs.now)) out.old.items out.new.items) }
    ensures err { IfErr result (λ e. Parses (λ t. t) (Err e) (diffs_text (map diff_view diffs.now))) }
    ensures nameless { IfErr result (λ e. e ≡ Jsonb None → HasNamelessDiff (map diff_view diffs.now)) }
    ensures kept { take (length out.old.items) out.new.items ≡ out.old.items }
{
    let (before, after) = F::around_updates();
    out.extend_from_slice(before)?;
    let mut separator = b"".as_slice();
    for diff in diffs {
        out.extend_from_slice(separator)?;
        match append_diff::<A, F>(alloc, diff, out) {
            Ok(()) => {}
            Err(fault) => return Err(fault),
        }
        separator = b",".as_slice();
    }
    out.extend_from_slice(after)?;
    Ok(())
}

/// Appends the text of partial updates in the feed. An error may leave a part of it, as [`append_diffs`] has it.
pub(crate) fn append_feed_diffs<A: Allocator>(
    alloc: Global,
    diffs: &[JsonDiff<'_>],
    out: &mut Vec<u8, A>,
) -> Result<(), RowsError>
    ensures ok { OnOk result (Appends (diffs_text (map diff_view diffs.now)) out.old.items out.new.items) }
    ensures err { IfErr result (λ e. Parses (λ t. t) (Err e) (diffs_text (map diff_view diffs.now))) }
    ensures nameless { IfErr result (λ e. e ≡ Jsonb None → HasNamelessDiff (map diff_view diffs.now)) }
    ensures kept { take (length out.old.items) out.new.items ≡ out.old.items }
{
    append_diffs::<A, FeedForm>(alloc, diffs, out)
}

/// Appends the text of an update. An error may leave a part of it.
fn append_diff<A: Allocator, F: UpdateForm>(
    alloc: Global,
    diff: &JsonDiff<'_>,
    out: &mut Vec<u8, A>,
) -> Result<(), RowsError>
    ensures ok { OnOk result (AppendsOne (IsUpdateIn F.form (diff_view diff.now)) out.old.items out.new.items) }
    ensures err { IfErr result (λ e. Parses (λ t. t) (Err e) (diff_text (diff_view diff.now))) }
    ensures nameless { IfErr result (λ e. e ≡ Jsonb None → HasNamelessValue (diff_view diff.now).1.1) }
    ensures kept { take (length out.old.items) out.new.items ≡ out.old.items }
{
    let Some(value) = diff.value() else {
        return F::append_update(diff.operation(), diff.path(), None, out);
    };
    match value.tree(alloc) {
        Ok(tree) => F::append_update(diff.operation(), diff.path(), Some(&tree), out),
        Err(fault) => Err(fault),
    }
}
