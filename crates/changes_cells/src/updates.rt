//! Partial updates of JSON documents within JSON lines.

ghost use Rattle.std.specs.Prelude.{◌≡◌, ◌∷◌, ◌++◌, [], ℕ, List, OnOk, IfErr, length, take};
ghost use Rattle.rows_errors.specs.declared.fault.RowsError.TheVariants.{Memory};
ghost use Rattle.rows_jsonb.specs.JsonTreeViews.{view};
ghost use Rattle.feed_text.specs.DocumentForms.{IsDocumentIn, AppendsOne};
ghost use Rattle.changes_cells.specs.JsonDocuments.{json_form, update_start, value_end};

use crate::json_form::JsonForm;
use crate::parts::{append_path, operation_name};
use feed_text::{UpdateForm, put_tree};
use rows_errors::RowsError;
use rows_jsonb::{JsonDiffOperation, JsonDom};
use std::alloc::Allocator;

/// Appends an update up to its new value. An error may leave a part of this.
fn append_start<A: Allocator>(
    operation: JsonDiffOperation,
    path: &[u8],
    out: &mut Vec<u8, A>,
) -> Result<(), RowsError>
    ensures ok { OnOk result (out.new.items ≡ out.old.items ++ update_start operation path.now) }
    ensures err { IfErr result (λ e. e ≡ Memory) }
    ensures kept { take (length out.old.items) out.new.items ≡ out.old.items }
{
    out.extend_from_slice(b"{\"op\":\"")?;
    out.extend_from_slice(operation_name(operation))?;
    out.extend_from_slice(b"\",\"path\":")?;
    append_path(path, out)
}

/// Appends the new value of an update, and its end. An error may leave a part of this.
fn append_value<A: Allocator>(value: &JsonDom, out: &mut Vec<u8, A>) -> Result<(), RowsError>
    ensures ok { OnOk result (AppendsOne (λ x. (v : List ℕ) × IsDocumentIn json_form (view value.now) v × (x ≡ value_end v)) out.old.items out.new.items) }
    ensures err { IfErr result (λ e. e ≡ Memory) }
    ensures kept { take (length out.old.items) out.new.items ≡ out.old.items }
{
    out.extend_from_slice(b",\"value\":")?;
    put_tree::<A, JsonForm>(value, out)?;
    append_end(out)
}

/// Appends the end of an update.
fn append_end<A: Allocator>(out: &mut Vec<u8, A>) -> Result<(), RowsError>
    ensures ok { OnOk result (out.new.items ≡ out.old.items ++ 125 ∷ []) }
    ensures err { IfErr result (λ e. e ≡ Memory) }
    ensures kept { take (length out.old.items) out.new.items ≡ out.old.items }
{
    out.push(b'}')?;
    Ok(())
}

impl UpdateForm for JsonForm {
    fn append_update<A: Allocator>(
        operation: JsonDiffOperation,
        path: &[u8],
        value: Option<&JsonDom>,
        out: &mut Vec<u8, A>,
    ) -> Result<(), RowsError> {
        append_start(operation, path, out)?;
        match value {
            Some(value) => append_value(value, out),
            None => append_end(out),
        }
    }

    fn around_updates() -> (&'static [u8], &'static [u8]) {
        (b"{\"diffs\":[", b"]}")
    }
}
