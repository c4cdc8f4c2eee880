//! The text of JSON documents.

ghost use Rattle.std.specs.Prelude.{◌≡◌, ◌++◌, OnOk, IfErr, length, take};
ghost use Rattle.rows_jsonb.specs.JsonTrees.{array, object};
ghost use Rattle.rows_jsonb.specs.JsonTreeViews.{view, items_view, members_view};
ghost use Rattle.feed_text.specs.TextPieces.{IsAppendError};
ghost use Rattle.feed_text.specs.DocumentForms.{IsDocumentIn, AppendsOne};
ghost use Rattle.feed_text.specs.JsonText.{document_text};

use crate::document_form::DocumentForm;
use crate::feed_form::FeedForm;
use crate::json_scalars::{append_key, append_scalar};
use rows_errors::RowsError;
use rows_jsonb::{JsonContainer, JsonDom};
use std::alloc::Allocator;
use std::collections::BTreeMap;

/// Appends the text of a JSON document. `Memory`: out of memory; nothing is appended. The text is:
///
/// - `null`, `true`, `false`;
/// - an integer in decimal; an unsigned one after `u`;
/// - `d` and the hexadecimal digits of a double's bits;
/// - a decimal's digits;
/// - a string quoted as [`quote`] does;
/// - `t` and a quoted date `YYYY-MM-DD`, a quoted time `hh:mm:ss.uuuuuu` after a `-` if it is negative, or both with a space
///   between them;
/// - `o`, the number of a column type, `:` and quoted bytes for an opaque value;
/// - `[a,b]`, and `{'k':v}` with the keys in byte order.
///
/// The call takes stack for each nested container: less than 300 KB for a tree from `jsonb::Value::parse`, which nests at most
/// 100.
pub fn put_json<A: Allocator>(document: &JsonDom, out: &mut Vec<u8, A>) -> Result<(), RowsError>
    ensures ok { OnOk result (out.new.items ≡ out.old.items ++ document_text (view document.now)) }
    ensures err { IfErr result (λ e. IsAppendError e out.old.items out.new.items) }
{
    put_tree::<A, FeedForm>(document, out)
}

/// Appends the text of a JSON document in a form. `Memory`: out of memory; nothing is appended.
pub fn put_tree<A: Allocator, F: DocumentForm>(
    document: &JsonDom,
    out: &mut Vec<u8, A>,
) -> Result<(), RowsError>
    ensures ok { OnOk result (AppendsOne (IsDocumentIn F.form (view document.now)) out.old.items out.new.items) }
    ensures err { IfErr result (λ e. IsAppendError e out.old.items out.new.items) }
{
    let start = out.len();
    let Ok(()) = append_document::<A, F>(document, out) else {
        out.truncate(start);
        return Err(RowsError::Memory);
    };
    Ok(())
}

/// Appends the text of a JSON document. An error may leave a part of it.
#[cycle(document)]
fn append_document<A: Allocator, F: DocumentForm>(
    document: &JsonDom,
    out: &mut Vec<u8, A>,
) -> Result<(), RowsError>
    ensures ok { OnOk result (AppendsOne (IsDocumentIn F.form (view document.now)) out.old.items out.new.items) }
    ensures kept { take (length out.old.items) out.new.items ≡ out.old.items }
{
    match document {
        JsonDom::Scalar(scalar) => append_scalar::<A, F>(scalar, out),
        JsonDom::Container(JsonContainer::Array(items)) => append_items::<A, F>(items, out),
        JsonDom::Container(JsonContainer::Object(members)) => append_members::<A, F>(members, out),
    }
}

/// Appends the text of an array. An error may leave a part of it.
#[cycle(document)]
fn append_items<A: Allocator, F: DocumentForm>(
    items: &Vec<JsonDom>,
    out: &mut Vec<u8, A>,
) -> Result<(), RowsError>
    ensures ok { OnOk result (AppendsOne (IsDocumentIn F.form (array (items_view items.now.items))) out.old.items out.new.items) }
    ensures kept { take (length out.old.items) out.new.items ≡ out.old.items }
{
    out.push(b'[')?;
    let mut separator = b"".as_slice();
    for item in items {
        out.extend_from_slice(separator)?;
        append_document::<A, F>(item, out)?;
        separator = b",".as_slice();
    }
    out.push(b']')?;
    Ok(())
}

/// Appends the text of an object. An error may leave a part of it.
#[cycle(document)]
fn append_members<A: Allocator, F: DocumentForm>(
    members: &BTreeMap<String, JsonDom>,
    out: &mut Vec<u8, A>,
) -> Result<(), RowsError>
    ensures ok { OnOk result (AppendsOne (IsDocumentIn F.form (object (members_view members.now.entries))) out.old.items out.new.items) }
    ensures kept { take (length out.old.items) out.new.items ≡ out.old.items }
{
    out.push(b'{')?;
    let mut separator = b"".as_slice();
    for (key, member) in members.iter() {
        out.extend_from_slice(separator)?;
        append_key::<A, F>(key.as_bytes(), out)?;
        out.push(b':')?;
        append_document::<A, F>(member, out)?;
        separator = b",".as_slice();
    }
    out.push(b'}')?;
    Ok(())
}
