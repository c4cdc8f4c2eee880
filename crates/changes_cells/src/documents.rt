//! JSON documents and their partial updates within JSON lines.

ghost use Rattle.std.specs.Prelude.{◌≡◌, None, OnOk, IfErr};
ghost use Rattle.rows_errors.specs.declared.fault.RowsError.TheVariants.{Jsonb};
ghost use Rattle.rows_jsonb.specs.DocumentTrees.{document_tree};
ghost use Rattle.rows_cells.specs.CellValues.{json_diffs};
ghost use Rattle.feed_text.specs.Buffers.{text_in};
ghost use Rattle.feed_text.specs.CellText.{cell_diffs_text, IsTextError};
ghost use Rattle.feed_text.specs.DirectText.{WritesDocument, IsDocumentError};
ghost use Rattle.feed_text.specs.DocumentForms.{AppendsUpdates};
ghost use Rattle.feed_text.specs.NamelessFaults.{IsNamelessDocument, HasNamelessContent};
ghost use Rattle.changes_cells.specs.JsonDocuments.{json_form};

use crate::json_form::JsonForm;
use feed_text::TextBuffer;
use rows_errors::RowsError;
use std::alloc::{Allocator, Global};

/// Appends a JSON document, from MySQL's binary JSON, as JSON: numbers in decimal, the shortest digits of a double that read back as it, strings and keys with
/// the escapes of RFC 8259, the members of objects in the byte order of their keys. What JSON doesn't have is an object:
///
/// - `{"$decimal":"1.50"}`, `{"$date":"2026-11-28"}`, `{"$time":"-12:00:00.000000"}`, `{"$datetime":"2026-11-28 10:00:00.123456"}`;
/// - `{"$type":252,"base64":".."}`: a value of another column type, by its number.
///
/// A key of the document that begins with `$`, or is `base64` or `diffs`, gets one more `$` before it. An error appends nothing:
///
/// - `Memory`: out of memory.
/// - `Jsonb`: the document can't be parsed.
///
/// It allocates only to lengthen the buffer, and for the tree of a document with values that JSON doesn't have, an object of more
/// than 64 members, or equal keys.
pub fn put_document<A: Allocator>(
    alloc: Global,
    bytes: &[u8],
    out: &mut TextBuffer<A>,
) -> Result<(), RowsError>
    ensures ok { OnOk result (WritesDocument json_form (document_tree bytes.now) (text_in out.old) (text_in out.new)) }
    ensures err { IfErr result (λ e. IsDocumentError e (document_tree bytes.now) (text_in out.old) (text_in out.new)) }
    ensures nameless { IfErr result (λ e. e ≡ Jsonb None → IsNamelessDocument bytes.now) }
{
    out.put_document_in::<JsonForm>(alloc, bytes)
}

/// Appends the partial updates of a JSON document as an object: `{"diffs":[{"op":"replace","path":"$.a","value":7},..]}`. `op` is
/// `replace`, `insert` or `remove`, which has no `value`; a path that isn't UTF-8 is `{"base64":".."}`, and a value is as
/// [`put_document`] has it. An error appends nothing:
///
/// - `Memory`: out of memory.
/// - `Jsonb`: the bytes aren't updates, or the new value of one can't be parsed.
pub fn put_diffs<A: Allocator>(
    alloc: Global,
    bytes: &[u8],
    out: &mut TextBuffer<A>,
) -> Result<(), RowsError>
    ensures ok { OnOk result (AppendsUpdates json_form bytes.now (text_in out.old) (text_in out.new)) }
    ensures err { IfErr result (λ e. IsTextError e (cell_diffs_text bytes.now) (text_in out.old) (text_in out.new)) }
    ensures nameless { IfErr result (λ e. e ≡ Jsonb None → HasNamelessContent (json_diffs bytes.now)) }
{
    out.put_updates_in::<JsonForm>(alloc, bytes)
}
