//! JSON documents and their updates in any form, in a buffer with room.

ghost use Rattle.std.specs.Prelude.{◌≡◌, None, OnOk, IfErr, IsTrue, false, map};
ghost use Rattle.rows_errors.specs.declared.fault.RowsError.TheVariants.{Jsonb};
ghost use Rattle.rows_jsonb.specs.DocumentTrees.{document_tree};
ghost use Rattle.rows_jsonb.specs.JsonDiffViews.{diff_view};
ghost use Rattle.rows_cells.specs.CellValues.{json_diffs as diffs_value};
ghost use Rattle.feed_text.specs.CellText.{cell_diffs_text, IsTextError};
ghost use Rattle.feed_text.specs.DiffText.{diffs_text};
ghost use Rattle.feed_text.specs.DirectText.{WritesDocument, IsDocumentError};
ghost use Rattle.feed_text.specs.DocumentForms.{IsUpdatesIn, AppendsOne, AppendsUpdates};
ghost use Rattle.feed_text.specs.NamelessFaults.{IsNamelessDocument, HasNamelessDiff, HasNamelessContent};

use crate::buffer::TextBuffer;
use crate::cells::tree_of;
use crate::diffs::append_diffs;
use crate::direct::write_document;
use crate::document_form::{DocumentForm, UpdateForm};
use crate::documents::put_tree;
use rows_errors::RowsError;
use rows_jsonb::{JsonDiff, json_diffs};
use std::alloc::{Allocator, Global};

impl<A: Allocator> TextBuffer<A> {
    ghost use Rattle.feed_text.specs.Buffers.{text_in};

    /// Appends the text of a JSON document in a form, as MySQL's binary JSON has it. An error appends nothing:
    ///
    /// - `Memory`: out of memory.
    /// - `Jsonb`: the document can't be parsed.
    ///
    /// It allocates only to lengthen the buffer and for the tree of an unusual document.
    pub fn put_document_in<F: DocumentForm>(
        &mut self,
        alloc: Global,
        bytes: &[u8],
    ) -> Result<(), RowsError>
        ensures ok { OnOk result (WritesDocument F.form (document_tree bytes.now) (text_in self.old) (text_in self.new)) }
        ensures err { IfErr result (λ e. IsDocumentError e (document_tree bytes.now) (text_in self.old) (text_in self.new)) }
        ensures nameless { IfErr result (λ e. e ≡ Jsonb None → IsNamelessDocument bytes.now) }
    {
        if self.put_direct::<F>(bytes) {
            return Ok(());
        }
        match tree_of(alloc, bytes) {
            Ok(tree) => {
                self.bytes.truncate(self.len);
                let put = put_tree::<A, F>(&tree, &mut self.bytes);
                self.len = self.bytes.len();
                put
            }
            Err(fault) => Err(fault),
        }
    }

    /// Appends the text of a JSON document straight from its bytes, or nothing.
    #[inline(never)]
    fn put_direct<F: DocumentForm>(&mut self, bytes: &[u8]) -> bool
        ensures yes { IsTrue result → WritesDocument F.form (document_tree bytes.now) (text_in self.old) (text_in self.new) }
        ensures no { result ≡ false → text_in self.new ≡ text_in self.old }
    {
        let old = self.len;
        let Ok(()) = write_document::<A, F>(self, bytes) else {
            self.len = old;
            return false;
        };
        true
    }

    /// Appends the text of the partial updates of a JSON document in a form, as MySQL's PARTIAL_UPDATE_ROWS_EVENT has them. An error
    /// appends nothing:
    ///
    /// - `Memory`: out of memory.
    /// - `Jsonb`: the bytes aren't updates, or the new value of one can't be parsed.
    ///
    /// It allocates to lengthen the buffer, for the list of updates and for the trees of their values.
    pub fn put_updates_in<F: UpdateForm>(
        &mut self,
        alloc: Global,
        bytes: &[u8],
    ) -> Result<(), RowsError>
        ensures ok { OnOk result (AppendsUpdates F.form bytes.now (text_in self.old) (text_in self.new)) }
        ensures err { IfErr result (λ e. IsTextError e (cell_diffs_text bytes.now) (text_in self.old) (text_in self.new)) }
        ensures nameless { IfErr result (λ e. e ≡ Jsonb None → HasNamelessContent (diffs_value bytes.now)) }
    {
        match json_diffs(alloc, bytes) {
            Ok(diffs) => self.put_all_diffs::<F>(alloc, &diffs),
            Err(fault) => Err(fault),
        }
    }

    /// Appends the text of partial updates, or nothing.
    fn put_all_diffs<F: UpdateForm>(
        &mut self,
        alloc: Global,
        diffs: &[JsonDiff<'_>],
    ) -> Result<(), RowsError>
        ensures ok { OnOk result (AppendsOne (IsUpdatesIn F.form (map diff_view diffs.now)) (text_in self.old) (text_in self.new)) }
        ensures err { IfErr result (λ e. IsTextError e (diffs_text (map diff_view diffs.now)) (text_in self.old) (text_in self.new)) }
        ensures nameless { IfErr result (λ e. e ≡ Jsonb None → HasNamelessDiff (map diff_view diffs.now)) }
    {
        self.bytes.truncate(self.len);
        match append_diffs::<A, F>(alloc, diffs, &mut self.bytes) {
            Ok(()) => {
                self.len = self.bytes.len();
                Ok(())
            }
            Err(fault) => Err(fault),
        }
    }
}
