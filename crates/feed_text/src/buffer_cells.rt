//! The text of cells, in a buffer with room.

ghost use Rattle.std.specs.Prelude.{◌≡◌, ◌≤◌, ◌+◌, ◌++◌, ◌*◌, ◌∷◌, [], None, OnOk, OnErr, IfErr, IfOk, IsTrue, false, length, take};
ghost use Rattle.rows_errors.specs.declared.fault.RowsError.TheVariants.{Jsonb};
ghost use Rattle.rows_jsonb.specs.DocumentTrees.{document_tree};
ghost use Rattle.std.specs.List.{flat_map};
ghost use Rattle.feed_writers.specs.Quoting.{quoted, quoted_byte};
ghost use Rattle.rows_cells.specs.CellViews.{cell_value};
ghost use Rattle.feed_text.specs.CellText.{label, cell_text, Appends, IsCellError};
ghost use Rattle.feed_text.specs.NamelessFaults.{HasNamelessContent};
ghost use Rattle.feed_text.specs.DirectText.{WritesDocument};
ghost use Rattle.feed_text.specs.FeedDocuments.{feed_form};
ghost use Rattle.feed_text.specs.DecimalText.{quoted_decimal, AppendsSome, IsDecimalError};
ghost use Rattle.feed_text.specs.TextPieces.{IsAppendError};
ghost use Rattle.feed_text.specs.ShortTexts.{short_text};

use crate::buffer::TextBuffer;
use crate::cells::{LABEL_LEN_MAX, put_cell_ref, put_label};
use crate::decimals::write_quoted;
use crate::direct::write_document;
use crate::feed_form::FeedForm;
use crate::parts::CellContent;
use crate::short::{FEW_DIGITS, SHORT_BYTES_MAX, SHORT_LEN_MAX, Short, put_short};
use feed_writers::{put_byte, put_quoted, put_quoted_content};
use rows_cells::CellRef;
use rows_errors::RowsError;
use std::alloc::{Allocator, Global};

/// The length of a piece in which long bytes are quoted.
const PIECE_LEN: usize = 1024;

impl<A: Allocator> TextBuffer<A> {
    ghost use Rattle.feed_text.specs.Buffers.{text_in};

    /// Appends the text of a borrowed cell, as [`put_cell_ref`] does. An error appends nothing:
    ///
    /// - `Memory`: out of memory.
    /// - `Jsonb`: the cell is a JSON document that can't be parsed.
    /// - `Decimal`: the bytes aren't a packed decimal. Cells that were read never give this error.
    ///
    /// It allocates only to lengthen the buffer and for a JSON document's tree.
    #[inline(always)]
    pub fn put_cell(
        &mut self,
        alloc: Global,
        column: u32,
        cell: CellRef<'_>,
    ) -> Result<(), RowsError>
        ensures ok { OnOk result (Appends (cell_text column (cell_value cell.entry)) (text_in self.old) (text_in self.new)) }
        ensures err { IfErr result (λ e. IsCellError e cell.entry (cell_text column (cell_value cell.entry)) (text_in self.old) (text_in self.new)) }
        ensures nameless { IfErr result (λ e. e ≡ Jsonb None → HasNamelessContent (cell_value cell.entry)) }
    {
        let Ok(end) = self.write_label(column) else {
            return Err(RowsError::Memory);
        };
        match CellContent::of(cell) {
            CellContent::Short(short) => {
                self.truncate_and_put_short(end, short);
                Ok(())
            }
            CellContent::Bytes(bytes) => self.truncate_and_put_quoted(end, bytes),
            CellContent::Decimal(precision, scale, bytes) => {
                if precision > FEW_DIGITS {
                    return self.put_document(alloc, column, cell);
                }
                self.truncate_and_put_decimal(end, (precision, scale), bytes)
            }
            CellContent::Json(bytes) => {
                if self.truncate_and_put_direct(end, bytes) {
                    return Ok(());
                }
                self.put_document(alloc, column, cell)
            }
            CellContent::JsonDiffs(_) => self.put_document(alloc, column, cell),
        }
    }

    /// Writes a label after the text, and returns the offset of its end. There is room for a short text after it.
    #[inline(always)]
    fn write_label(&mut self, column: u32) -> Result<usize, RowsError>
        ensures room { IfOk result (λ end. end + 76 ≤ length self.new.bytes.items) }
        ensures following { IfOk result (λ end. self.new.len ≤ end) }
        ensures text { IfOk result (λ end. take end self.new.bytes.items ≡ text_in self.old ++ label column) }
        ensures kept { text_in self.new ≡ text_in self.old }
    {
        self.reserve(LABEL_LEN_MAX + SHORT_LEN_MAX)?;
        Ok(put_label(self.bytes.as_mut_slice(), self.len, column))
    }

    /// Makes the text its first `start` bytes and a short text.
    #[inline(always)]
    fn truncate_and_put_short(&mut self, start: usize, short: Short)
        requires { start + 76 ≤ length self.old.bytes.items }
        ensures { text_in self.new ≡ take start self.old.bytes.items ++ short_text short }
    {
        self.len = put_short(self.bytes.as_mut_slice(), start, short);
    }

    /// Makes the text its first `start` bytes and quoted bytes.
    #[inline(always)]
    fn truncate_and_put_quoted(&mut self, start: usize, bytes: &[u8]) -> Result<(), RowsError>
        requires room { start + 76 ≤ length self.old.bytes.items }
        requires following { self.old.len ≤ start }
        ensures ok { OnOk result (text_in self.new ≡ take start self.old.bytes.items ++ quoted bytes.now) }
        ensures err { IfErr result (λ e. IsAppendError e (text_in self.old) (text_in self.new)) }
    {
        if bytes.len() <= SHORT_BYTES_MAX {
            self.len = put_quoted(self.bytes.as_mut_slice(), start, bytes);
            return Ok(());
        }
        self.truncate_and_put_long(start, bytes)
    }

    /// The same for many bytes.
    #[inline(never)]
    fn truncate_and_put_long(&mut self, start: usize, bytes: &[u8]) -> Result<(), RowsError>
        requires room { start + 76 ≤ length self.old.bytes.items }
        requires following { self.old.len ≤ start }
        ensures ok { OnOk result (text_in self.new ≡ take start self.old.bytes.items ++ quoted bytes.now) }
        ensures err { IfErr result (λ e. IsAppendError e (text_in self.old) (text_in self.new)) }
    {
        let old = self.len;
        self.truncate_and_put_quote(start);
        let Ok(()) = self.put_many(bytes) else {
            self.len = old;
            return Err(RowsError::Memory);
        };
        Ok(())
    }

    /// Makes the text its first `start` bytes and a quote.
    fn truncate_and_put_quote(&mut self, start: usize)
        requires { start + 76 ≤ length self.old.bytes.items }
        ensures len { self.new.len ≡ start + 1 }
        ensures text { text_in self.new ≡ take start self.old.bytes.items ++ 39 ∷ [] }
    {
        self.len = put_byte(self.bytes.as_mut_slice(), start, b'\'');
    }

    /// Appends bytes as they are written between quotes, and a quote. An error may leave a part of this.
    fn put_many(&mut self, bytes: &[u8]) -> Result<(), RowsError>
        ensures ok { OnOk result (text_in self.new ≡ text_in self.old ++ (flat_map quoted_byte bytes.now ++ 39 ∷ [])) }
        ensures kept { take (length (text_in self.old)) (text_in self.new) ≡ text_in self.old }
    {
        let mut rest = bytes;
        while !rest.is_empty() {
            let (prefix, after) = rest.split_at(rest.len().min(PIECE_LEN));
            self.put_piece(prefix)?;
            rest = after;
        }
        self.put(b'\'')?;
        Ok(())
    }

    /// Appends bytes as they are written between quotes.
    fn put_piece(&mut self, bytes: &[u8]) -> Result<(), RowsError>
        requires { length bytes.now ≤ 1024 }
        ensures ok { OnOk result (text_in self.new ≡ text_in self.old ++ flat_map quoted_byte bytes.now) }
        ensures err { OnErr result (text_in self.new ≡ text_in self.old) }
    {
        self.reserve(3 * bytes.len())?;
        self.len = put_quoted_content(self.bytes.as_mut_slice(), self.len, bytes);
        Ok(())
    }

    /// Makes the text its first `start` bytes and a quoted decimal.
    #[inline(always)]
    fn truncate_and_put_decimal(
        &mut self,
        start: usize,
        digits: (u8, u8),
        bytes: &[u8],
    ) -> Result<(), RowsError>
        requires few { digits.0 ≤ 71 }
        requires room { start + 76 ≤ length self.old.bytes.items }
        requires following { self.old.len ≤ start }
        ensures ok { OnOk result (AppendsSome (quoted_decimal digits.0 digits.1 bytes.now) (take start self.old.bytes.items) (text_in self.new)) }
        ensures err { IfErr result (λ e. IsDecimalError e (quoted_decimal digits.0 digits.1 bytes.now) (text_in self.old) (text_in self.new)) }
    {
        let (precision, scale) = (usize::from(digits.0), usize::from(digits.1));
        let text = self.bytes.as_mut_slice();
        let Some(end) = write_quoted(text, start, precision, scale, bytes) else {
            return Err(RowsError::Decimal);
        };
        self.len = end;
        Ok(())
    }

    /// Makes the text its first `start` bytes and the text of a JSON document, or leaves the text unchanged.
    #[inline(never)]
    fn truncate_and_put_direct(&mut self, start: usize, bytes: &[u8]) -> bool
        requires room { start + 76 ≤ length self.old.bytes.items }
        requires following { self.old.len ≤ start }
        ensures yes { IsTrue result → WritesDocument feed_form (document_tree bytes.now) (take start self.old.bytes.items) (text_in self.new) }
        ensures no { result ≡ false → text_in self.new ≡ text_in self.old }
    {
        let old = self.len;
        self.len = start;
        let Ok(()) = write_document::<A, FeedForm>(self, bytes) else {
            self.len = old;
            return false;
        };
        true
    }

    /// Appends the text of a cell, which may have any length, by way of a vector.
    #[inline(never)]
    fn put_document(
        &mut self,
        alloc: Global,
        column: u32,
        cell: CellRef<'_>,
    ) -> Result<(), RowsError>
        ensures ok { OnOk result (Appends (cell_text column (cell_value cell.entry)) (text_in self.old) (text_in self.new)) }
        ensures err { IfErr result (λ e. IsCellError e cell.entry (cell_text column (cell_value cell.entry)) (text_in self.old) (text_in self.new)) }
        ensures nameless { IfErr result (λ e. e ≡ Jsonb None → HasNamelessContent (cell_value cell.entry)) }
    {
        self.bytes.truncate(self.len);
        let put = put_cell_ref(alloc, column, cell, &mut self.bytes);
        self.len = self.bytes.len();
        put
    }
}
