//! The image of a row: its null bits and its cells, read one at a time.

ghost use Rattle.std.specs.Prelude.{◌≡◌, ◌≤◌, ◌<◌, ◌*◌, ◌⊎◌, ℕ, List, Bool, false, length, IfOk};
ghost use Rattle.rows_errors.specs.Readings.{map_reading};
ghost use Rattle.rows_cells.specs.CellViews.{cell_value, IsReadable};
ghost use Rattle.std.specs.Bool.{OnTrue, OnFalse};
ghost use Rattle.rows_cells.specs.declared.format.CellFormat.TheVariants.{Json};
ghost use Rattle.rows_cells.specs.ColumnFormats.{format_by};
ghost use Rattle.rows_cells.specs.Images.{bit, format_in, field_at, IsReadAlike, lenenc_error as fault_of_lenenc, lenenc_at, shared_at};

use crate::cell::CellRef;
use crate::cell_reading::read_cell;
use crate::fields::split_prefix;
use crate::format::CellFormat;
use rows_errors::RowsError;
use wire_buf::ParseBuf;

/// A column in an image.
#[derive(Clone, Copy, Debug, PartialEq, Eq)]
pub struct ImageColumn {
    /// Its index in the table, from 0.
    pub column: u32,
    /// The format of its cells.
    pub format: CellFormat,
    /// The number of JSON columns before it in the table, which is a JSON column's index in the partial bits.
    pub json_column: u32,
}

/// The layout of an image.
#[derive(Clone, Copy, Debug)]
pub struct ImagePlan<'p> {
    /// The columns in the image, in the order of the table.
    pub columns: &'p [ImageColumn],
    /// The number of JSON columns in the table, for the after image of a partial update, which begins with a part that its cells
    /// share; otherwise None.
    pub json_columns: Option<u32>,
}

/// The description of a cell before it is read.
#[derive(Clone, Copy, Debug)]
pub struct ImageField<'a> {
    /// Its column's index in the table, from 0.
    pub column: u32,
    /// Whether it is NULL, which takes no bytes.
    pub is_null: bool,
    /// The format of the cell, if it isn't NULL.
    pub format: CellFormat,
    /// The bytes that begin with the cell.
    pub bytes: &'a [u8],
}

/// The remaining cells of an image, borrowed from the bytes of the rows event. It takes no memory.
#[derive(Clone, Copy)]
pub struct ImageCells<'p, 'a> {
    columns: &'p [ImageColumn],
    bits: &'a [u8],
    nulls: &'a [u8],
    index: usize,
    rest: &'a [u8],
    ghost within: { index ≤ length columns.now },
    ghost nulls_are: { length columns.now ≤ 8 * length nulls.now },
}

impl<'p, 'a> ImageCells<'p, 'a> {
    ghost use Rattle.std.specs.Prelude.{IfOk, IfErr, IfSome, IfNone, Ok, Err, [], ◌∷◌};
    ghost use Rattle.rows_cells.specs.Images.{image_at};
    ghost use Rattle.rows_cells.specs.ImageViews.{image_shape, remaining_cells, columns_left, cells_count, next_column, ReturnsCell, IsNextField, HasNextFormat, SkipsField};

    /// Returns the cells of the image that the bytes begin with, in order.
    ///
    /// - `EndOfBody`: the null bits, or the part before them, are incomplete.
    /// - `UnknownNumber`: the options of a partial update aren't a length-encoded integer.
    #[tactic(auto, unfolding(crate::specs::Images::image_at))]
    pub fn of(plan: ImagePlan<'p>, bytes: &'a [u8]) -> Result<ImageCells<'p, 'a>, RowsError>
        ensures ok { IfOk result (λ cells. remaining_cells cells ≡ image_at (image_shape plan.entry) bytes.entry.now) }
        ensures count { IfOk result (λ cells. cells_count cells ≡ length plan.entry.columns.now) }
        ensures columns { IfOk result (λ cells. columns_left cells ≡ plan.entry.columns.now) }
        ensures err { IfErr result (λ e. image_at (image_shape plan.entry) bytes.entry.now ≡ Err e) }
    {
        let columns = plan.columns;
        let (bits, rest) = split_shared(plan.json_columns, bytes)?;
        let (nulls, rest) = split_prefix(rest, columns.len().div_ceil(8))?;
        Ok(ImageCells {
            columns,
            bits,
            nulls,
            index: 0,
            rest,
        })
    }

    /// Returns no cells, followed by these bytes.
    pub(crate) fn before(bytes: &'a [u8]) -> ImageCells<'p, 'a>
        ensures { result.rest ≡ bytes.entry }
    {
        ImageCells {
            columns: &[],
            bits: &[],
            nulls: &[],
            index: 0,
            rest: bytes,
        }
    }

    /// Returns the next cell with its column's index in the table, or None after the last. If it can't be read, returns the error
    /// of `read_cell`, now and on later calls.
    #[inline(always)]
    pub fn next_cell(&mut self) -> Result<Option<(u32, CellRef<'a>)>, RowsError>
        ensures { ReturnsCell self.old result self.new }
    {
        if self.index >= self.columns.len() {
            return Ok(None);
        }
        let image_column = self.columns[self.index];
        let is_null = bit_at(self.nulls, self.index);
        match read_field(is_null, format_of(self.bits, image_column), self.rest) {
            Ok((cell, rest)) => {
                self.index += 1;
                self.rest = rest;
                Ok(Some((image_column.column, cell)))
            }
            Err(fault) => Err(fault),
        }
    }

    /// Returns the description of the next cell, or None after the last.
    #[inline(always)]
    pub fn next_field(&self) -> Option<ImageField<'a>>
        ensures none { IfNone result (length self.now.columns.now ≤ self.now.index) }
        ensures some { IfSome result (IsNextField self.now) }
        ensures format { IfSome result (HasNextFormat self.now) }
    {
        if self.index >= self.columns.len() {
            return None;
        }
        let image_column = self.columns[self.index];
        Some(ImageField {
            column: image_column.column,
            is_null: bit_at(self.nulls, self.index),
            format: format_of(self.bits, image_column),
            bytes: self.rest,
        })
    }

    /// Returns the description of the next cell; None after the last, and for a JSON document, whose cell may have diffs instead.
    /// It is faster than [`ImageCells::next_field`].
    #[inline(always)]
    pub fn next_plain_field(&self) -> Option<ImageField<'a>>
        ensures none { IfNone result (length self.now.columns.now ≤ self.now.index ⊎ (next_column self.now).format ≡ Json) }
        ensures some { IfSome result (IsNextField self.now) }
        ensures format { IfSome result (HasNextFormat self.now) }
    {
        if self.index >= self.columns.len() {
            return None;
        }
        let image_column = self.columns[self.index];
        let null_bit = bit_at(self.nulls, self.index);
        if !has_one_format(null_bit, image_column.format) {
            return None;
        }
        Some(ImageField {
            column: image_column.column,
            is_null: null_bit,
            format: image_column.format,
            bytes: self.rest,
        })
    }

    /// Skips the next cell, after which `rest` follows.
    #[inline(always)]
    pub fn skip_field(&mut self, rest: &'a [u8])
        requires { self.now.index < length self.now.columns.now }
        ensures cell { SkipsField self.old rest.entry.now self.new }
        ensures columns { columns_left self.old ≡ next_column self.old ∷ columns_left self.new }
    {
        self.index += 1;
        self.rest = rest;
    }

    /// Returns the number of remaining cells.
    #[inline(always)]
    pub fn len(&self) -> usize
        ensures { result ≡ cells_count self.now }
    {
        self.columns.len() - self.index
    }

    /// Returns the bytes after the cells that were returned.
    pub fn rest(&self) -> &'a [u8]
        ensures { result ≡ self.now.rest }
    {
        self.rest
    }
}

/// Reads a length-encoded integer; returns it and the bytes after it.
fn split_lenenc(bytes: &[u8]) -> Result<(u64, &[u8]), RowsError>
    ensures { map_reading (λ x. (x.0, x.1.now)) result ≡ lenenc_at bytes.now }
{
    let mut rest = ParseBuf(bytes);
    match rest.checked_eat_lenenc_int() {
        Some(number) => Ok((number, rest.0)),
        None => Err(lenenc_fault(bytes)),
    }
}

/// Returns why the bytes don't begin with a length-encoded integer.
fn lenenc_fault(bytes: &[u8]) -> RowsError
    ensures { result ≡ fault_of_lenenc bytes.now }
{
    match bytes {
        [251 | 255, ..] => RowsError::UnknownNumber,
        _ => RowsError::EndOfBody,
    }
}

/// Returns the partial bits of an image and the bytes after them, for a table with this many JSON columns. There are no bits if
/// the image isn't that of a partial update, or its options don't announce partial bits.
#[inline(always)]
fn split_shared(json_columns: Option<u32>, bytes: &[u8]) -> Result<(&[u8], &[u8]), RowsError>
    ensures { map_reading (λ x. (x.0.now, x.1.now)) result ≡ shared_at json_columns bytes.now }
{
    let Some(json_columns) = json_columns else {
        return Ok((&[], bytes));
    };
    let (options, rest) = split_lenenc(bytes)?;
    if options % 2 == 1 {
        split_prefix(rest, json_columns.div_ceil(8) as usize)
    } else {
        Ok((&[], rest))
    }
}

/// Returns the format of a column's cell: JSON diffs if its partial bit is set.
#[inline(always)]
fn format_of(bits: &[u8], image_column: ImageColumn) -> CellFormat
    ensures { result ≡ format_in bits.now image_column }
{
    match image_column.format {
        CellFormat::Json => {
            if has_bit(bits, image_column.json_column as usize) {
                CellFormat::JsonDiffs
            } else {
                CellFormat::Json
            }
        }
        format => format,
    }
}

/// Returns whether a cell is read alike whatever the partial bits are: it is NULL, or its format isn't that of JSON documents.
#[inline(always)]
fn has_one_format(is_null: bool, format: CellFormat) -> bool
    ensures alike { OnTrue result (IsReadAlike is_null format) }
    ensures one { OnTrue result (is_null ≡ false → (b : Bool) → format_by b format ≡ format) }
    ensures other { OnFalse result (format ≡ Json) }
{
    match format {
        CellFormat::Json => is_null,
        _ => true,
    }
}

/// Returns the cell that the bytes begin with and the bytes after it; NULL, which takes no bytes, if the null bit is set.
#[inline(always)]
fn read_field(
    is_null: bool,
    format: CellFormat,
    bytes: &[u8],
) -> Result<(CellRef<'_>, &[u8]), RowsError>
    ensures value { map_reading (λ x. (cell_value x.0, x.1.now)) result ≡ field_at is_null format bytes.now }
    ensures readable { IfOk result (λ x. IsReadable x.0) }
{
    if is_null {
        return Ok((CellRef::Null, bytes));
    }
    read_cell(format, bytes)
}

/// Returns a bit of bytes, from the lowest bit of the first byte.
#[inline(always)]
fn bit_at(bytes: &[u8], index: usize) -> bool
    requires { index < 8 * length bytes.now }
    ensures { result ≡ bit bytes.now index }
{
    (bytes[index / 8] >> (index % 8)) & 1 == 1
}

/// Returns a bit of bytes; bits past the end are clear.
#[inline(always)]
fn has_bit(bytes: &[u8], index: usize) -> bool
    ensures { result ≡ bit bytes.now index }
{
    if index / 8 >= bytes.len() {
        return false;
    }
    bit_at(bytes, index)
}
