//! Reading the value of a cell as a field.

ghost use Rattle.std.specs.Prelude.{◌≡◌, ◌⊎◌, Err};
ghost use Rattle.wire_buf.specs.Encoding.{Alone};
ghost use Rattle.rows_errors.specs.declared.fault.RowsError.TheVariants.{Memory};
ghost use Rattle.rows_cells.specs.Cells.{cell_at};
ghost use Rattle.rows_cells.specs.BinlogValues.{Kept, kept_view, IsKeptCell, format_of_ctx};

use crate::binlog_value::BinlogValue;
use crate::cell_reading::read_cell;
use crate::format::CellFormat;
use rows_errors::RowsError;
use std::alloc::Global;
use wire_buf::{AnySize, MyDeserialize, ParseBuf};
use wire_constants::ColumnType;

/// What a table map has about a cell's column, and a rows event about the cell.
#[derive(Clone, Copy, Debug)]
pub struct BinlogValueCtx<'a> {
    /// The column's real type.
    pub real_type: ColumnType,
    /// The column's metadata.
    pub metadata: &'a [u8],
    /// Whether the column is numeric and unsigned.
    pub is_unsigned: bool,
    /// Whether the cell of a JSON column has JSON diffs.
    pub is_partial: bool,
}

impl BinlogValueCtx<'_> {
    /// Returns the format of the column's cells.
    pub fn format(&self) -> CellFormat
        ensures { result ≡ format_of_ctx self.now }
    {
        match CellFormat::of_column(self.real_type, self.metadata, self.is_unsigned) {
            CellFormat::Json => {
                if self.is_partial {
                    CellFormat::JsonDiffs
                } else {
                    CellFormat::Json
                }
            }
            format => format,
        }
    }
}

/// Reads a cell of the column that the context describes, as `read_cell` and `CellRef::to_value` do.
///
/// - `EndOfBody`: the bytes end within the cell.
/// - `Metadata`, `Cell`: the column has no cells that can be read.
/// - `Decimal`: the bytes pack no decimal.
/// - `Jsonb`: a JSON document or diff can't be read.
/// - `Memory`: out of memory.
impl<'de> MyDeserialize<'de> for BinlogValue<'de> {
    const SIZE: Option<usize> = None;

    type Size = AnySize;

    type Ctx = BinlogValueCtx<'de>;

    type Fault = RowsError;

    ghost View = { Kept };

    ghost view = { kept_view };

    ghost encodes = { λ ctx. Alone (IsKeptCell (format_of_ctx ctx)) };

    ghost fails_with = { λ ctx x e. (e ≡ Memory) ⊎ (cell_at (format_of_ctx ctx) x ≡ Err e) };

    fn deserialize(
        alloc: Global,
        ctx: BinlogValueCtx<'de>,
        buf: &mut ParseBuf<'de>,
    ) -> Result<BinlogValue<'de>, RowsError> {
        match read_cell(ctx.format(), buf.0) {
            Ok((cell, rest)) => match cell.to_value(alloc) {
                Ok(value) => {
                    buf.0 = rest;
                    Ok(value)
                }
                Err(fault) => Err(fault),
            },
            Err(fault) => Err(fault),
        }
    }

    ghost sized = { λ ctx v bytes rest h. tt };
}
