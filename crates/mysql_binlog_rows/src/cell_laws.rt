//! Laws about cells, images and rows. Each is a function without code; its contract is the law.

ghost use Rattle.std.specs.Prelude.{◌≡◌, ◌↔◌, ◌++◌, ℕ, List, Ok};
ghost use Rattle.rows_cells.specs.declared.format.CellFormat.{CellFormat};
ghost use Rattle.rows_cells.specs.declared.binlog_value.BinlogValue.{BinlogValue};
ghost use Rattle.rows_cells.specs.CellValues.{CellValue};
ghost use Rattle.rows_cells.specs.CellViews.{Holds};
ghost use Rattle.rows_cells.specs.BinlogValues.{Kept, IsKeptOf, kept_view};
ghost use Rattle.wire_buf.specs.Encoding.{Alone};
ghost use Rattle.rows_jsonb.specs.Items.{Walked, Finds, items_at};
ghost use Rattle.rows_cells.specs.Cells.{IsCell, cell_at};
ghost use Rattle.rows_cells.specs.Images.{ColumnValue, ImageShape, IsImage, image_at};
ghost use Rattle.rows_cells.specs.EventRows.{IsEventRow, row_at};

/// The cell that is read from bytes is the one that a prefix of them encodes, whatever follows it.
pub fn cells_are_read()
    ensures { (format : CellFormat) (v : CellValue) (bytes rest : List ℕ)
        → (cell_at format bytes ≡ Ok (v, rest)) ↔ ((own : List ℕ) × (bytes ≡ own ++ rest) × IsCell format v own) }
{}

/// No encoding of a cell is a proper prefix of another.
pub fn no_cell_is_prefix_of_another()
    ensures { (format : CellFormat) (v w : CellValue) (a b x y : List ℕ) → IsCell format v a → IsCell format w b
        → a ++ x ≡ b ++ y → (v ≡ w) × (x ≡ y) }
{}

/// The value made from a cell is the one that is kept of it, and nothing else is kept of the cell.
pub fn kept_values_are_those_of_cells()
    ensures kept { (v : CellValue) (value : BinlogValue) → Holds v value → IsKeptOf v (kept_view value) }
    ensures only { (v : CellValue) (a b : Kept) → IsKeptOf v a → IsKeptOf v b → a ≡ b }
{}

/// The image that is read from bytes is the one that a prefix of them encodes, whatever follows it.
pub fn images_are_read()
    ensures { (shape : ImageShape) (row : List ColumnValue) (bytes rest : List ℕ)
        → (image_at shape bytes ≡ Ok (row, rest)) ↔ ((own : List ℕ) × (bytes ≡ own ++ rest) × IsImage shape row own) }
{}

/// No encoding of an image is a proper prefix of another.
pub fn no_image_is_prefix_of_another()
    ensures { (shape : ImageShape) (v w : List ColumnValue) (a b x y : List ℕ) → IsImage shape v a
        → IsImage shape w b → a ++ x ≡ b ++ y → (v ≡ w) × (x ≡ y) }
{}

/// The row that is read from bytes is the one that a prefix of them encodes, whatever follows it.
pub fn rows_are_read()
    ensures { (shapes : List ImageShape) (row : List (List ColumnValue)) (bytes rest : List ℕ)
        → (row_at shapes bytes ≡ Ok (row, rest)) ↔ ((own : List ℕ) × (bytes ≡ own ++ rest) × IsEventRow shapes row own) }
{}

/// The rows found in rows data are those that it encodes, up to the end or to the first that can't be read; and there are no
/// others.
pub fn lists_of_rows_are_read()
    ensures found { (shapes : List ImageShape) (bytes : List ℕ)
        → Finds (Alone (IsEventRow shapes)) (row_at shapes) (items_at (row_at shapes) bytes) bytes }
    ensures only { (shapes : List ImageShape) (found : Walked (List (List ColumnValue))) (bytes : List ℕ)
        → Finds (Alone (IsEventRow shapes)) (row_at shapes) found bytes → items_at (row_at shapes) bytes ≡ found }
{}
