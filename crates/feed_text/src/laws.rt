//! Laws of the texts, each stated as the contract of a function that does nothing, and worked texts.

ghost use Rattle.std.specs.Prelude.{◌≡◌, ◌∷◌, [], codes, ℕ, List, Ok};
ghost use Rattle.wire_buf.specs.Encoding.{AreBytes};
ghost use Rattle.rows_values.specs.PackedTimes.{fraction_len, time2, datetime2};
ghost use Rattle.rows_values.specs.Values.{span_value, date_value};
ghost use Rattle.feed_writers.specs.Quoting.{quoted};
ghost use Rattle.rows_values.specs.declared.rows.value.Value.{Value};
ghost use Rattle.rows_cells.specs.CellValues.{CellValue};
ghost use Rattle.rows_cells.specs.CellViews.{cell_value_of, Holds};
ghost use Rattle.rows_cells.specs.declared.binlog_value.BinlogValue.{BinlogValue};
ghost use Rattle.feed_text.specs.ValueText.{value_text};
ghost use Rattle.feed_text.specs.CellText.{cell_value_text, kept_text};

/// Equal quoted texts have equal bytes.
pub fn equal_quotes_are_of_equal_bytes()
    ensures { (a b : List ℕ) → AreBytes a → AreBytes b → quoted a ≡ quoted b → a ≡ b }
{}

/// The text of a value is that of a cell with this value.
pub fn values_have_the_texts_of_cells()
    ensures { (v : Value) → cell_value_text (cell_value_of v) ≡ Ok (value_text v) }
{}

/// The value that was made from a cell has the cell's text.
pub fn values_of_cells_have_their_texts()
    ensures { (v : CellValue) (b : BinlogValue) → Holds v b → kept_text b ≡ cell_value_text v }
{}

/// The text of the bytes `27 5c 0a 41`: a quote, a backslash, a line feed and a letter.
pub fn worked_quote()
    ensures { quoted (39 ∷ 92 ∷ 10 ∷ 65 ∷ []) ≡ codes "'\\27\\5c\\0aA'" }
{}

/// The texts of the TIME cell `7f ff fe f6` with two decimals, and of the DATETIME cell `99 83 b0 90 f9` without decimals.
pub fn worked_times()
    ensures time { value_text (span_value (time2 (fraction_len 2) (127 ∷ 255 ∷ 254 ∷ 246 ∷ [])))
        ≡ codes "-0d00:00:01.100000" }
    ensures date_and_time { value_text (date_value (datetime2 (fraction_len 0) (153 ∷ 131 ∷ 176 ∷ 144 ∷ 249 ∷ [])))
        ≡ codes "2009-09-24T09:03:57.000000" }
{}
