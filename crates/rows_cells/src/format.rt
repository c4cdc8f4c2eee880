//! The formats of cells.

ghost use Rattle.std.specs.Prelude.{◌≡◌, ◌≤◌};
ghost use Rattle.rows_cells.specs.CellSizes.{width_bytes};

/// The size in bytes of a number or a length field.
#[derive(Clone, Copy, Debug, PartialEq, Eq)]
pub enum Width {
    One,
    Two,
    Three,
    Four,
    Eight,
}

impl Width {
    /// Returns the number of bytes.
    #[inline(always)]
    pub fn bytes(self) -> usize
        ensures value { result ≡ width_bytes self }
        ensures high { result ≤ 8 }
        ensures low { 1 ≤ result }
    {
        match self {
            Width::One => 1,
            Width::Two => 2,
            Width::Three => 3,
            Width::Four => 4,
            Width::Eight => 8,
        }
    }
}

/// The format of a column's cells. Several column types share a format.
#[derive(Clone, Copy, Debug, PartialEq, Eq)]
pub enum CellFormat {
    /// A signed number, in little-endian order.
    Signed(Width),
    /// An unsigned number, in little-endian order.
    Unsigned(Width),
    /// The bits of a float.
    Float,
    /// The bits of a double.
    Double,
    /// A byte that counts years since 1900.
    Year,
    /// A date in three bytes: the day, the month and the year as bits of a number.
    NewDate,
    /// An old-format TIME in three bytes: the decimal digits `hhmmss` of a signed number.
    OldTime,
    /// An old-format DATETIME in eight bytes: the decimal digits `YYYYMMDDhhmmss` of a number.
    OldDatetime,
    /// Seconds since 1970 (UTC), with this many fractional digits.
    Timestamp2(u8),
    /// A packed date and time, with this many fractional digits.
    Datetime2(u8),
    /// A packed TIME, with this many fractional digits.
    Time2(u8),
    /// A packed decimal: its precision and its scale (digits after the point).
    Decimal(u8, u8),
    /// This many bytes, unchanged.
    Plain(u16),
    /// A length field of this width, and then the bytes.
    Counted(Width),
    /// A length in four bytes, and then a JSON document.
    Json,
    /// A length in four bytes, and then JSON diffs up to the end of the cell.
    JsonDiffs,
    /// The column's metadata is missing or invalid for its type: its cells can't be read.
    NoMetadata,
    /// The column's type has no cells that can be read.
    NoCells,
}
