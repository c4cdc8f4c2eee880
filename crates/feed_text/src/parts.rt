//! The values that make up the text of a borrowed cell.

ghost use Rattle.std.specs.Prelude.{◌≡◌, Ok};
ghost use Rattle.rows_cells.specs.CellValues.{new_date as new_date_value, old_time as old_time_value, old_datetime as old_datetime_value, cell_date, cell_time};
ghost use Rattle.feed_text.specs.CellText.{cell_value_text};
ghost use Rattle.feed_text.specs.Times.{date_text, span_text};
ghost use Rattle.feed_text.specs.ShortTexts.{short_text};

use crate::short::Short;
use feed_writers::{Clock, Day};
use rows_cells::CellRef;

/// The values that make up the text of a cell.
#[derive(Clone, Copy)]
pub(crate) enum CellContent<'a> {
    Short(Short),
    Bytes(&'a [u8]),
    /// The number of digits, the number of digits after the point, and the packed bytes.
    Decimal(u8, u8, &'a [u8]),
    /// A JSON document.
    Json(&'a [u8]),
    /// Partial updates of a JSON document.
    JsonDiffs(&'a [u8]),
}

impl<'a> CellContent<'a> {
    ghost use Rattle.feed_text.specs.CellContent.{ArePartsOf};

    /// The values of a cell. Dates and times are split into their fields.
    #[inline(always)]
    #[tactic(auto, unfolding(crate::specs::CellText::cell_value_text, crate::specs::ShortTexts::short_text))]
    pub(crate) fn of(cell: CellRef<'a>) -> CellContent<'a>
        ensures { ArePartsOf cell.entry result }
    {
        match cell {
            CellRef::Int(number) => CellContent::Short(Short::Int(number)),
            CellRef::Bytes(bytes) => CellContent::Bytes(bytes),
            CellRef::Null => CellContent::Short(Short::Null),
            CellRef::UInt(number) => CellContent::Short(Short::UInt(number)),
            CellRef::Float(bits) => CellContent::Short(Short::Float(bits)),
            CellRef::Double(bits) => CellContent::Short(Short::Double(bits)),
            CellRef::Year(years) => CellContent::Short(Short::Year(years)),
            CellRef::NewDate(bits) => CellContent::Short(new_date(bits)),
            CellRef::OldTime(digits) => CellContent::Short(old_time(digits)),
            CellRef::OldDatetime(digits) => CellContent::Short(old_datetime(digits)),
            CellRef::Timestamp(seconds, micros) => CellContent::Short(Short::Timestamp(
                seconds, micros,
            )),
            CellRef::Datetime(packed) => CellContent::Short(datetime(packed)),
            CellRef::Time(packed) => CellContent::Short(time(packed)),
            CellRef::Decimal(precision, scale, bytes) => CellContent::Decimal(
                precision, scale, bytes,
            ),
            CellRef::Json(bytes) => CellContent::Json(bytes),
            CellRef::JsonDiffs(bytes) => CellContent::JsonDiffs(bytes),
        }
    }
}

/// The text of a DATE of three bytes.
#[inline(always)]
#[tactic(auto, unfolding(crate::specs::CellText::cell_value_text, crate::specs::ShortTexts::short_text))]
fn new_date(bits: u32) -> Short
    ensures { cell_value_text (new_date_value bits) ≡ Ok (short_text result) }
{
    let day = Day {
        year: bits / 512 % 65_536,
        month: bits / 32 % 16,
        day: bits % 32,
    };
    Short::Date(
        day,
        Clock {
            hour: 0,
            minute: 0,
            second: 0,
            micros: 0,
        },
    )
}

/// The text of a TIME of three bytes, without fraction.
#[inline(always)]
#[tactic(auto, unfolding(crate::specs::CellText::cell_value_text, crate::specs::ShortTexts::short_text))]
fn old_time(digits: i32) -> Short
    ensures { cell_value_text (old_time_value digits) ≡ Ok (short_text result) }
{
    let size = digits.unsigned_abs();
    let hours = size / 10_000;
    Short::Span(
        digits < 0,
        hours / 24,
        Clock {
            hour: hours % 24,
            minute: size / 100 % 100,
            second: size % 100,
            micros: 0,
        },
    )
}

/// The text of a DATETIME of eight bytes, without fraction.
#[inline(always)]
#[tactic(auto, unfolding(crate::specs::CellText::cell_value_text, crate::specs::ShortTexts::short_text))]
fn old_datetime(digits: u64) -> Short
    ensures { cell_value_text (old_datetime_value digits) ≡ Ok (short_text result) }
{
    Short::Date(
        Day {
            year: (digits / 10_000_000_000 % 65_536) as u32,
            month: (digits / 100_000_000 % 100) as u32,
            day: (digits / 1_000_000 % 100) as u32,
        },
        Clock {
            hour: (digits / 10_000 % 100) as u32,
            minute: (digits / 100 % 100) as u32,
            second: (digits % 100) as u32,
            micros: 0,
        },
    )
}

/// The text of a packed DATETIME2. Its sign is ignored.
#[inline(always)]
#[tactic(auto, unfolding(crate::specs::ShortTexts::short_text))]
fn datetime(packed: i64) -> Short
    ensures { cell_value_text (cell_date packed) ≡ Ok (short_text result) }
{
    let (day, clock) = datetime_parts(packed);
    Short::Date(day, clock)
}

/// The date and the time of day of a packed DATETIME2.
#[inline(always)]
#[tactic(auto, unfolding(crate::specs::CellText::cell_value_text))]
pub(crate) fn datetime_parts(packed: i64) -> (Day, Clock)
    ensures { cell_value_text (cell_date packed) ≡ Ok (date_text result.0 result.1) }
{
    let size = packed.unsigned_abs();
    let whole = size / 16_777_216;
    let days = (whole / 131_072) as u32;
    let clock = (whole % 131_072) as u32;
    let months = days / 32;
    let day = Day {
        year: months / 13,
        month: months % 13,
        day: days % 32,
    };
    let clock = Clock {
        hour: clock / 4096,
        minute: clock / 64 % 64,
        second: clock % 64,
        micros: (size % 16_777_216) as u32,
    };
    (day, clock)
}

/// The text of a packed TIME2.
#[inline(always)]
#[tactic(auto, unfolding(crate::specs::ShortTexts::short_text))]
fn time(packed: i64) -> Short
    ensures { cell_value_text (cell_time packed) ≡ Ok (short_text result) }
{
    let (is_negative, days, clock) = time_parts(packed);
    Short::Span(is_negative, days, clock)
}

/// Whether a packed TIME2 is negative, its days, and the rest of it.
#[inline(always)]
#[tactic(auto, unfolding(crate::specs::CellText::cell_value_text))]
pub(crate) fn time_parts(packed: i64) -> (bool, u32, Clock)
    ensures { cell_value_text (cell_time packed) ≡ Ok (span_text result.0 result.1 result.2) }
{
    let size = packed.unsigned_abs();
    let whole = size / 16_777_216;
    let hours = whole / 4096 % 1024;
    let clock = Clock {
        hour: (hours % 24) as u32,
        minute: (whole / 64 % 64) as u32,
        second: (whole % 64) as u32,
        micros: (size % 16_777_216) as u32,
    };
    (packed < 0, (hours / 24) as u32, clock)
}
