//! Numbers, as their columns show them.

ghost use Rattle.std.specs.Prelude.{◌≡◌, ◌≤◌, ◌+◌, ◌++◌, nat_lt, length, take};
ghost use Rattle.std.specs.Fmt.{decimal, signed_decimal};
ghost use Rattle.changes_tables.specs.declared.columns.Shown.TheVariants.{Plain};
ghost use Rattle.changes_tables.specs.ShownColumns.{column_view};
ghost use Rattle.changes_cells.specs.ShownTimes.{in_quotes};
ghost use Rattle.changes_cells.specs.CellJson.{IsSeconds, IsSimpleNumber, IsNumberJson, IsIntegerJson, negative_json};
ghost use Rattle.changes_cells.specs.FieldJson.{WritesSuch, MayWriteSuch};

use crate::members::put_member;
use crate::times::put_instant;
use changes_tables::{Shown, ShownColumn};
use changes_writers::put_signed_integer;
use feed_writers::{put_byte, put_number, put_signed};

/// Writes a number in quotes.
#[inline(always)]
fn put_quoted(text: &mut [u8], at: usize, number: u64) -> usize
    requires { at + 22 ≤ length text.old }
    ensures most { result ≤ at + 22 }
    ensures text { take result text.new ≡ take at text.old ++ in_quotes (decimal number) }
{
    let start = put_byte(text, at, b'"');
    let end = put_number(text, start, number);
    put_byte(text, end, b'"')
}

/// Writes a signed number in quotes.
#[inline(always)]
fn put_signed_quoted(text: &mut [u8], at: usize, number: i64) -> usize
    requires { at + 23 ≤ length text.old }
    ensures most { result ≤ at + 23 }
    ensures text { take result text.new ≡ take at text.old ++ in_quotes (signed_decimal number) }
{
    let start = put_byte(text, at, b'"');
    let end = put_signed(text, start, number);
    put_byte(text, end, b'"')
}

/// Writes the number of a TIMESTAMP: the date and the time of so many seconds since 1970, if it has at most 32 bits.
fn put_timestamp(text: &mut [u8], at: usize, number: u64) -> usize
    requires { at + 100 ≤ length text.old }
    ensures { WritesSuch (IsSeconds (nat_lt number 4294967296) number) at text.old text.new result }
{
    match u32::try_from(number) {
        Ok(seconds) => put_instant(text, at, seconds, 0, 0),
        Err(_) => put_number(text, at, number),
    }
}

/// Writes a number that isn't that of members.
#[tactic(auto, unfolding(crate::specs::CellJson::IsSimpleNumber))]
pub(crate) fn put_simple_number(text: &mut [u8], at: usize, shown: Shown, number: u64) -> usize
    requires { at + 100 ≤ length text.old }
    ensures { WritesSuch (IsSimpleNumber shown number) at text.old text.new result }
{
    match shown {
        Shown::Timestamp => put_timestamp(text, at, number),
        Shown::Quoted => put_quoted(text, at, number),
        _ => put_number(text, at, number),
    }
}

/// Writes a negative number.
pub(crate) fn put_negative(text: &mut [u8], at: usize, shown: Shown, number: i64) -> usize
    requires { at + 100 ≤ length text.old }
    ensures most { result ≤ at + 100 }
    ensures text { take result text.new ≡ take at text.old ++ negative_json shown number }
{
    match shown {
        Shown::Quoted => put_signed_quoted(text, at, number),
        _ => put_signed(text, at, number),
    }
}

/// Writes a number. `None`: its text may be long.
#[tactic(auto, unfolding(crate::specs::CellJson::IsNumberShown))]
pub(crate) fn put_shown_number(
    text: &mut [u8],
    at: usize,
    column: &ShownColumn,
    number: u64,
) -> Option<usize>
    requires { at + 400 ≤ length text.old }
    ensures { MayWriteSuch (IsNumberJson (column_view column.now) number) at text.old text.new result }
{
    match column.shown {
        Shown::Enum => put_member(text, at, &column.members, number),
        Shown::Set => None,
        shown => Some(put_simple_number(text, at, shown, number)),
    }
}

/// Writes an integer. `None`: its text may be long.
#[inline(never)]
#[tactic(auto, unfolding(crate::specs::CellJson::IsIntegerJson))]
fn put_shown_integer(text: &mut [u8], at: usize, column: &ShownColumn, number: i64) -> Option<usize>
    requires { at + 400 ≤ length text.old }
    ensures { MayWriteSuch (IsIntegerJson (column_view column.now) number) at text.old text.new result }
{
    if number < 0 {
        return Some(put_negative(text, at, column.shown, number));
    }
    put_shown_number(text, at, column, number as u64)
}

/// Writes an integer of a column that shows its numbers unchanged.
#[inline(always)]
#[tactic(auto, unfolding(crate::specs::CellJson::IsIntegerJson, crate::specs::CellJson::IsNumberShown, crate::specs::CellJson::IsSimpleNumber))]
pub(crate) fn put_plain_integer(
    text: &mut [u8],
    at: usize,
    column: &ShownColumn,
    number: i64,
) -> usize
    requires room { at + 400 ≤ length text.old }
    requires plain { column.now.shown ≡ Plain }
    ensures { WritesSuch (IsIntegerJson (column_view column.now) number) at text.old text.new result }
{
    put_signed_integer(text, at, number)
}

/// Writes an integer; a column that shows its numbers unchanged takes no call. `None`: its text may be long.
#[inline(always)]
#[tactic(auto, unfolding(crate::specs::CellJson::IsIntegerJson, crate::specs::CellJson::IsNumberShown, crate::specs::CellJson::IsSimpleNumber))]
pub(crate) fn put_integer(
    text: &mut [u8],
    at: usize,
    column: &ShownColumn,
    number: i64,
) -> Option<usize>
    requires { at + 400 ≤ length text.old }
    ensures { MayWriteSuch (IsIntegerJson (column_view column.now) number) at text.old text.new result }
{
    match column.shown {
        Shown::Plain => Some(put_plain_integer(text, at, column, number)),
        _ => put_shown_integer(text, at, column, number),
    }
}
