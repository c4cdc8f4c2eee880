//! Reading the cell that bytes begin with, by its format.
//!
//! Each function returns what the cell has and the bytes after it, or `EndOfBody` if there are fewer bytes.

ghost use Rattle.std.specs.Prelude.{◌≡◌, ◌≤◌, ◌+◌, ◌-◌, ◌*◌, ◌^◌, IfSome, IfNone, length};
ghost use Rattle.std.specs.Bool.{OnTrue};
ghost use Rattle.std.specs.Fmt.{decimal};
ghost use Rattle.rows_errors.specs.Readings.{map_reading};
ghost use Rattle.rows_cells.specs.declared.format.CellFormat.TheVariants.{Signed, Float, Double, Year, NewDate, OldTime, OldDatetime, Timestamp2, Plain};
ghost use Rattle.rows_cells.specs.declared.format.Width.TheVariants.{Four};
ghost use Rattle.rows_cells.specs.CellValues.{bytes as bytes_value, float, double, new_date, old_time, old_datetime, timestamp_text};
ghost use Rattle.rows_cells.specs.Cells.{cell_at};
ghost use Rattle.rows_cells.specs.CellSizes.{width_bytes};
ghost use Rattle.byteorder.specs.Endian.{little_number, twos_complement};
ghost use Rattle.changes_cells.specs.FieldJson.{IsIntegerAt, LacksInteger};

use byteorder::{ByteOrder, LittleEndian};
use rows_cells::{CellFormat, Width, read_signed, split_prefix};
use rows_errors::RowsError;
use rows_values::{fraction_size, timestamp_of};

/// Reads the bits of a FLOAT.
#[inline(always)]
#[tactic(auto, unfolding(rows_cells::specs::Cells::cell_at))]
pub(crate) fn read_float(bytes: &[u8]) -> Result<(u32, &[u8]), RowsError>
    ensures { map_reading (λ x. (float x.0, x.1.now)) result ≡ cell_at Float bytes.now }
{
    let (content, rest) = split_prefix(bytes, 4)?;
    Ok((LittleEndian::read_u32(content), rest))
}

/// Reads the bits of a DOUBLE.
#[inline(always)]
#[tactic(auto, unfolding(rows_cells::specs::Cells::cell_at))]
pub(crate) fn read_double(bytes: &[u8]) -> Result<(u64, &[u8]), RowsError>
    ensures { map_reading (λ x. (double x.0, x.1.now)) result ≡ cell_at Double bytes.now }
{
    let (content, rest) = split_prefix(bytes, 8)?;
    Ok((LittleEndian::read_u64(content), rest))
}

/// Reads the byte of a YEAR, which counts from 1900.
#[inline(always)]
#[tactic(auto, unfolding(rows_cells::specs::Cells::cell_at))]
pub(crate) fn read_year(bytes: &[u8]) -> Result<(u8, &[u8]), RowsError>
    ensures { map_reading (λ x. (bytes_value (decimal (1900 + x.0)), x.1.now)) result ≡ cell_at Year bytes.now }
{
    let (content, rest) = split_prefix(bytes, 1)?;
    Ok((content[0], rest))
}

/// Reads the bits of a DATE of three bytes.
#[inline(always)]
#[tactic(auto, unfolding(rows_cells::specs::Cells::cell_at))]
pub(crate) fn read_date(bytes: &[u8]) -> Result<(u32, &[u8]), RowsError>
    ensures { map_reading (λ x. (new_date x.0, x.1.now)) result ≡ cell_at NewDate bytes.now }
{
    let (content, rest) = split_prefix(bytes, 3)?;
    Ok((LittleEndian::read_u24(content), rest))
}

/// Reads the digits `hhmmss` of a TIME of three bytes.
#[inline(always)]
#[tactic(auto, unfolding(rows_cells::specs::Cells::cell_at))]
pub(crate) fn read_old_time(bytes: &[u8]) -> Result<(i32, &[u8]), RowsError>
    ensures { map_reading (λ x. (old_time x.0, x.1.now)) result ≡ cell_at OldTime bytes.now }
{
    let (content, rest) = split_prefix(bytes, 3)?;
    Ok((LittleEndian::read_i24(content), rest))
}

/// Reads the digits `YYYYMMDDhhmmss` of a DATETIME of eight bytes.
#[inline(always)]
#[tactic(auto, unfolding(rows_cells::specs::Cells::cell_at))]
pub(crate) fn read_old_datetime(bytes: &[u8]) -> Result<(u64, &[u8]), RowsError>
    ensures { map_reading (λ x. (old_datetime x.0, x.1.now)) result ≡ cell_at OldDatetime bytes.now }
{
    let (content, rest) = split_prefix(bytes, 8)?;
    Ok((LittleEndian::read_u64(content), rest))
}

/// Reads the seconds and the microseconds of a TIMESTAMP with this many fractional digits.
#[inline(always)]
#[tactic(auto, unfolding(rows_cells::specs::Cells::cell_at))]
pub(crate) fn read_timestamp(bytes: &[u8], decimals: u8) -> Result<((i32, i32), &[u8]), RowsError>
    ensures { map_reading (λ x. (bytes_value (timestamp_text x.0), x.1.now)) result ≡ cell_at (Timestamp2 decimals) bytes.now }
{
    let decimals = u32::from(decimals);
    let (content, rest) = split_prefix(bytes, 4 + fraction_size(decimals))?;
    Ok((timestamp_of(content, decimals), rest))
}

/// Reads this many bytes.
#[inline(always)]
#[tactic(auto, unfolding(rows_cells::specs::Cells::cell_at))]
pub(crate) fn read_sized(bytes: &[u8], len: u16) -> Result<(&[u8], &[u8]), RowsError>
    ensures { map_reading (λ x. (bytes_value x.0.now, x.1.now)) result ≡ cell_at (Plain len) bytes.now }
{
    split_prefix(bytes, usize::from(len))
}

/// The number of bits of eight bytes that a number of each width leaves unused.
static UNUSED_BITS: [u8; 5] = [56, 48, 40, 32, 0];

/// Returns the number that eight bytes begin with, in the highest bits, and the number of bits below it. It comes from a table, so
/// that there is no branch on the width.
#[inline(always)]
fn highest_bits(bytes: &[u8], width: Width) -> (u64, u32)
    requires { 8 ≤ length bytes.now }
    ensures unused { result.1 ≡ 64 - 8 * width_bytes width }
    ensures value { result.0 ≡ little_number (width_bytes width) bytes.now * 2 ^ result.1 }
{
    let unused = u32::from(UNUSED_BITS[width as usize]);
    (LittleEndian::read_u64(bytes) << unused, unused)
}

/// Returns the signed number that eight bytes begin with.
#[inline(always)]
fn signed_of_eight(bytes: &[u8], width: Width) -> i64
    requires { 8 ≤ length bytes.now }
    ensures { result ≡ twos_complement (width_bytes width) (little_number (width_bytes width) bytes.now) }
{
    let (bits, unused) = highest_bits(bytes, width);
    bits.cast_signed() >> unused
}

/// Returns the unsigned number that eight bytes begin with.
#[inline(always)]
fn unsigned_of_eight(bytes: &[u8], width: Width) -> u64
    requires { 8 ≤ length bytes.now }
    ensures { result ≡ little_number (width_bytes width) bytes.now }
{
    let (bits, unused) = highest_bits(bytes, width);
    bits >> unused
}

/// Whether cells are signed integers of four bytes, the most frequent.
#[inline(always)]
fn is_int(format: CellFormat) -> bool
    ensures { OnTrue result (format ≡ Signed Four) }
{
    format == CellFormat::Signed(Width::Four)
}

/// Reads a signed integer of four bytes. `None`: fewer are left.
#[inline(always)]
fn read_int(bytes: &[u8]) -> Option<(i64, &[u8])>
    ensures some { IfSome result (λ x. IsIntegerAt (Signed Four) bytes.now x.0 x.1.now) }
    ensures none { IfNone result (LacksInteger (Signed Four) bytes.now) }
{
    match read_signed(bytes, Width::Four) {
        Ok(read) => Some(read),
        Err(_) => None,
    }
}

/// Reads an integer of any width. `None`: fewer than eight bytes are left, the cell is no integer, or it is 2^63 or more.
#[inline(always)]
fn read_any_integer(bytes: &[u8], format: CellFormat) -> Option<(i64, &[u8])>
    ensures some { IfSome result (λ x. IsIntegerAt format bytes.now x.0 x.1.now) }
    ensures none { IfNone result (LacksInteger format bytes.now) }
{
    if bytes.len() < 8 {
        return None;
    }
    match format {
        CellFormat::Signed(width) => {
            let (_, rest) = bytes.split_at(width.bytes());
            Some((signed_of_eight(bytes, width), rest))
        }
        CellFormat::Unsigned(width) => {
            let (_, rest) = bytes.split_at(width.bytes());
            match i64::try_from(unsigned_of_eight(bytes, width)) {
                Ok(number) => Some((number, rest)),
                Err(_) => None,
            }
        }
        _ => None,
    }
}

/// Does the same; a signed integer of four bytes may be the last cell.
#[inline(always)]
pub(crate) fn read_integer(bytes: &[u8], format: CellFormat) -> Option<(i64, &[u8])>
    ensures some { IfSome result (λ x. IsIntegerAt format bytes.now x.0 x.1.now) }
    ensures none { IfNone result (LacksInteger format bytes.now) }
{
    if is_int(format) {
        return read_int(bytes);
    }
    read_any_integer(bytes, format)
}
