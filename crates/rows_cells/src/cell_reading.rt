//! Reading the cell that bytes begin with.

ghost use Rattle.std.specs.Prelude.{◌≡◌, ◌≤◌, IfOk, IfSome, IfNone, Ok, length, take, drop};
ghost use Rattle.rows_values.specs.Unpacked.{packed_text};
ghost use Rattle.rows_errors.specs.Readings.{map_reading};
ghost use Rattle.rows_cells.specs.CellSizes.{cell_size, decimal_size};
ghost use Rattle.rows_cells.specs.declared.format.Width.TheVariants.{One};
ghost use Rattle.rows_cells.specs.declared.format.CellFormat.TheVariants.{Signed, Unsigned, Counted, Datetime2, Time2};
ghost use Rattle.rows_cells.specs.CellValues.{int, bytes as bytes_value, cell_date, cell_time, content_value, decimal_value};
ghost use Rattle.rows_cells.specs.Cells.{content_at, cell_at, IsSized, LacksShortString};
ghost use Rattle.rows_cells.specs.CellViews.{cell_value, IsReadable};

use crate::cell::CellRef;
use crate::fields::{signed, split_counted, split_prefix, unsigned};
use crate::format::{CellFormat, Width};
use byteorder::{ByteOrder, LittleEndian};
use rows_errors::RowsError;
use rows_jsonb::{Value, check_json_diffs};
use rows_values::{
    datetime_of, decimal_bin_size, fraction_size, packs_decimal, time_of, timestamp_of,
};
use wire_buf::ParseBuf;

/// Reads the cell that the bytes begin with, and returns its value and the bytes after it. It takes no memory.
///
/// - `EndOfBody`: the bytes end within the cell.
/// - `Metadata`, `Cell`: the column has no cells that can be read.
/// - `Decimal`: the bytes pack no decimal.
/// - `Jsonb`: a JSON document or diff can't be read.
#[inline(always)]
#[tactic(auto, unfolding(crate::specs::Cells::cell_at))]
pub fn read_cell(format: CellFormat, bytes: &[u8]) -> Result<(CellRef<'_>, &[u8]), RowsError>
    ensures value { map_reading (λ x. (cell_value x.0, x.1.now)) result ≡ cell_at format bytes.now }
    ensures readable { IfOk result (λ x. IsReadable x.0) }
{
    let (content, rest) = split_content(format, bytes)?;
    let cell = cell_of(format, content)?;
    Ok((cell, rest))
}

/// Reads a signed number of this width; returns it and the bytes after it, or `EndOfBody` if there are fewer bytes.
#[inline(always)]
#[tactic(auto, unfolding(crate::specs::Cells::cell_at))]
pub fn read_signed(bytes: &[u8], width: Width) -> Result<(i64, &[u8]), RowsError>
    ensures { map_reading (λ x. (int x.0, x.1.now)) result ≡ cell_at (Signed width) bytes.now }
{
    let (content, rest) = split_prefix(bytes, width.bytes())?;
    Ok((signed(content, width), rest))
}

/// Reads a cell with an unsigned number of this width; returns it and the bytes after it, or `EndOfBody` if there are fewer
/// bytes.
#[inline(always)]
#[tactic(auto, unfolding(crate::specs::Cells::cell_at))]
pub fn read_unsigned(bytes: &[u8], width: Width) -> Result<(CellRef<'_>, &[u8]), RowsError>
    ensures { map_reading (λ x. (cell_value x.0, x.1.now)) result ≡ cell_at (Unsigned width) bytes.now }
{
    let (content, rest) = split_prefix(bytes, width.bytes())?;
    let number = unsigned(content, width);
    match width {
        Width::Eight => Ok((CellRef::UInt(number), rest)),
        _ => Ok((CellRef::Int(number as i64), rest)),
    }
}

/// Reads a length field of this width and that many bytes; returns these bytes and the bytes after them, or `EndOfBody` if there
/// are fewer.
#[inline(always)]
#[tactic(auto, unfolding(crate::specs::Cells::cell_at))]
pub fn read_bytes(bytes: &[u8], width: Width) -> Result<(&[u8], &[u8]), RowsError>
    ensures { map_reading (λ x. (bytes_value x.0.now, x.1.now)) result ≡ cell_at (Counted width) bytes.now }
{
    split_counted(bytes, width)
}

/// Reads a cell of at most 16 bytes after a one-byte length. Returns all bytes after the length (at least 16), the length of the
/// cell, and the bytes after the cell.
///
/// Returns None if the cell has more than 16 bytes or is incomplete, or if fewer than 16 bytes follow the length.
#[inline(always)]
#[tactic(auto, unfolding(crate::specs::Cells::cell_at))]
pub fn read_few_bytes(bytes: &[u8]) -> Option<(&[u8], usize, &[u8])>
    ensures few { IfSome result (λ x. x.1 ≤ 16) }
    ensures sixteen { IfSome result (λ x. 16 ≤ length x.0.now) }
    ensures cell { IfSome result (λ x. cell_at (Counted One) bytes.now ≡ Ok (bytes_value (take x.1 x.0.now), x.2.now)) }
    ensures after { IfSome result (λ x. x.0.now ≡ drop 1 bytes.now) }
    ensures none { IfNone result (LacksShortString bytes.now) }
{
    let Ok((size, after)) = split_prefix(bytes, 1) else {
        return None;
    };
    let len = unsigned(size, Width::One);
    if len > 16 || after.len() < 16 {
        return None;
    }
    let Ok((_, rest)) = split_prefix(after, len as usize) else {
        return None;
    };
    Some((after, len as usize, rest))
}

/// Reads a packed date and time with this many fractional digits; returns it and the bytes after it, or `EndOfBody` if it is
/// incomplete.
#[inline(always)]
#[tactic(auto, unfolding(crate::specs::Cells::cell_at))]
pub fn read_datetime(bytes: &[u8], decimals: u8) -> Result<(i64, &[u8]), RowsError>
    ensures { map_reading (λ x. (cell_date x.0, x.1.now)) result ≡ cell_at (Datetime2 decimals) bytes.now }
{
    let decimals = u32::from(decimals);
    let (content, rest) = split_prefix(bytes, 5 + fraction_size(decimals))?;
    Ok((datetime_of(content, decimals), rest))
}

/// Reads a packed TIME with this many fractional digits; returns it and the bytes after it, or `EndOfBody` if it is incomplete.
#[inline(always)]
#[tactic(auto, unfolding(crate::specs::Cells::cell_at))]
pub fn read_time(bytes: &[u8], decimals: u8) -> Result<(i64, &[u8]), RowsError>
    ensures { map_reading (λ x. (cell_time x.0, x.1.now)) result ≡ cell_at (Time2 decimals) bytes.now }
{
    let decimals = u32::from(decimals);
    let (content, rest) = split_prefix(bytes, 3 + fraction_size(decimals))?;
    Ok((time_of(content, decimals), rest))
}

/// Returns the content of the cell that the bytes begin with, without its length field, and the bytes after the cell.
#[inline(always)]
fn split_content(format: CellFormat, bytes: &[u8]) -> Result<(&[u8], &[u8]), RowsError>
    ensures value { map_reading (λ x. (x.0.now, x.1.now)) result ≡ content_at (cell_size format) bytes.now }
    ensures sized { IfOk result (λ x. IsSized (cell_size format) x.0.now) }
{
    match format {
        CellFormat::Signed(width) | CellFormat::Unsigned(width) => split_prefix(
            bytes,
            width.bytes(),
        ),
        CellFormat::Float => split_prefix(bytes, 4),
        CellFormat::Double | CellFormat::OldDatetime => split_prefix(bytes, 8),
        CellFormat::Year => split_prefix(bytes, 1),
        CellFormat::NewDate | CellFormat::OldTime => split_prefix(bytes, 3),
        CellFormat::Timestamp2(decimals) => {
            split_prefix(bytes, 4 + fraction_size(u32::from(decimals)))
        }
        CellFormat::Datetime2(decimals) => split_prefix(
            bytes,
            5 + fraction_size(u32::from(decimals)),
        ),
        CellFormat::Time2(decimals) => split_prefix(bytes, 3 + fraction_size(u32::from(decimals))),
        CellFormat::Decimal(precision, scale) => split_decimal(bytes, precision, scale),
        CellFormat::Plain(len) => split_prefix(bytes, usize::from(len)),
        CellFormat::Counted(width) => split_counted(bytes, width),
        CellFormat::Json | CellFormat::JsonDiffs => split_counted(bytes, Width::Four),
        CellFormat::NoMetadata => Err(RowsError::Metadata),
        CellFormat::NoCells => Err(RowsError::Cell),
    }
}

/// Splits off the bytes of a packed decimal of `precision` digits, `scale` of them after the point, and returns them and the
/// rest. It doesn't check that the bytes pack a decimal.
///
/// - `Decimal`: `scale` exceeds `precision`.
/// - `EndOfBody`: there are fewer bytes.
#[inline(always)]
pub fn split_decimal(bytes: &[u8], precision: u8, scale: u8) -> Result<(&[u8], &[u8]), RowsError>
    ensures { map_reading (λ x. (x.0.now, x.1.now)) result ≡ content_at (decimal_size precision scale) bytes.now }
{
    if scale > precision {
        return Err(RowsError::Decimal);
    }
    split_prefix(
        bytes,
        decimal_bin_size(usize::from(precision), usize::from(scale)),
    )
}

/// Returns the value of a cell's content.
#[inline(always)]
fn cell_of(format: CellFormat, content: &[u8]) -> Result<CellRef<'_>, RowsError>
    requires { IsSized (cell_size format) content.now }
    ensures value { map_reading cell_value result ≡ content_value format content.now }
    ensures readable { IfOk result IsReadable }
{
    match format {
        CellFormat::Signed(width) => Ok(CellRef::Int(signed(content, width))),
        CellFormat::Unsigned(Width::Eight) => Ok(CellRef::UInt(unsigned(content, Width::Eight))),
        CellFormat::Unsigned(width) => Ok(CellRef::Int(unsigned(content, width) as i64)),
        CellFormat::Float => Ok(CellRef::Float(LittleEndian::read_u32(content))),
        CellFormat::Double => Ok(CellRef::Double(LittleEndian::read_u64(content))),
        CellFormat::Year => Ok(CellRef::Year(content[0])),
        CellFormat::NewDate => Ok(CellRef::NewDate(LittleEndian::read_u24(content))),
        CellFormat::OldTime => Ok(CellRef::OldTime(LittleEndian::read_i24(content))),
        CellFormat::OldDatetime => Ok(CellRef::OldDatetime(LittleEndian::read_u64(content))),
        CellFormat::Timestamp2(decimals) => {
            let (seconds, micros) = timestamp_of(content, u32::from(decimals));
            Ok(CellRef::Timestamp(seconds, micros))
        }
        CellFormat::Datetime2(decimals) => {
            Ok(CellRef::Datetime(datetime_of(content, u32::from(decimals))))
        }
        CellFormat::Time2(decimals) => Ok(CellRef::Time(time_of(content, u32::from(decimals)))),
        CellFormat::Decimal(precision, scale) => decimal_of(content, precision, scale),
        CellFormat::Plain(_) | CellFormat::Counted(_) => Ok(CellRef::Bytes(content)),
        CellFormat::Json => match Value::read_document(&mut ParseBuf(content)) {
            Ok(_) => Ok(CellRef::Json(content)),
            Err(fault) => Err(fault),
        },
        CellFormat::JsonDiffs => match check_json_diffs(content) {
            Ok(()) => Ok(CellRef::JsonDiffs(content)),
            Err(fault) => Err(fault),
        },
        CellFormat::NoMetadata => Err(RowsError::Metadata),
        CellFormat::NoCells => Err(RowsError::Cell),
    }
}

/// Returns a decimal, if the bytes pack one.
#[inline(always)]
fn decimal_of(content: &[u8], precision: u8, scale: u8) -> Result<CellRef<'_>, RowsError>
    ensures value { map_reading cell_value result ≡ decimal_value (packed_text precision scale content.now) }
    ensures readable { IfOk result IsReadable }
{
    if !packs_decimal(content, usize::from(precision), usize::from(scale)) {
        return Err(RowsError::Decimal);
    }
    Ok(CellRef::Decimal(precision, scale, content))
}
