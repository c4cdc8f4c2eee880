//! Splitting fields off the start of bytes.

ghost use Rattle.std.specs.Prelude.{◌≡◌, ◌≤◌, length};
ghost use Rattle.byteorder.specs.Endian.{little_number};
ghost use Rattle.wire_buf.specs.Numbers.{little_signed};
ghost use Rattle.rows_errors.specs.Readings.{map_reading};
ghost use Rattle.rows_cells.specs.CellFields.{at_width, counted_at};
ghost use Rattle.rows_cells.specs.CellSizes.{width_bytes};

use crate::format::Width;
use byteorder::{ByteOrder, LittleEndian};
use rows_errors::RowsError;

/// Splits off the first `len` bytes, and returns them and the rest; `EndOfBody` if there are fewer.
#[inline(always)]
pub fn split_prefix(bytes: &[u8], len: usize) -> Result<(&[u8], &[u8]), RowsError>
    ensures { map_reading (λ x. (x.0.now, x.1.now)) result ≡ at_width len bytes.now }
{
    if len <= bytes.len() {
        Ok(bytes.split_at(len))
    } else {
        Err(RowsError::EndOfBody)
    }
}

/// Splits off a length field of this width and that many bytes, and returns these bytes and the rest; `EndOfBody` if there are
/// fewer.
#[inline(always)]
pub(crate) fn split_counted(bytes: &[u8], width: Width) -> Result<(&[u8], &[u8]), RowsError>
    ensures { map_reading (λ x. (x.0.now, x.1.now)) result ≡ counted_at (width_bytes width) bytes.now }
{
    let (size, rest) = split_prefix(bytes, width.bytes())?;
    let len = unsigned(size, width);
    if len > rest.len() as u64 {
        return Err(RowsError::EndOfBody);
    }
    Ok(rest.split_at(len as usize))
}

/// Returns the unsigned number in the first bytes, in little-endian order.
#[inline(always)]
pub(crate) fn unsigned(bytes: &[u8], width: Width) -> u64
    requires { width_bytes width ≤ length bytes.now }
    ensures { result ≡ little_number (width_bytes width) bytes.now }
{
    match width {
        Width::One => u64::from(bytes[0]),
        Width::Two => u64::from(LittleEndian::read_u16(bytes)),
        Width::Three => u64::from(LittleEndian::read_u24(bytes)),
        Width::Four => u64::from(LittleEndian::read_u32(bytes)),
        Width::Eight => LittleEndian::read_u64(bytes),
    }
}

/// Returns the signed number in the first bytes, in little-endian order.
#[inline(always)]
pub(crate) fn signed(bytes: &[u8], width: Width) -> i64
    requires { width_bytes width ≤ length bytes.now }
    ensures { result ≡ little_signed (width_bytes width) bytes.now }
{
    match width {
        Width::One => i64::from(bytes[0].cast_signed()),
        Width::Two => i64::from(LittleEndian::read_i16(bytes)),
        Width::Three => i64::from(LittleEndian::read_i24(bytes)),
        Width::Four => i64::from(LittleEndian::read_i32(bytes)),
        Width::Eight => LittleEndian::read_i64(bytes),
    }
}
