//! Reads the packed times of TIME2, DATETIME2 and TIMESTAMP2 cells. MySQL's source: `mysys/my_time.cc`.

ghost use Rattle.std.specs.Prelude.{◌+◌, IfOk, IfErr};
ghost use Rattle.rows_packed_times.specs.PackedTimes.{fraction_len, time2, datetime2, timestamp2};
ghost use Rattle.mysql_binlog_rows.specs.ReadTimes.{ReadsValue, ReadFallsShort};

use rows_errors::RowsError;
use rows_packed_times::{datetime_of, fraction_size, time_of, timestamp_of};
use std::io::Read;
use wire_buf::read_exact;

/// Reads the `TIME2` cell of a column with `dec` fractional digits as a packed time: 3 bytes, and one for
/// every two digits. More than 6 digits count as 0.
///
/// - `EndOfBody`: the input ended within the cell; all of its bytes are taken.
/// - `Read`: the reader failed, or was interrupted 2^63 - 1 times.
pub fn my_time_packed_from_binary<R: Read>(input: &mut R, dec: u32) -> Result<i64, RowsError>
    ensures ok { IfOk result (λ v. ReadsValue (3 + fraction_len dec) (time2 (fraction_len dec)) v
        (R.remaining input.old) (R.remaining input.new)) }
    ensures err { IfErr result
        (λ e. ReadFallsShort e (3 + fraction_len dec) (R.remaining input.old) (R.remaining input.new)) }
{
    let mut buf = [0u8; 6];
    let bytes = &mut buf[..3 + fraction_size(dec)];
    read_exact(input, bytes)?;
    Ok(time_of(bytes, dec))
}

/// Reads the `DATETIME2` cell of a column with `dec` fractional digits as a packed time: 5 bytes, and one for
/// every two digits. More than 6 digits count as 0. The errors are those of [`my_time_packed_from_binary`].
pub fn my_datetime_packed_from_binary<R: Read>(input: &mut R, dec: u32) -> Result<i64, RowsError>
    ensures ok { IfOk result (λ v. ReadsValue (5 + fraction_len dec) (datetime2 (fraction_len dec)) v
        (R.remaining input.old) (R.remaining input.new)) }
    ensures err { IfErr result
        (λ e. ReadFallsShort e (5 + fraction_len dec) (R.remaining input.old) (R.remaining input.new)) }
{
    let mut buf = [0u8; 8];
    let bytes = &mut buf[..5 + fraction_size(dec)];
    read_exact(input, bytes)?;
    Ok(datetime_of(bytes, dec))
}

/// Reads the `TIMESTAMP2` cell of a column with `dec` fractional digits as seconds since 1970 and
/// microseconds: 4 bytes, and one for every two digits. More than 6 digits count as 0. The errors are those
/// of [`my_time_packed_from_binary`].
pub fn my_timestamp_from_binary<R: Read>(input: &mut R, dec: u8) -> Result<(i32, i32), RowsError>
    ensures ok { IfOk result (λ v. ReadsValue (4 + fraction_len dec) (timestamp2 (fraction_len dec)) v
        (R.remaining input.old) (R.remaining input.new)) }
    ensures err { IfErr result
        (λ e. ReadFallsShort e (4 + fraction_len dec) (R.remaining input.old) (R.remaining input.new)) }
{
    let mut buf = [0u8; 7];
    let bytes = &mut buf[..4 + fraction_size(u32::from(dec))];
    read_exact(input, bytes)?;
    Ok(timestamp_of(bytes, u32::from(dec)))
}
