//! The values of the bytes in TIME2, DATETIME2 and TIMESTAMP2 cells. MySQL's source: `mysys/my_time.cc`.

ghost use Rattle.std.specs.Prelude.{◌≡◌, ◌+◌, ◌≤◌, ◌<◌, ◌^◌, pos, length};
ghost use Rattle.byteorder.specs.Endian.{big_number};
ghost use Rattle.rows_packed_times.specs.PackedTimes.{fraction_len, fraction, time2, datetime2, timestamp2};

use crate::packed::{my_packed_time_make, my_packed_time_make_int};
use byteorder::{BigEndian, ByteOrder};

/// The offset of the three bytes of a `TIME2` without a fraction.
pub const TIMEF_INT_OFS: i64 = 0x80_0000;

/// The offset of the six bytes of a `TIME2` with microseconds.
pub const TIMEF_OFS: i64 = 0x8000_0000_0000;

/// The offset of the first five bytes of a `DATETIME2`.
pub const DATETIMEF_INT_OFS: i64 = 0x80_0000_0000;

/// Returns the number of bytes of the fraction of a cell with `dec` fractional digits: one for every two
/// digits. More than 6 digits count as 0.
pub fn fraction_size(dec: u32) -> usize
    ensures value { result ≡ fraction_len dec }
    ensures bound { result ≤ 3 }
{
    match dec {
        1 | 2 => 1,
        3 | 4 => 2,
        5 | 6 => 3,
        _ => 0,
    }
}

/// Returns the packed time of the `TIME2` cell with `dec` fractional digits at the start of the bytes: 3
/// bytes and those of the fraction.
pub fn time_of(bytes: &[u8], dec: u32) -> i64
    requires { 3 + fraction_len dec ≤ length bytes.now }
    ensures { result ≡ time2 (fraction_len dec) bytes.now }
{
    time_with_fraction(bytes, fraction_size(dec))
}

/// Returns the packed time of the `DATETIME2` cell with `dec` fractional digits at the start of the bytes: 5
/// bytes and those of the fraction.
pub fn datetime_of(bytes: &[u8], dec: u32) -> i64
    requires { 5 + fraction_len dec ≤ length bytes.now }
    ensures { result ≡ datetime2 (fraction_len dec) bytes.now }
{
    datetime_with_fraction(bytes, fraction_size(dec))
}

/// Returns the seconds since 1970 and the microseconds of the `TIMESTAMP2` cell with `dec` fractional digits
/// at the start of the bytes: 4 bytes and those of the fraction.
pub fn timestamp_of(bytes: &[u8], dec: u32) -> (i32, i32)
    requires { 4 + fraction_len dec ≤ length bytes.now }
    ensures { result ≡ timestamp2 (fraction_len dec) bytes.now }
{
    timestamp_with_fraction(bytes, fraction_size(dec))
}

/// Returns the packed time of a `TIME2` cell whose fraction has `fraction_bytes` bytes.
fn time_with_fraction(bytes: &[u8], fraction_bytes: usize) -> i64
    requires low { fraction_bytes ≤ 3 }
    requires room { 3 + fraction_bytes ≤ length bytes.now }
    ensures { result ≡ time2 fraction_bytes bytes.now }
{
    // Both parts are rounded toward zero, so that the fraction has the sign of the whole.
    match fraction_bytes {
        1 => {
            let time = big_endian(bytes, 4) - TIMEF_INT_OFS * 0x100;
            my_packed_time_make(time / 0x100, time % 0x100 * 10_000)
        }
        2 => {
            let time = big_endian(bytes, 5) - TIMEF_INT_OFS * 0x1_0000;
            my_packed_time_make(time / 0x1_0000, time % 0x1_0000 * 100)
        }
        3 => big_endian(bytes, 6) - TIMEF_OFS,
        _ => my_packed_time_make_int(big_endian(bytes, 3) - TIMEF_INT_OFS),
    }
}

/// Returns the packed time of a `DATETIME2` cell whose fraction has `fraction_bytes` bytes.
fn datetime_with_fraction(bytes: &[u8], fraction_bytes: usize) -> i64
    requires low { fraction_bytes ≤ 3 }
    requires room { 5 + fraction_bytes ≤ length bytes.now }
    ensures { result ≡ datetime2 fraction_bytes bytes.now }
{
    let whole = big_endian(bytes, 5) - DATETIMEF_INT_OFS;
    my_packed_time_make(whole, i64::from(fraction_of(&bytes[5..], fraction_bytes)))
}

/// Returns the seconds and microseconds of a `TIMESTAMP2` cell whose fraction has `fraction_bytes` bytes.
fn timestamp_with_fraction(bytes: &[u8], fraction_bytes: usize) -> (i32, i32)
    requires low { fraction_bytes ≤ 3 }
    requires room { 4 + fraction_bytes ≤ length bytes.now }
    ensures { result ≡ timestamp2 fraction_bytes bytes.now }
{
    (
        BigEndian::read_i32(bytes),
        fraction_of(&bytes[4..], fraction_bytes),
    )
}

/// Returns a fraction of `fraction_bytes` bytes in microseconds.
fn fraction_of(bytes: &[u8], fraction_bytes: usize) -> i32
    requires low { fraction_bytes ≤ 3 }
    requires room { fraction_bytes ≤ length bytes.now }
    ensures { result ≡ fraction fraction_bytes bytes.now }
{
    match fraction_bytes {
        1 => i32::from(bytes[0].cast_signed()) * 10_000,
        2 => i32::from(BigEndian::read_i16(bytes)) * 100,
        3 => BigEndian::read_i24(bytes),
        _ => 0,
    }
}

/// Returns the big-endian number in the first n bytes.
fn big_endian(bytes: &[u8], n: usize) -> i64
    requires low { 3 ≤ n }
    requires high { n ≤ 6 }
    requires room { n ≤ length bytes.now }
    ensures value { result ≡ pos (big_number n bytes.now) }
    ensures bound { big_number n bytes.now < 256 ^ n }
{
    BigEndian::read_uint(bytes, n) as i64
}
