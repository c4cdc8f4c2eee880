//! Arithmetic of packed times: a whole part above 24 bits of microseconds.

ghost use Rattle.std.specs.Prelude.{◌≡◌};
ghost use Rattle.rows_packed_times.specs.PackedTimes.{packed_time, packed_time_int, int_part, frac_part};

/// The factor of a packed time's whole part: 2^24.
const FRACTIONS: i64 = 0x100_0000;

/// Returns the packed time with this whole part and no fraction, modulo 2^64.
pub fn my_packed_time_make_int(i: i64) -> i64
    ensures { result ≡ packed_time_int i }
{
    i.wrapping_mul(FRACTIONS)
}

/// Returns the packed time with this whole part and this fraction in microseconds, modulo 2^64.
pub fn my_packed_time_make(i: i64, f: i64) -> i64
    ensures { result ≡ packed_time i f }
{
    my_packed_time_make_int(i).wrapping_add(f)
}

/// Returns the whole part of a packed time, rounded down.
pub fn my_packed_time_get_int_part(i: i64) -> i64
    ensures { result ≡ int_part i }
{
    i >> 24
}

/// Returns the fraction of a packed time in microseconds, with the sign of the time.
pub fn my_packed_time_get_frac_part(i: i64) -> i64
    ensures { result ≡ frac_part i }
{
    i % FRACTIONS
}
