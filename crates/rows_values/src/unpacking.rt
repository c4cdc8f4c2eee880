//! Reads the packed format of a decimal.

ghost use Rattle.std.specs.Prelude.{◌≡◌, ◌≤◌, ◌<◌, ◌-◌, ◌*◌, ◌^◌, ◌++◌, ◌/◌, ◌⊎◌, Some, None, OnOk, IfOk, IfErr, true, false, length, if◌then◌else◌};
ghost use Rattle.rows_errors.specs.declared.fault.RowsError.TheVariants.{Decimal as BadDecimal, Memory};
ghost use Rattle.rows_values.specs.Digits.{AreDigits, group_size as group_size_of, side_size as side_size_of, group_bytes, nines_bytes, before_bytes, after_bytes, digits_in};
ghost use Rattle.rows_values.specs.Steps.{AppendsDigits, NoDigits};
ghost use Rattle.rows_values.specs.PackedTexts.{flipped_back};
ghost use Rattle.rows_values.specs.Decimals.{decimal_parts, packed_size, some_digit, without_zero_groups, Unpacks, NonePacked, ReadsDecimal, FailsDecimal, ReadsPacked, FailsPacked};
ghost use Rattle.rows_values.specs.Unpacked.{unpacked, normalized_of, packed_value, packed_fault};

use crate::digits::{DIG_PER_DEC, GROUP_BYTES, decimal_bin_size, group_size, leading, side_size};
use crate::fields::Decimal;
use crate::group_number::{group_number, has_minus_bit, is_first};
use rows_errors::RowsError;
use std::alloc::{AllocError, Global};
use std::io::Read;
use wire_buf::{read_exact, read_more};

impl Decimal {
    /// Reads the packed format of a column value with `precision` digits, `scale` of them after the point.
    /// Leading groups of zeros before the point (nine digits, or the shorter first group) are dropped unless
    /// `keep_precision`; if no digit is left on either side, the result is one zero without a sign.
    ///
    /// - `Decimal`: `scale` exceeds `precision`, and nothing is read; or a group of k digits is 10^k or more.
    /// - `EndOfBody`: the input ended too early.
    /// - `Read`: the reader failed.
    /// - `Memory`: out of memory.
    ///
    /// MySQL's source: `bin2decimal`.
    pub fn read_bin<R: Read>(
        alloc: Global,
        input: &mut R,
        precision: usize,
        scale: usize,
        keep_precision: bool,
    ) -> Result<Decimal, RowsError>
        ensures ok { IfOk result (λ d. ReadsDecimal keep_precision precision scale (decimal_parts d)
            (R.remaining input.old) (R.remaining input.new)) }
        ensures err { IfErr result (λ e. FailsDecimal precision scale e
            (R.remaining input.old) (R.remaining input.new)) }
    {
        if scale > precision {
            return Err(RowsError::Decimal);
        }
        let mut bytes = Vec::new(alloc);
        read_more(input, decimal_bin_size(precision, scale) as u64, &mut bytes)?;
        unpack(alloc, &bytes, precision - scale, scale, keep_precision)
    }

    /// Returns the decimal that all of the bytes pack, with `precision` digits, `scale` of them after the
    /// point. Leading zero groups are dropped as in `read_bin`.
    ///
    /// - `Decimal`: `scale` exceeds `precision`, there aren't exactly `decimal_bin_size(precision, scale)`
    ///   bytes, or a group of k digits is 10^k or more.
    /// - `Memory`: out of memory.
    pub fn from_bin(
        alloc: Global,
        bytes: &[u8],
        precision: usize,
        scale: usize,
        keep_precision: bool,
    ) -> Result<Decimal, RowsError>
        ensures ok { IfOk result (λ d. normalized_of keep_precision (unpacked precision scale bytes.now) ≡ Some (decimal_parts d)) }
        ensures err { IfErr result (λ e. e ≡ Memory ⊎ ((e ≡ BadDecimal) × (unpacked precision scale bytes.now ≡ None))) }
    {
        if precision < scale {
            return Err(RowsError::Decimal);
        }
        if bytes.len() != decimal_bin_size(precision, scale) {
            return Err(RowsError::Decimal);
        }
        unpack(alloc, bytes, precision - scale, scale, keep_precision)
    }

    /// Returns the decimal at the start of bytes in a JSON document: its precision and its scale in one byte
    /// each, then its packed format. The bytes after it are ignored.
    ///
    /// - `EndOfBody`: the bytes end too early.
    /// - `Decimal`: the scale exceeds the precision, or a group of k digits is 10^k or more.
    /// - `Memory`: out of memory.
    pub fn from_packed(
        alloc: Global,
        bytes: &[u8],
        keep_precision: bool,
    ) -> Result<Decimal, RowsError>
        ensures ok { IfOk result (λ d. normalized_of keep_precision (packed_value bytes.now) ≡ Some (decimal_parts d)) }
        ensures err { IfErr result (λ e. e ≡ Memory ⊎ ((e ≡ packed_fault bytes.now) × (packed_value bytes.now ≡ None))) }
    {
        if bytes.len() < 2 {
            return Err(RowsError::EndOfBody);
        }
        let (precision, scale) = (usize::from(bytes[0]), usize::from(bytes[1]));
        if precision < scale {
            return Err(RowsError::Decimal);
        }
        let size = decimal_bin_size(precision, scale);
        let rest = &bytes[2..];
        if rest.len() < size {
            return Err(RowsError::EndOfBody);
        }
        Decimal::from_bin(alloc, &rest[..size], precision, scale, keep_precision)
    }

    /// Reads the format of JSON documents: precision and scale in one byte each, then the packed format. The
    /// errors are those of `read_bin`.
    pub fn read_packed<R: Read>(
        alloc: Global,
        input: &mut R,
        keep_precision: bool,
    ) -> Result<Decimal, RowsError>
        ensures ok { IfOk result (λ d. ReadsPacked keep_precision (decimal_parts d)
            (R.remaining input.old) (R.remaining input.new)) }
        ensures err { IfErr result
            (λ e. FailsPacked e (R.remaining input.old) (R.remaining input.new)) }
    {
        let mut sizes = [0u8; 2];
        read_exact(input, &mut sizes)?;
        let [precision, scale] = sizes;
        Decimal::read_bin(
            alloc,
            input,
            usize::from(precision),
            usize::from(scale),
            keep_precision,
        )
    }
}

/// Returns the decimal that the bytes pack, with `before` and `after` digits before and after the point.
fn unpack(
    alloc: Global,
    bytes: &[u8],
    before: usize,
    after: usize,
    keep: bool,
) -> Result<Decimal, RowsError>
    requires { length bytes.now ≡ packed_size before after }
    ensures ok { IfOk result (λ d. Unpacks keep before after (decimal_parts d) bytes.now) }
    ensures err { IfErr result (λ e. e ≡ Memory ⊎ ((e ≡ BadDecimal) × NonePacked before after bytes.now)) }
{
    let negative = has_minus_bit(bytes);
    let (prefix, back) = bytes.split_at(side_size(before));
    let mut whole = Vec::with_capacity(alloc, before)?;
    unpack_before(prefix, negative, before, &mut whole)?;
    let mut fraction = Vec::with_capacity(alloc, after)?;
    unpack_after(back, negative, prefix.is_empty(), after, &mut fraction)?;
    drop_zero_groups(&mut whole, keep);
    let decimal = finish(alloc, negative, whole, fraction)?;
    Ok(decimal)
}

/// Returns the decimal of these digits, or zero if there are none.
fn finish(
    alloc: Global,
    negative: bool,
    before: Vec<u8>,
    after: Vec<u8>,
) -> Result<Decimal, AllocError>
    requires before_are { AreDigits before.items }
    requires after_are { AreDigits after.items }
    ensures { IfOk result (λ d. decimal_parts d ≡ some_digit
        (record { negative = negative; before = before.items; after = after.items })) }
{
    if before.is_empty() && after.is_empty() {
        return Decimal::zero(alloc);
    }
    Ok(Decimal {
        negative,
        before,
        after,
    })
}

/// Drops the leading zero groups, unless `keep`.
fn drop_zero_groups(digits: &mut Vec<u8>, keep: bool)
    ensures { digits.new.items ≡ (if keep then digits.old.items else without_zero_groups digits.old.items) }
{
    if keep {
        return;
    }
    let shown = digits.len() - leading(digits, 0);
    let groups = shown / DIG_PER_DEC + usize::from(shown % DIG_PER_DEC > 0);
    let unused = digits.len().saturating_sub(DIG_PER_DEC * groups);
    drop(digits.drain(..unused));
}

/// Appends the digits before the point from packed bytes. `negative`: the decimal is negative.
fn unpack_before(
    bytes: &[u8],
    negative: bool,
    count: usize,
    digits: &mut Vec<u8>,
) -> Result<(), RowsError>
    requires { length bytes.now ≡ side_size_of count }
    ensures ok { OnOk result (AppendsDigits before_bytes count (flipped_back negative true bytes.now) digits.old.items digits.new.items) }
    ensures err { IfErr result (λ e. e ≡ Memory ⊎ ((e ≡ BadDecimal) × NoDigits before_bytes count (flipped_back negative true bytes.now))) }
{
    let left = count % DIG_PER_DEC;
    let (prefix, rest) = bytes.split_at(group_size(left));
    unpack_group(prefix, negative, true, left, digits)?;
    unpack_nines(
        rest,
        negative,
        prefix.is_empty(),
        count / DIG_PER_DEC,
        digits,
    )
}

/// Appends the digits after the point. `top`: there are none before it.
fn unpack_after(
    bytes: &[u8],
    negative: bool,
    top: bool,
    count: usize,
    digits: &mut Vec<u8>,
) -> Result<(), RowsError>
    requires { length bytes.now ≡ side_size_of count }
    ensures ok { OnOk result (AppendsDigits after_bytes count (flipped_back negative top bytes.now) digits.old.items digits.new.items) }
    ensures err { IfErr result (λ e. e ≡ Memory ⊎ ((e ≡ BadDecimal) × NoDigits after_bytes count (flipped_back negative top bytes.now))) }
{
    let whole = count / DIG_PER_DEC;
    let (prefix, rest) = bytes.split_at(GROUP_BYTES * whole);
    unpack_nines(prefix, negative, top, whole, digits)?;
    unpack_group(
        rest,
        negative,
        is_first(top, whole),
        count % DIG_PER_DEC,
        digits,
    )
}

/// Appends the digits of groups of nine. `top`: no group precedes them.
fn unpack_nines(
    bytes: &[u8],
    negative: bool,
    top: bool,
    count: usize,
    digits: &mut Vec<u8>,
) -> Result<(), RowsError>
    requires { length bytes.now ≡ 4 * count }
    ensures ok { OnOk result (AppendsDigits (nines_bytes count) (9 * count) (flipped_back negative top bytes.now) digits.old.items digits.new.items) }
    ensures err { IfErr result (λ e. e ≡ Memory ⊎ ((e ≡ BadDecimal) × NoDigits (nines_bytes count) (9 * count) (flipped_back negative top bytes.now))) }
{
    for i in 0..count {
        let group = &bytes[GROUP_BYTES * i..GROUP_BYTES * i + GROUP_BYTES];
        unpack_group(group, negative, is_first(top, i), DIG_PER_DEC, digits)?;
    }
    Ok(())
}

/// Appends the digits of one group. `top`: it is the first of all.
fn unpack_group(
    bytes: &[u8],
    negative: bool,
    top: bool,
    count: usize,
    digits: &mut Vec<u8>,
) -> Result<(), RowsError>
    requires few { count ≤ 9 }
    requires size { length bytes.now ≡ group_size_of count }
    ensures ok { OnOk result (AppendsDigits group_bytes count (flipped_back negative top bytes.now) digits.old.items digits.new.items) }
    ensures err { IfErr result (λ e. e ≡ Memory ⊎ ((e ≡ BadDecimal) × NoDigits group_bytes count (flipped_back negative top bytes.now))) }
{
    push_digits(group_number(bytes, negative, top), count, digits)
}

/// Appends the last `count` digits of a number, if it has no more.
fn push_digits(number: u32, count: usize, digits: &mut Vec<u8>) -> Result<(), RowsError>
    requires { count ≤ 9 }
    ensures ok { OnOk result ((number < 10 ^ count)
        × (digits.new.items ≡ digits.old.items ++ digits_in count number)) }
    ensures err { IfErr result (λ e. e ≡ Memory ⊎ ((e ≡ BadDecimal) × (10 ^ count ≤ number))) }
{
    let mut group = [0; DIG_PER_DEC];
    let positions = &mut group[..count];
    if !put_digits(number, positions) {
        return Err(RowsError::Decimal);
    }
    digits.extend_from_slice(positions)?;
    Ok(())
}

/// Writes the last digits of a number over `positions`. Returns whether it has no more.
fn put_digits(number: u32, positions: &mut [u8]) -> bool
    ensures digits { positions.new ≡ digits_in (length positions.old) number }
    ensures fits { result ≡ true → number < 10 ^ length positions.old }
    ensures past { result ≡ false → 10 ^ length positions.old ≤ number }
{
    let mut left = number;
    let mut at = positions.len();
    while at > 0 {
        at -= 1;
        positions[at] = (left % 10) as u8;
        left /= 10;
    }
    left == 0
}
