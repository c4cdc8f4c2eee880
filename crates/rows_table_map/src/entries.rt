//! Entries that bytes begin with, and the remaining entries of a list.

ghost use Rattle.std.specs.Prelude.{◌≡◌};
ghost use Rattle.std.specs.Iterator.{YieldsFirst, YieldsFirstBy};
ghost use Rattle.wire_fields.specs.IntFaults.{lenenc_fault};
ghost use Rattle.rows_errors.specs.ConvertedFaults.{rows_error};
ghost use Rattle.rows_errors.specs.Readings.{map_reading};
ghost use Rattle.rows_table_map.specs.Entries.{lenenc_at, string_at, pair_at};
ghost use Rattle.rows_table_map.specs.MetadataFields.{tagged_at, tagged};
ghost use Rattle.rows_table_map.specs.Lists.{numbers, strings, pairs};

use rows_errors::RowsError;
use wire_buf::ParseBuf;

/// Reads a length-encoded integer; returns it and the bytes after it.
///
/// - `UnknownNumber`: the first byte is 251 or 255.
/// - `EndOfBody`: bytes are missing.
pub(crate) fn split_number(bytes: &[u8]) -> Result<(u64, &[u8]), RowsError>
    ensures { map_reading (λ x. (x.0, x.1.now)) result ≡ lenenc_at bytes.now }
{
    let mut rest = ParseBuf(bytes);
    match rest.checked_eat_lenenc_int() {
        Some(number) => Ok((number, rest.0)),
        None => Err(fault_of(bytes)),
    }
}

/// Returns why the bytes don't begin with a length-encoded integer.
fn fault_of(bytes: &[u8]) -> RowsError
    ensures { result ≡ rows_error (lenenc_fault bytes.now) }
{
    match bytes.first() {
        Some(251 | 255) => RowsError::UnknownNumber,
        _ => RowsError::EndOfBody,
    }
}

/// Reads a length-encoded string; returns it and the bytes after it. Returns the errors of `split_number`, and `EndOfBody` if the
/// string is incomplete.
pub(crate) fn split_string(bytes: &[u8]) -> Result<(&[u8], &[u8]), RowsError>
    ensures { map_reading (λ x. (x.0.now, x.1.now)) result ≡ string_at bytes.now }
{
    let (len, rest) = split_number(bytes)?;
    if len > rest.len() as u64 {
        return Err(RowsError::EndOfBody);
    }
    Ok(rest.split_at(len as usize))
}

/// Reads two length-encoded integers; returns them and the bytes after them, or the errors of `split_number`.
pub(crate) fn split_pair(bytes: &[u8]) -> Result<((u64, u64), &[u8]), RowsError>
    ensures { map_reading (λ x. (x.0, x.1.now)) result ≡ pair_at bytes.now }
{
    let (first, rest) = split_number(bytes)?;
    let (second, rest) = split_number(rest)?;
    Ok(((first, second), rest))
}

/// Reads a byte and a length-encoded string; returns them and the bytes after them. Returns `EndOfBody` if there is no byte, and
/// the errors of `split_string`.
pub(crate) fn split_tagged(bytes: &[u8]) -> Result<((u8, &[u8]), &[u8]), RowsError>
    ensures { map_reading (λ x. ((x.0.0, x.0.1.now), x.1.now)) result ≡ tagged_at bytes.now }
{
    match bytes {
        [] => Err(RowsError::EndOfBody),
        [tag, rest @ ..] => {
            let (value, rest) = split_string(rest)?;
            Ok(((*tag, value), rest))
        }
    }
}

/// The remaining entries of a list. After an error there are none.
#[derive(Clone, Copy)]
pub(crate) struct Entries<'a> {
    bytes: &'a [u8],
}

impl<'a> Entries<'a> {
    /// Returns the entries in these bytes.
    pub(crate) fn of(bytes: &'a [u8]) -> Entries<'a>
        ensures { result.bytes ≡ bytes.entry }
    {
        Entries { bytes }
    }

    /// Returns the next entry, a number.
    pub(crate) fn next_number(&mut self) -> Option<Result<u64, RowsError>>
        ensures { YieldsFirst (λ s. numbers s.bytes.now) self.old result self.new }
    {
        if self.bytes.is_empty() {
            return None;
        }
        match split_number(self.bytes) {
            Ok((number, rest)) => {
                self.bytes = rest;
                Some(Ok(number))
            }
            Err(fault) => {
                self.bytes = &[];
                Some(Err(fault))
            }
        }
    }

    /// Returns the next entry, a string.
    pub(crate) fn next_string(&mut self) -> Option<Result<&'a [u8], RowsError>>
        ensures { YieldsFirstBy (map_reading (λ x. x.now)) (λ s. strings s.bytes.now) self.old result self.new }
    {
        if self.bytes.is_empty() {
            return None;
        }
        match split_string(self.bytes) {
            Ok((string, rest)) => {
                self.bytes = rest;
                Some(Ok(string))
            }
            Err(fault) => {
                self.bytes = &[];
                Some(Err(fault))
            }
        }
    }

    /// Returns the next entry, a pair of numbers.
    pub(crate) fn next_pair(&mut self) -> Option<Result<(u64, u64), RowsError>>
        ensures { YieldsFirst (λ s. pairs s.bytes.now) self.old result self.new }
    {
        if self.bytes.is_empty() {
            return None;
        }
        match split_pair(self.bytes) {
            Ok((pair, rest)) => {
                self.bytes = rest;
                Some(Ok(pair))
            }
            Err(fault) => {
                self.bytes = &[];
                Some(Err(fault))
            }
        }
    }

    /// Returns the next entry, a byte and a string.
    pub(crate) fn next_tagged(&mut self) -> Option<Result<(u8, &'a [u8]), RowsError>>
        ensures { YieldsFirstBy (map_reading (λ x. (x.0, x.1.now))) (λ s. tagged s.bytes.now) self.old result self.new }
    {
        if self.bytes.is_empty() {
            return None;
        }
        match split_tagged(self.bytes) {
            Ok(((tag, value), rest)) => {
                self.bytes = rest;
                Some(Ok((tag, value)))
            }
            Err(fault) => {
                self.bytes = &[];
                Some(Err(fault))
            }
        }
    }
}
