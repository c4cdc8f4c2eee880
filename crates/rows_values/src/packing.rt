//! Writes the packed format of a decimal.

ghost use Rattle.std.specs.Prelude.{◌≡◌, ◌≤◌, ◌++◌, ◌-◌, ◌⊎◌, OnOk, IfOk, IfErr, length, map};
ghost use Rattle.std.specs.Int.Digits.{number_from_digits};
ghost use Rattle.std.specs.Io.KnownBytes.{Appends};
ghost use Rattle.rows_values.specs.Digits.{AreDigits, group_bytes, top_flipped};
ghost use Rattle.rows_values.specs.Steps.{sides_bytes};
ghost use Rattle.rows_values.specs.Decimals.{decimal_parts, packed_encoding, FailsToWrite};

use crate::digits::{DIG_PER_DEC, GROUP_BYTES, group_size};
use crate::fields::Decimal;
use crate::groups::split_group;
use std::alloc::{AllocError, Global};
use std::io::Write;
use wire_buf::{WireFault, write_all};

impl Decimal {
    /// Writes the packed format of column values: the digits in groups of nine from the point outward, each
    /// group a big-endian number of up to four bytes, with the top bit of all bytes inverted, and all bits
    /// inverted if the decimal is negative.
    ///
    /// - `Write`: the writer failed; a prefix of the bytes is written.
    /// - `Memory`: out of memory; nothing is written.
    ///
    /// MySQL's source: `decimal2bin`.
    pub fn write_bin<W: Write>(&self, alloc: Global, output: &mut W) -> Result<(), WireFault>
        ensures ok { OnOk result (Appends (W.contents output.old) (W.contents output.new)
            (packed_encoding (decimal_parts self.now))) }
        ensures err { IfErr result (λ e. FailsToWrite e (packed_encoding (decimal_parts self.now))
            (W.contents output.old) (W.contents output.new)) }
    {
        let bytes = self.pack(alloc)?;
        write_all(output, &bytes)
    }

    /// Returns the packed bytes.
    fn pack(&self, alloc: Global) -> Result<Vec<u8>, AllocError>
        ensures { IfOk result (λ bytes. bytes.items ≡ packed_encoding (decimal_parts self.now)) }
    {
        let mut bytes = Vec::with_capacity(alloc, self.bin_size())?;
        put_groups(&self.before, &self.after, &mut bytes)?;
        flip_top(&mut bytes);
        if self.negative {
            flip_all(&mut bytes);
        }
        Ok(bytes)
    }
}

/// Inverts the top bit of the first byte.
fn flip_top(bytes: &mut [u8])
    ensures { bytes.new ≡ top_flipped bytes.old }
{
    if let Some(first) = bytes.first_mut() {
        *first = first.wrapping_add(128);
    }
}

/// Inverts all bits.
fn flip_all(bytes: &mut [u8])
    ensures { bytes.new ≡ map (λ b. 255 - b) bytes.old }
{
    for byte in bytes {
        *byte = 255 - *byte;
    }
}

/// Appends the groups of the digits before and after the point.
fn put_groups(before: &[u8], after: &[u8], out: &mut Vec<u8>) -> Result<(), AllocError>
    requires before { AreDigits before.now }
    requires after { AreDigits after.now }
    ensures { OnOk result (out.new.items ≡ out.old.items ++ sides_bytes before.now after.now) }
{
    let (mut group, mut before, mut after) = split_group(before, after);
    while !group.is_empty() {
        put_group(group, out)?;
        (group, before, after) = split_group(before, after);
    }
    Ok(())
}

/// Appends one group.
fn put_group(digits: &[u8], out: &mut Vec<u8>) -> Result<(), AllocError>
    requires few { length digits.now ≤ 9 }
    requires are { AreDigits digits.now }
    ensures { OnOk result (out.new.items ≡ out.old.items ++ group_bytes digits.now) }
{
    let bytes = number(digits).to_be_bytes();
    let unused = GROUP_BYTES - group_size(digits.len());
    out.extend_from_slice(&bytes[unused..])
}

/// Returns the number of a group.
pub(crate) fn number(digits: &[u8]) -> u32
    requires few { length digits.now ≤ 9 }
    requires are { AreDigits digits.now }
    ensures { result ≡ number_from_digits 10 digits.now }
{
    let mut number = 0;
    for digit in digits {
        number = 10 * number + u32::from(*digit);
    }
    number
}
