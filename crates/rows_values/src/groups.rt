//! Iterates over the bytes of digit groups.

ghost use Rattle.std.specs.Prelude.{◌≡◌, ◌≤◌, ◌<◌, ◌++◌, true, false, [], drop, length};
ghost use Rattle.rows_values.specs.Digits.{AreDigits};
ghost use Rattle.rows_values.specs.Steps.{sides_bytes, SplitsGroup, GivesByte};
ghost use Rattle.rows_values.specs.RemainingGroups.{remaining_bytes};

use crate::digits::{DIG_PER_DEC, GROUP_BYTES, group_size};
use crate::fields::GroupBytes;
use crate::packing::number;

impl<'a> GroupBytes<'a> {
    /// Returns an iterator over all bytes of the groups of these digits.
    pub(crate) fn new(before: &'a [u8], after: &'a [u8]) -> GroupBytes<'a>
        requires before { AreDigits before.now }
        requires after { AreDigits after.now }
        ensures { remaining_bytes result ≡ sides_bytes before.now after.now }
    {
        GroupBytes {
            bytes: [0; GROUP_BYTES],
            bytes_used: GROUP_BYTES,
            before,
            after,
        }
    }

    /// Returns the next byte, or None at the end.
    pub(crate) fn next(&mut self) -> Option<u8>
        ensures { GivesByte result (remaining_bytes self.old) (remaining_bytes self.new) }
    {
        if self.bytes_used == GROUP_BYTES && !self.load() {
            return None;
        }
        let byte = self.bytes[self.bytes_used];
        self.bytes_used += 1;
        Some(byte)
    }

    /// Loads the bytes of the next group. Returns whether there is one.
    fn load(&mut self) -> bool
        requires { self.old.bytes_used ≡ 4 }
        ensures some { result ≡ true → (remaining_bytes self.new ≡ remaining_bytes self.old) × (self.new.bytes_used < 4) }
        ensures none { result ≡ false → (remaining_bytes self.old ≡ []) × (self.new ≡ self.old) }
    {
        let (group, before, after) = split_group(self.before, self.after);
        if group.is_empty() {
            return false;
        }
        self.bytes = number(group).to_be_bytes();
        self.bytes_used = GROUP_BYTES - group_size(group.len());
        self.before = before;
        self.after = after;
        true
    }
}

/// Returns the digits of the first group (none if there is no group), and the digits after it on both sides
/// of the point.
pub(crate) fn split_group<'a>(before: &'a [u8], after: &'a [u8]) -> (&'a [u8], &'a [u8], &'a [u8])
    requires before { AreDigits before.now }
    requires after { AreDigits after.now }
    ensures { SplitsGroup before.now after.now result.0.now result.1.now result.2.now }
{
    if before.is_empty() {
        let (group, rest) = after.split_at(after.len().min(DIG_PER_DEC));
        return (group, before, rest);
    }
    let left = before.len() % DIG_PER_DEC;
    let (group, rest) = before.split_at(if left == 0 { DIG_PER_DEC } else { left });
    (group, rest, after)
}
