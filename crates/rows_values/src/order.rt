//! The order of decimals: that of their packed bytes. So decimals with the same precision and scale are
//! ordered as their numbers, and a negative zero is just below zero.

ghost use Rattle.std.specs.Prelude.{◌≡◌, ◌≤◌, ◌<◌, ◌+◌, ◌*◌, ◌/◌, ◌%◌, ◌++◌, ◌==◌, Some, nat_eq, refl, length, slice_index, if◌then◌else◌};
ghost use Rattle.std.specs.Ordering.{nat_cmp};
ghost use Rattle.std.specs.Cmp.{on_equiv, on_total, on_po, on_per, partial_equiv_from_equiv};
ghost use Rattle.std.specs.Cmp.Lexicographic.{pointwise, slice_cmp, nat_list_eq_equiv, nat_list_cmp_total, texts_ties, texts_po};
ghost use Rattle.rows_values.specs.Digits.{signed};
ghost use Rattle.rows_values.specs.Decimals.{decimal_parts, pack_decimal};
ghost use Rattle.rows_values.specs.Steps.{sides_bytes};
ghost use Rattle.rows_values.specs.RemainingGroups.{remaining_bytes};

use crate::fields::{Decimal, GroupBytes};
use std::cmp::Ordering;

impl PartialEq for Decimal {
    ghost eq = { λ a b. pointwise nat_eq (pack_decimal a) (pack_decimal b) };

    ghost laws = { on_per pack_decimal (partial_equiv_from_equiv nat_list_eq_equiv) };

    fn eq(&self, other: &Decimal) -> bool {
        self.packed_cmp(other).is_eq()
    }
}

impl Eq for Decimal {
    ghost laws = { on_equiv pack_decimal nat_list_eq_equiv };
}

impl PartialOrd for Decimal {
    ghost partial_cmp = { λ a b. Some (slice_cmp nat_cmp (pack_decimal a) (pack_decimal b)) };

    ghost laws = { on_po pack_decimal texts_po };

    fn partial_cmp(&self, other: &Decimal) -> Option<Ordering> {
        Some(self.packed_cmp(other))
    }
}

impl Ord for Decimal {
    ghost cmp = { λ a b. slice_cmp nat_cmp (pack_decimal a) (pack_decimal b) };

    ghost total = { on_total pack_decimal nat_list_cmp_total };

    ghost matches_partial_cmp = { λ a b. refl };

    ghost matches_eq = { λ a b. texts_ties (pack_decimal a) (pack_decimal b) };

    fn cmp(&self, other: &Decimal) -> Ordering {
        self.packed_cmp(other)
    }
}

impl Decimal {
    /// Compares the packed bytes.
    fn packed_cmp(&self, other: &Decimal) -> Ordering
        ensures { result ≡ slice_cmp nat_cmp (pack_decimal self.now) (pack_decimal other.now) }
    {
        if self.negative != other.negative {
            return if self.negative {
                Ordering::Less
            } else {
                Ordering::Greater
            };
        }
        bytes_cmp(self.negative, self.group_bytes(), other.group_bytes())
    }

    /// Returns the bytes of the groups, before any bit is inverted.
    fn group_bytes(&self) -> GroupBytes<'_>
        ensures { remaining_bytes result ≡ sides_bytes (decimal_parts self.now).before (decimal_parts self.now).after }
    {
        GroupBytes::new(&self.before, &self.after)
    }
}

/// Compares bytes that are all inverted if `negative`.
fn bytes_cmp(negative: bool, mut first: GroupBytes<'_>, mut second: GroupBytes<'_>) -> Ordering
    ensures { result ≡ slice_cmp nat_cmp (signed negative (remaining_bytes first.entry)) (signed negative (remaining_bytes second.entry)) }
{
    while let Some(byte) = first.next() {
        match second.next() {
            Some(other) => {
                if byte != other {
                    return if negative {
                        other.cmp(&byte)
                    } else {
                        byte.cmp(&other)
                    };
                }
            }
            None => return Ordering::Greater,
        }
    }
    match second.next() {
        Some(_) => Ordering::Less,
        None => Ordering::Equal,
    }
}
