//! The number of dimensions of vector columns.

ghost use Rattle.std.specs.Prelude.{◌≡◌, ℕ, List, []};
ghost use Rattle.std.specs.Iterator.{YieldsFirst, item_count};
ghost use Rattle.wire_fields.specs.ByteStrings.{IsAll};
ghost use Rattle.rows_table_map.specs.FieldEncodings.{all_encoded};
ghost use Rattle.rows_table_map.specs.Lists.{numbers};
ghost use Rattle.rows_table_map.specs.MetadataViews.{dimensionalities_view, dimensionalities_left};

use crate::entries::Entries;
use crate::reading::take_all;
use crate::writing::put_all;
use rows_errors::RowsError;
use std::alloc::{Allocator, Global};
use wire_buf::{AnySize, MyDeserialize, MySerialize, ParseBuf, WireFault};

/// The number of dimensions of each vector column, in the field `VECTOR_DIMENSIONALITY`.
#[derive(Clone, Copy, PartialEq, Eq)]
pub struct VectorDimensionalities<'a> {
    dimensionalities: &'a [u8],
}

impl<'a> VectorDimensionalities<'a> {
    /// Wraps the value of a field: length-encoded integers.
    pub(crate) fn of_value(value: &'a [u8]) -> VectorDimensionalities<'a>
        ensures { result.dimensionalities ≡ value.entry }
    {
        VectorDimensionalities {
            dimensionalities: value,
        }
    }

    /// Iterates over the dimensions, in the order of the vector columns.
    pub fn iter_dimensionalities(&self) -> IterVectorDimensionalities<'a>
        ensures { dimensionalities_left result ≡ numbers self.now.dimensionalities.now }
    {
        IterVectorDimensionalities {
            entries: Entries::of(self.dimensionalities),
        }
    }
}

/// The entries of [`VectorDimensionalities::iter_dimensionalities`]. An entry that can't be read is the last item.
#[derive(Clone, Copy)]
pub struct IterVectorDimensionalities<'a> {
    entries: Entries<'a>,
}

impl<'a> Iterator for IterVectorDimensionalities<'a> {
    type Item = Result<u64, RowsError>;

    ghost next_gives = { YieldsFirst dimensionalities_left };

    ghost remaining = { item_count dimensionalities_left };

    fn next(&mut self) -> Option<Result<u64, RowsError>> {
        self.entries.next_number()
    }
}

/// Takes all bytes as the list of dimensions; reading never fails.
impl<'de> MyDeserialize<'de> for VectorDimensionalities<'de> {
    const SIZE: Option<usize> = None;

    type Size = AnySize;

    type Ctx = ();

    type Fault = RowsError;

    ghost View = { List ℕ };

    ghost view = { dimensionalities_view };

    ghost encodes = { λ ctx. IsAll };

    ghost fails_with = { λ ctx x e. ⊥ };

    fn deserialize(
        _alloc: Global,
        _ctx: (),
        buf: &mut ParseBuf<'de>,
    ) -> Result<VectorDimensionalities<'de>, RowsError> {
        Ok(VectorDimensionalities::of_value(take_all(buf)))
    }

    ghost sized = { λ ctx v bytes rest h. tt };
}

impl MySerialize for VectorDimensionalities<'_> {
    ghost View = { List ℕ };

    ghost view = { dimensionalities_view };

    ghost encoding = { IsAll };

    ghost encoded = { all_encoded };

    ghost allows_rest = { λ rest. rest ≡ [] };

    fn serialize<A: Allocator>(&self, buf: &mut Vec<u8, A>) -> Result<(), WireFault> {
        put_all(self.dimensionalities, buf)
    }
}
