//! The types of geometry columns.

ghost use Rattle.std.specs.Prelude.{◌≡◌, ◌%◌, ℕ, List, [], map};
ghost use Rattle.std.specs.Iterator.{YieldsFirst, item_count};
ghost use Rattle.wire_fields.specs.ByteStrings.{IsAll};
ghost use Rattle.rows_table_map.specs.FieldEncodings.{all_encoded};
ghost use Rattle.rows_table_map.specs.KnownConstants.{geometry_type};
ghost use Rattle.rows_table_map.specs.Lists.{numbers};
ghost use Rattle.rows_table_map.specs.MetadataViews.{geometry, geometry_types_view, geometry_types_left};

use crate::entries::Entries;
use crate::reading::take_all;
use crate::writing::put_all;
use rows_errors::RowsError;
use std::alloc::{Allocator, Global};
use wire_buf::{AnySize, MyDeserialize, MySerialize, ParseBuf, WireFault};
use wire_constants::GeometryType;

/// The type of each geometry column, in the field `GEOMETRY_TYPE`.
#[derive(Clone, Copy, PartialEq, Eq)]
pub struct GeometryTypes<'a> {
    geometry_types: &'a [u8],
}

impl<'a> GeometryTypes<'a> {
    /// Wraps the value of a field: length-encoded integers.
    pub(crate) fn of_value(value: &'a [u8]) -> GeometryTypes<'a>
        ensures { result.geometry_types ≡ value.entry }
    {
        GeometryTypes {
            geometry_types: value,
        }
    }

    /// Iterates over the types, in the order of the geometry columns.
    pub fn iter_geometry_types(&self) -> IterGeometryTypes<'a>
        ensures { geometry_types_left result ≡ map geometry (numbers self.now.geometry_types.now) }
    {
        IterGeometryTypes {
            entries: Entries::of(self.geometry_types),
        }
    }
}

/// The entries of [`GeometryTypes::iter_geometry_types`], by the lowest 8 bits of their numbers. A number that no type has is
/// `UnknownNumber`, and the next entries follow; an entry that can't be read is the last item.
#[derive(Clone, Copy)]
pub struct IterGeometryTypes<'a> {
    entries: Entries<'a>,
}

impl<'a> Iterator for IterGeometryTypes<'a> {
    type Item = Result<GeometryType, RowsError>;

    ghost next_gives = { YieldsFirst geometry_types_left };

    ghost remaining = { item_count geometry_types_left };

    fn next(&mut self) -> Option<Result<GeometryType, RowsError>> {
        match self.entries.next_number() {
            Some(Ok(number)) => Some(type_of((number % 256) as u8)),
            Some(Err(fault)) => Some(Err(fault)),
            None => None,
        }
    }
}

/// Returns the type with this number.
fn type_of(number: u8) -> Result<GeometryType, RowsError>
    ensures { result ≡ geometry_type number }
{
    match GeometryType::try_from(number) {
        Ok(known) => Ok(known),
        Err(_) => Err(RowsError::UnknownNumber),
    }
}

/// Takes all bytes as the list of types; reading never fails.
impl<'de> MyDeserialize<'de> for GeometryTypes<'de> {
    const SIZE: Option<usize> = None;

    type Size = AnySize;

    type Ctx = ();

    type Fault = RowsError;

    ghost View = { List ℕ };

    ghost view = { geometry_types_view };

    ghost encodes = { λ ctx. IsAll };

    ghost fails_with = { λ ctx x e. ⊥ };

    fn deserialize(
        _alloc: Global,
        _ctx: (),
        buf: &mut ParseBuf<'de>,
    ) -> Result<GeometryTypes<'de>, RowsError> {
        Ok(GeometryTypes::of_value(take_all(buf)))
    }

    ghost sized = { λ ctx v bytes rest h. tt };
}

impl MySerialize for GeometryTypes<'_> {
    ghost View = { List ℕ };

    ghost view = { geometry_types_view };

    ghost encoding = { IsAll };

    ghost encoded = { all_encoded };

    ghost allows_rest = { λ rest. rest ≡ [] };

    fn serialize<A: Allocator>(&self, buf: &mut Vec<u8, A>) -> Result<(), WireFault> {
        put_all(self.geometry_types, buf)
    }
}
