//! The names of columns.

ghost use Rattle.std.specs.Prelude.{◌≡◌, ℕ, List, [], IfOk, Err};
ghost use Rattle.std.specs.Cow.{cow_slice_items, cow_str_bytes, IsOwnedSlice};
ghost use Rattle.std.specs.Iterator.{YieldsFirstBy, item_count};
ghost use Rattle.std.specs.Str.Lossy.{utf8_lossy};
ghost use Rattle.wire_fields.specs.ByteStrings.{IsAll};
ghost use Rattle.rows_errors.specs.Readings.{map_reading};
ghost use Rattle.rows_table_map.specs.Entries.{StringEncoding, string_at};
ghost use Rattle.rows_table_map.specs.FieldEncodings.{all_encoded, string_encoded};
ghost use Rattle.rows_table_map.specs.Lists.{strings};
ghost use Rattle.rows_table_map.specs.MetadataViews.{name_view, names_view, remaining_names};

use crate::entries::Entries;
use crate::reading::{take_all, take_string};
use crate::writing::put_all;
use rows_errors::RowsError;
use std::alloc::{AllocError, Allocator, Global};
use std::borrow::{CowSlice, CowStr};
use wire_buf::{AnySize, Inner, MyDeserialize, MySerialize, ParseBuf, WireFault};
use wire_fields::{LenEnc, RawBytes};

/// The name of a column, which may not be UTF-8.
#[derive(PartialEq, Eq, Drop)]
pub struct ColumnName<'a> {
    name: RawBytes<'a, LenEnc>,
}

impl<'a> ColumnName<'a> {
    /// Creates a column's name from these bytes.
    pub fn new(name: CowSlice<'a, u8>) -> ColumnName<'a>
        ensures { name_view result ≡ cow_slice_items name.entry }
    {
        ColumnName {
            name: RawBytes::new(name),
        }
    }

    /// Returns the bytes of the name.
    pub fn name_raw(&self) -> &[u8]
        ensures { result.now ≡ name_view self.now }
    {
        self.name.as_bytes()
    }

    /// Returns the name as text, with replacement characters where it isn't UTF-8.
    pub fn name(&self, alloc: Global) -> Result<CowStr<'_>, AllocError>
        ensures { IfOk result (λ t. cow_str_bytes t ≡ utf8_lossy (name_view self.now)) }
    {
        self.name.as_str(alloc)
    }

    /// Returns the same name with bytes of its own.
    pub fn into_owned(self, alloc: Global) -> Result<ColumnName<'static>, AllocError>
        ensures name { IfOk result (λ n. name_view n ≡ name_view self.entry) }
        ensures owned { IfOk result (λ n. IsOwnedSlice n.name.0) }
    {
        Ok(ColumnName {
            name: self.name.into_owned(alloc)?,
        })
    }
}

/// The names of the columns, in the field `COLUMN_NAME`.
#[derive(Clone, Copy, PartialEq, Eq)]
pub struct ColumnNames<'a> {
    names: &'a [u8],
}

impl<'a> ColumnNames<'a> {
    /// Wraps the value of a field: length-encoded strings.
    pub fn of_value(value: &'a [u8]) -> ColumnNames<'a>
        ensures { result.names ≡ value.entry }
    {
        ColumnNames { names: value }
    }

    /// Returns the value of the field: length-encoded strings.
    pub fn value(&self) -> &'a [u8]
        ensures { result.now ≡ names_view self.now }
    {
        self.names
    }

    /// Iterates over the names, in the order of the columns.
    pub fn iter_names(&self) -> IterNames<'a>
        ensures { remaining_names result ≡ strings (names_view self.now) }
    {
        IterNames {
            entries: Entries::of(self.names),
        }
    }
}

/// The entries of [`ColumnNames::iter_names`], borrowed. An entry that can't be read is the last item.
#[derive(Clone, Copy)]
pub struct IterNames<'a> {
    entries: Entries<'a>,
}

impl<'a> Iterator for IterNames<'a> {
    type Item = Result<ColumnName<'a>, RowsError>;

    ghost next_gives = { YieldsFirstBy (map_reading name_view) remaining_names };

    ghost remaining = { item_count remaining_names };

    fn next(&mut self) -> Option<Result<ColumnName<'a>, RowsError>> {
        match self.entries.next_string() {
            Some(Ok(name)) => Some(Ok(ColumnName::new(CowSlice::Borrowed(name)))),
            Some(Err(fault)) => Some(Err(fault)),
            None => None,
        }
    }
}

/// Reads the name, a length-encoded string.
///
/// - `EndOfBody`: bytes are missing.
/// - `UnknownNumber`: the length begins with 251 or 255.
impl<'de> MyDeserialize<'de> for ColumnName<'de> {
    const SIZE: Option<usize> = None;

    type Size = AnySize;

    type Ctx = ();

    type Fault = RowsError;

    ghost View = { List ℕ };

    ghost view = { name_view };

    ghost encodes = { λ ctx. StringEncoding };

    ghost fails_with = { λ ctx x e. string_at x ≡ Err e };

    fn deserialize(
        _alloc: Global,
        _ctx: (),
        buf: &mut ParseBuf<'de>,
    ) -> Result<ColumnName<'de>, RowsError> {
        match take_string(buf) {
            Ok(name) => Ok(ColumnName::new(CowSlice::Borrowed(name))),
            Err(fault) => Err(fault),
        }
    }

    ghost sized = { λ ctx v bytes rest h. tt };
}

impl MySerialize for ColumnName<'_> {
    ghost View = { List ℕ };

    ghost view = { name_view };

    ghost encoding = { StringEncoding };

    ghost encoded = { string_encoded };

    fn serialize<A: Allocator>(&self, buf: &mut Vec<u8, A>) -> Result<(), WireFault> {
        self.name.serialize(buf)
    }
}

impl Inner for ColumnName<'_> {
    ghost before_any = { λ rest. tt };
}

/// Takes all bytes as the list of names; reading never fails.
impl<'de> MyDeserialize<'de> for ColumnNames<'de> {
    const SIZE: Option<usize> = None;

    type Size = AnySize;

    type Ctx = ();

    type Fault = RowsError;

    ghost View = { List ℕ };

    ghost view = { names_view };

    ghost encodes = { λ ctx. IsAll };

    ghost fails_with = { λ ctx x e. ⊥ };

    fn deserialize(
        _alloc: Global,
        _ctx: (),
        buf: &mut ParseBuf<'de>,
    ) -> Result<ColumnNames<'de>, RowsError> {
        Ok(ColumnNames::of_value(take_all(buf)))
    }

    ghost sized = { λ ctx v bytes rest h. tt };
}

impl MySerialize for ColumnNames<'_> {
    ghost View = { List ℕ };

    ghost view = { names_view };

    ghost encoding = { IsAll };

    ghost encoded = { all_encoded };

    ghost allows_rest = { λ rest. rest ≡ [] };

    fn serialize<A: Allocator>(&self, buf: &mut Vec<u8, A>) -> Result<(), WireFault> {
        put_all(self.names, buf)
    }
}
