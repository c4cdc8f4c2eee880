//! The columns of primary keys.

ghost use Rattle.std.specs.Prelude.{◌≡◌, ℕ, List, [], Err};
ghost use Rattle.std.specs.Iterator.{YieldsFirst, YieldsFirstBy, item_count};
ghost use Rattle.wire_fields.specs.ByteStrings.{IsAll};
ghost use Rattle.rows_errors.specs.Readings.{map_reading};
ghost use Rattle.rows_table_map.specs.Entries.{PairEncoding, pair_at};
ghost use Rattle.rows_table_map.specs.FieldEncodings.{all_encoded, pair_encoded};
ghost use Rattle.rows_table_map.specs.Lists.{numbers, pairs};
ghost use Rattle.rows_table_map.specs.MetadataViews.{key_view, indexes_view, keys_view, indexes_left, remaining_keys};

use crate::entries::Entries;
use crate::reading::{take_all, take_pair};
use crate::writing::{put_all, put_pair};
use rows_errors::RowsError;
use std::alloc::{Allocator, Global};
use wire_buf::{AnySize, Inner, MyDeserialize, MySerialize, ParseBuf, WireFault};

/// The columns of a primary key without prefixes, in the field `SIMPLE_PRIMARY_KEY`.
#[derive(Clone, Copy, PartialEq, Eq)]
pub struct SimplePrimaryKey<'a> {
    indexes: &'a [u8],
}

impl<'a> SimplePrimaryKey<'a> {
    /// Wraps the value of a field: length-encoded integers.
    pub(crate) fn of_value(value: &'a [u8]) -> SimplePrimaryKey<'a>
        ensures { result.indexes ≡ value.entry }
    {
        SimplePrimaryKey { indexes: value }
    }

    /// Iterates over the indexes of the columns in the table, from 0.
    pub fn iter_indexes(&self) -> IterIndexes<'a>
        ensures { indexes_left result ≡ numbers self.now.indexes.now }
    {
        IterIndexes {
            entries: Entries::of(self.indexes),
        }
    }
}

/// The entries of [`SimplePrimaryKey::iter_indexes`]. An entry that can't be read is the last item.
#[derive(Clone, Copy)]
pub struct IterIndexes<'a> {
    entries: Entries<'a>,
}

impl<'a> Iterator for IterIndexes<'a> {
    type Item = Result<u64, RowsError>;

    ghost next_gives = { YieldsFirst indexes_left };

    ghost remaining = { item_count indexes_left };

    fn next(&mut self) -> Option<Result<u64, RowsError>> {
        self.entries.next_number()
    }
}

/// The columns of a primary key with prefixes, in the field `PRIMARY_KEY_WITH_PREFIX`.
#[derive(Clone, Copy, PartialEq, Eq)]
pub struct PrimaryKeysWithPrefix<'a> {
    keys: &'a [u8],
}

impl<'a> PrimaryKeysWithPrefix<'a> {
    /// Wraps the value of a field: pairs of length-encoded integers.
    pub(crate) fn of_value(value: &'a [u8]) -> PrimaryKeysWithPrefix<'a>
        ensures { result.keys ≡ value.entry }
    {
        PrimaryKeysWithPrefix { keys: value }
    }

    /// Iterates over the columns and the lengths of their prefixes.
    pub fn iter_keys(&self) -> IterKeys<'a>
        ensures { remaining_keys result ≡ pairs self.now.keys.now }
    {
        IterKeys {
            entries: Entries::of(self.keys),
        }
    }
}

/// The entries of [`PrimaryKeysWithPrefix::iter_keys`]. An entry that can't be read is the last item.
#[derive(Clone, Copy)]
pub struct IterKeys<'a> {
    entries: Entries<'a>,
}

impl<'a> Iterator for IterKeys<'a> {
    type Item = Result<PrimaryKeyWithPrefix, RowsError>;

    ghost next_gives = { YieldsFirstBy (map_reading key_view) remaining_keys };

    ghost remaining = { item_count remaining_keys };

    fn next(&mut self) -> Option<Result<PrimaryKeyWithPrefix, RowsError>> {
        match self.entries.next_pair() {
            Some(Ok((column_index, prefix_length))) => {
                Some(Ok(PrimaryKeyWithPrefix::new(column_index, prefix_length)))
            }
            Some(Err(fault)) => Some(Err(fault)),
            None => None,
        }
    }
}

/// A column of a primary key, and the length of its prefix in the key.
#[derive(Clone, Copy, PartialEq, Eq)]
pub struct PrimaryKeyWithPrefix {
    column_index: u64,
    prefix_length: u64,
}

impl PrimaryKeyWithPrefix {
    /// Creates an entry for the column of this index, with a prefix of this length.
    pub fn new(column_index: u64, prefix_length: u64) -> PrimaryKeyWithPrefix
        ensures { key_view result ≡ (column_index, prefix_length) }
    {
        PrimaryKeyWithPrefix {
            column_index,
            prefix_length,
        }
    }

    /// Returns the column's index in the table, from 0.
    pub fn column_index(&self) -> u64
        ensures { result ≡ self.now.column_index }
    {
        self.column_index
    }

    /// Returns the length of the prefix, in bytes of the column's value; 0 if the whole column is in the key.
    pub fn prefix_length(&self) -> u64
        ensures { result ≡ self.now.prefix_length }
    {
        self.prefix_length
    }
}

/// Takes all bytes as the list of indexes; reading never fails.
impl<'de> MyDeserialize<'de> for SimplePrimaryKey<'de> {
    const SIZE: Option<usize> = None;

    type Size = AnySize;

    type Ctx = ();

    type Fault = RowsError;

    ghost View = { List ℕ };

    ghost view = { indexes_view };

    ghost encodes = { λ ctx. IsAll };

    ghost fails_with = { λ ctx x e. ⊥ };

    fn deserialize(
        _alloc: Global,
        _ctx: (),
        buf: &mut ParseBuf<'de>,
    ) -> Result<SimplePrimaryKey<'de>, RowsError> {
        Ok(SimplePrimaryKey::of_value(take_all(buf)))
    }

    ghost sized = { λ ctx v bytes rest h. tt };
}

impl MySerialize for SimplePrimaryKey<'_> {
    ghost View = { List ℕ };

    ghost view = { indexes_view };

    ghost encoding = { IsAll };

    ghost encoded = { all_encoded };

    ghost allows_rest = { λ rest. rest ≡ [] };

    fn serialize<A: Allocator>(&self, buf: &mut Vec<u8, A>) -> Result<(), WireFault> {
        put_all(self.indexes, buf)
    }
}

/// Takes all bytes as the list of columns and prefixes; reading never fails.
impl<'de> MyDeserialize<'de> for PrimaryKeysWithPrefix<'de> {
    const SIZE: Option<usize> = None;

    type Size = AnySize;

    type Ctx = ();

    type Fault = RowsError;

    ghost View = { List ℕ };

    ghost view = { keys_view };

    ghost encodes = { λ ctx. IsAll };

    ghost fails_with = { λ ctx x e. ⊥ };

    fn deserialize(
        _alloc: Global,
        _ctx: (),
        buf: &mut ParseBuf<'de>,
    ) -> Result<PrimaryKeysWithPrefix<'de>, RowsError> {
        Ok(PrimaryKeysWithPrefix::of_value(take_all(buf)))
    }

    ghost sized = { λ ctx v bytes rest h. tt };
}

impl MySerialize for PrimaryKeysWithPrefix<'_> {
    ghost View = { List ℕ };

    ghost view = { keys_view };

    ghost encoding = { IsAll };

    ghost encoded = { all_encoded };

    ghost allows_rest = { λ rest. rest ≡ [] };

    fn serialize<A: Allocator>(&self, buf: &mut Vec<u8, A>) -> Result<(), WireFault> {
        put_all(self.keys, buf)
    }
}

/// Reads a column's index and the length of its prefix.
///
/// - `EndOfBody`: bytes are missing.
/// - `UnknownNumber`: a number begins with 251 or 255.
impl<'de> MyDeserialize<'de> for PrimaryKeyWithPrefix {
    const SIZE: Option<usize> = None;

    type Size = AnySize;

    type Ctx = ();

    type Fault = RowsError;

    ghost View = { ℕ × ℕ };

    ghost view = { key_view };

    ghost encodes = { λ ctx. PairEncoding };

    ghost fails_with = { λ ctx x e. pair_at x ≡ Err e };

    fn deserialize(
        _alloc: Global,
        _ctx: (),
        buf: &mut ParseBuf<'de>,
    ) -> Result<PrimaryKeyWithPrefix, RowsError> {
        match take_pair(buf) {
            Ok((column_index, prefix_length)) => Ok(PrimaryKeyWithPrefix::new(
                column_index,
                prefix_length,
            )),
            Err(fault) => Err(fault),
        }
    }

    ghost sized = { λ ctx v bytes rest h. tt };
}

impl MySerialize for PrimaryKeyWithPrefix {
    ghost View = { ℕ × ℕ };

    ghost view = { key_view };

    ghost encoding = { PairEncoding };

    ghost encoded = { pair_encoded };

    fn serialize<A: Allocator>(&self, buf: &mut Vec<u8, A>) -> Result<(), WireFault> {
        put_pair(self.column_index, self.prefix_length, buf)
    }
}

impl Inner for PrimaryKeyWithPrefix {
    ghost before_any = { λ rest. tt };
}
