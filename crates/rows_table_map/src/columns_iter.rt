//! The signedness of columns, and the columns of the primary key.

ghost use Rattle.std.specs.Prelude.{◌≡◌, ◌-◌, [], option_map};
ghost use Rattle.std.specs.Iterator.{YieldsFirst, at_most, item_count};
ghost use Rattle.rows_table_map.specs.BitLists.{len_of};
ghost use Rattle.rows_table_map.specs.Served.{key_indexes, first_item};
ghost use Rattle.rows_table_map.specs.MetadataViews.{bits_view, signs_left, indexes_view, keys_view, key_indexes_left, primary_key_left};

use crate::Bits;
use crate::primary_keys::{IterIndexes, IterKeys, PrimaryKeysWithPrefix, SimplePrimaryKey};
use rows_errors::RowsError;

/// The remaining numeric columns: whether each is unsigned.
#[derive(Clone, Copy)]
pub struct IterSignedness<'a> {
    bits: Bits<'a>,
    next: usize,
}

impl<'a> IterSignedness<'a> {
    /// Iterates over these bits, in order.
    pub(crate) fn of(bits: Bits<'a>) -> IterSignedness<'a>
        ensures { signs_left result ≡ bits_view bits.entry }
    {
        IterSignedness { bits, next: 0 }
    }
}

impl<'a> Iterator for IterSignedness<'a> {
    type Item = bool;

    ghost next_gives = { YieldsFirst signs_left };

    ghost remaining = { λ it. at_most (len_of it.bits - it.next) };

    fn next(&mut self) -> Option<bool> {
        if self.next >= self.bits.len() {
            return None;
        }
        let sign = self.bits.get(self.next);
        self.next += 1;
        sign
    }
}

/// The remaining columns of the primary key: first whole columns, then columns with a prefix. An error is the last item.
#[derive(Clone, Copy)]
pub(crate) struct KeyIndexes<'a> {
    simple: IterIndexes<'a>,
    prefixed: IterKeys<'a>,
}

impl<'a> KeyIndexes<'a> {
    /// Returns the columns of these keys; a missing key has none.
    fn of(
        simple: Option<SimplePrimaryKey<'a>>,
        prefixed: Option<PrimaryKeysWithPrefix<'a>>,
    ) -> KeyIndexes<'a>
        ensures { key_indexes_left result ≡ key_indexes (option_map indexes_view simple.entry) (option_map keys_view prefixed.entry) }
    {
        let simple = match simple {
            Some(key) => key.iter_indexes(),
            None => SimplePrimaryKey::of_value(&[]).iter_indexes(),
        };
        let prefixed = match prefixed {
            Some(key) => key.iter_keys(),
            None => PrimaryKeysWithPrefix::of_value(&[]).iter_keys(),
        };
        KeyIndexes { simple, prefixed }
    }

    /// Returns the index of the next column.
    fn take_index(&mut self) -> Option<Result<u64, RowsError>>
        ensures { YieldsFirst key_indexes_left self.old result self.new }
    {
        match self.simple.next() {
            Some(Ok(index)) => Some(Ok(index)),
            Some(Err(fault)) => {
                *self = KeyIndexes::of(None, None);
                Some(Err(fault))
            }
            None => match self.prefixed.next() {
                Some(Ok(key)) => Some(Ok(key.column_index())),
                Some(Err(fault)) => Some(Err(fault)),
                None => None,
            },
        }
    }
}

/// The remaining columns of the primary key, by their indexes in the table. An error is the last item.
#[derive(Clone, Copy)]
pub struct IterPrimaryKey<'a> {
    ahead: Option<Result<u64, RowsError>>,
    following: KeyIndexes<'a>,
}

impl<'a> IterPrimaryKey<'a> {
    /// Returns the columns of these keys; a missing key has none.
    pub(crate) fn of(
        simple: Option<SimplePrimaryKey<'a>>,
        prefixed: Option<PrimaryKeysWithPrefix<'a>>,
    ) -> IterPrimaryKey<'a>
        ensures { primary_key_left result ≡ key_indexes (option_map indexes_view simple.entry) (option_map keys_view prefixed.entry) }
    {
        let mut following = KeyIndexes::of(simple, prefixed);
        let ahead = following.take_index();
        IterPrimaryKey { ahead, following }
    }

    /// Returns the index that `next` will return, without advancing.
    pub fn peek(&self) -> Option<Result<u64, RowsError>>
        ensures { result ≡ first_item (primary_key_left self.now) }
    {
        self.ahead
    }
}

impl<'a> Iterator for IterPrimaryKey<'a> {
    type Item = Result<u64, RowsError>;

    ghost next_gives = { YieldsFirst primary_key_left };

    ghost remaining = { item_count primary_key_left };

    fn next(&mut self) -> Option<Result<u64, RowsError>> {
        let index = self.ahead?;
        self.ahead = self.following.take_index();
        Some(index)
    }
}
