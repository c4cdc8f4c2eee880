//! The character sets of character columns, and of `ENUM` and `SET` columns.

ghost use Rattle.std.specs.Prelude.{◌≡◌, ◌%◌, ℕ, List, [], map, Err};
ghost use Rattle.std.specs.Iterator.{YieldsFirst, YieldsFirstBy, item_count};
ghost use Rattle.wire_fields.specs.ByteStrings.{IsAll};
ghost use Rattle.rows_errors.specs.Readings.{map_reading};
ghost use Rattle.rows_table_map.specs.Entries.{PairEncoding, lenenc_at, pair_at};
ghost use Rattle.rows_table_map.specs.FieldEncodings.{DefaultEncoding, all_encoded, pair_encoded, default_encoded};
ghost use Rattle.rows_table_map.specs.Lists.{numbers, pairs};
ghost use Rattle.rows_table_map.specs.MetadataViews.{charset as charset_of, default_charset_view, charsets_view, non_default_view, non_default_left, remaining_charsets};

use crate::entries::{Entries, split_number};
use crate::reading::{take_all, take_pair};
use crate::writing::{put_all, put_pair};
use rows_errors::RowsError;
use std::alloc::{Allocator, Global};
use std::borrow::CowSlice;
use wire_buf::{AnySize, Inner, MyDeserialize, MySerialize, ParseBuf, WireFault};
use wire_fields::{EofBytes, LenEnc, RawBytes, RawInt};

/// A default character set, and the columns with another one: of character columns in the field `DEFAULT_CHARSET`, of `ENUM` and
/// `SET` columns in `ENUM_AND_SET_DEFAULT_CHARSET`.
#[derive(Clone, Copy, PartialEq, Eq)]
pub struct DefaultCharset<'a> {
    default_charset: u64,
    non_default: &'a [u8],
}

impl<'a> DefaultCharset<'a> {
    /// Reads the value of a field: a length-encoded integer, and then pairs of a column's index and its character set. The pairs
    /// aren't checked. Returns `EndOfBody` or `UnknownNumber` if the value doesn't begin with an integer.
    pub(crate) fn of_value(value: &'a [u8]) -> Result<DefaultCharset<'a>, RowsError>
        ensures { map_reading default_charset_view result ≡ lenenc_at value.entry.now }
    {
        let (default_charset, non_default) = split_number(value)?;
        Ok(DefaultCharset {
            default_charset,
            non_default,
        })
    }

    /// Returns the character set of the columns that have none of their own. Only the lowest 16 bits of a larger number are kept.
    pub fn default_charset(&self) -> u16
        ensures { result ≡ charset_of self.now.default_charset }
    {
        (self.default_charset % 65_536) as u16
    }

    /// Iterates over the columns whose character set isn't the default. Their indexes count only columns of the field's kind, in
    /// the table's order.
    pub fn iter_non_default(&self) -> IterNonDefault<'a>
        ensures { non_default_left result ≡ pairs self.now.non_default.now }
    {
        IterNonDefault {
            entries: Entries::of(self.non_default),
        }
    }
}

/// A column's index and its character set.
#[derive(Clone, Copy, PartialEq, Eq)]
pub struct NonDefaultCharset {
    column_index: u64,
    charset: u64,
}

impl NonDefaultCharset {
    /// Creates an entry for the column of this index.
    pub fn new(column_index: u64, charset: u16) -> NonDefaultCharset
        ensures { non_default_view result ≡ (column_index, charset) }
    {
        NonDefaultCharset {
            column_index,
            charset: u64::from(charset),
        }
    }

    /// Returns the column's index among the columns of the field's kind.
    pub fn column_index(&self) -> u64
        ensures { result ≡ self.now.column_index }
    {
        self.column_index
    }

    /// Returns the column's character set. Only the lowest 16 bits of a larger number are kept.
    pub fn charset(&self) -> u16
        ensures { result ≡ charset_of self.now.charset }
    {
        (self.charset % 65_536) as u16
    }
}

/// The entries of [`DefaultCharset::iter_non_default`]. An entry that can't be read is the last item.
#[derive(Clone, Copy)]
pub struct IterNonDefault<'a> {
    entries: Entries<'a>,
}

impl<'a> Iterator for IterNonDefault<'a> {
    type Item = Result<NonDefaultCharset, RowsError>;

    ghost next_gives = { YieldsFirstBy (map_reading non_default_view) non_default_left };

    ghost remaining = { item_count non_default_left };

    fn next(&mut self) -> Option<Result<NonDefaultCharset, RowsError>> {
        match self.entries.next_pair() {
            Some(Ok((column_index, charset))) => Some(Ok(NonDefaultCharset {
                column_index,
                charset,
            })),
            Some(Err(fault)) => Some(Err(fault)),
            None => None,
        }
    }
}

/// The character set of each column: of character columns in the field `COLUMN_CHARSET`, of `ENUM` and `SET`
/// columns in `ENUM_AND_SET_COLUMN_CHARSET`.
#[derive(Clone, Copy, PartialEq, Eq)]
pub struct ColumnCharsets<'a> {
    charsets: &'a [u8],
}

impl<'a> ColumnCharsets<'a> {
    /// Wraps the value of a field: length-encoded integers.
    pub(crate) fn of_value(value: &'a [u8]) -> ColumnCharsets<'a>
        ensures { result.charsets ≡ value.entry }
    {
        ColumnCharsets { charsets: value }
    }

    /// Returns no pairs, for a field that is missing.
    pub(crate) fn no_pairs() -> IterNonDefault<'a>
        ensures { non_default_left result ≡ pairs [] }
    {
        IterNonDefault {
            entries: Entries::of(&[]),
        }
    }

    /// Iterates over the character sets, in the order of the columns.
    pub fn iter_charsets(&self) -> IterCharsets<'a>
        ensures { remaining_charsets result ≡ map (map_reading charset_of) (numbers self.now.charsets.now) }
    {
        IterCharsets {
            entries: Entries::of(self.charsets),
        }
    }
}

/// The entries of [`ColumnCharsets::iter_charsets`]: the lowest 16 bits of each number. An entry that can't be read is the last
/// item.
#[derive(Clone, Copy)]
pub struct IterCharsets<'a> {
    entries: Entries<'a>,
}

impl<'a> Iterator for IterCharsets<'a> {
    type Item = Result<u16, RowsError>;

    ghost next_gives = { YieldsFirst remaining_charsets };

    ghost remaining = { item_count remaining_charsets };

    fn next(&mut self) -> Option<Result<u16, RowsError>> {
        match self.entries.next_number() {
            Some(Ok(number)) => Some(Ok((number % 65_536) as u16)),
            Some(Err(fault)) => Some(Err(fault)),
            None => None,
        }
    }
}

/// Reads the default character set; the rest of the bytes are the pairs, which aren't checked. Returns `EndOfBody` or
/// `UnknownNumber` if the bytes don't begin with an integer.
impl<'de> MyDeserialize<'de> for DefaultCharset<'de> {
    const SIZE: Option<usize> = None;

    type Size = AnySize;

    type Ctx = ();

    type Fault = RowsError;

    ghost View = { ℕ × List ℕ };

    ghost view = { default_charset_view };

    ghost encodes = { λ ctx. DefaultEncoding };

    ghost fails_with = { λ ctx x e. lenenc_at x ≡ Err e };

    fn deserialize(
        _alloc: Global,
        _ctx: (),
        buf: &mut ParseBuf<'de>,
    ) -> Result<DefaultCharset<'de>, RowsError> {
        DefaultCharset::of_value(buf.eat_all())
    }

    ghost sized = { λ ctx v bytes rest h. tt };
}

impl MySerialize for DefaultCharset<'_> {
    ghost View = { ℕ × List ℕ };

    ghost view = { default_charset_view };

    ghost encoding = { DefaultEncoding };

    ghost encoded = { default_encoded };

    ghost allows_rest = { λ rest. rest ≡ [] };

    fn serialize<A: Allocator>(&self, buf: &mut Vec<u8, A>) -> Result<(), WireFault> {
        let pairs = RawBytes::<EofBytes>::new(CowSlice::Borrowed(self.non_default));
        (RawInt::<LenEnc>::new(self.default_charset), pairs).serialize(buf)
    }
}

/// Reads a column's index and its character set.
///
/// - `EndOfBody`: bytes are missing.
/// - `UnknownNumber`: a number begins with 251 or 255.
impl<'de> MyDeserialize<'de> for NonDefaultCharset {
    const SIZE: Option<usize> = None;

    type Size = AnySize;

    type Ctx = ();

    type Fault = RowsError;

    ghost View = { ℕ × ℕ };

    ghost view = { non_default_view };

    ghost encodes = { λ ctx. PairEncoding };

    ghost fails_with = { λ ctx x e. pair_at x ≡ Err e };

    fn deserialize(
        _alloc: Global,
        _ctx: (),
        buf: &mut ParseBuf<'de>,
    ) -> Result<NonDefaultCharset, RowsError> {
        match take_pair(buf) {
            Ok((column_index, charset)) => Ok(NonDefaultCharset {
                column_index,
                charset,
            }),
            Err(fault) => Err(fault),
        }
    }

    ghost sized = { λ ctx v bytes rest h. tt };
}

impl MySerialize for NonDefaultCharset {
    ghost View = { ℕ × ℕ };

    ghost view = { non_default_view };

    ghost encoding = { PairEncoding };

    ghost encoded = { pair_encoded };

    fn serialize<A: Allocator>(&self, buf: &mut Vec<u8, A>) -> Result<(), WireFault> {
        put_pair(self.column_index, self.charset, buf)
    }
}

impl Inner for NonDefaultCharset {
    ghost before_any = { λ rest. tt };
}

/// Takes all bytes as the list of character sets; reading never fails.
impl<'de> MyDeserialize<'de> for ColumnCharsets<'de> {
    const SIZE: Option<usize> = None;

    type Size = AnySize;

    type Ctx = ();

    type Fault = RowsError;

    ghost View = { List ℕ };

    ghost view = { charsets_view };

    ghost encodes = { λ ctx. IsAll };

    ghost fails_with = { λ ctx x e. ⊥ };

    fn deserialize(
        _alloc: Global,
        _ctx: (),
        buf: &mut ParseBuf<'de>,
    ) -> Result<ColumnCharsets<'de>, RowsError> {
        Ok(ColumnCharsets::of_value(take_all(buf)))
    }

    ghost sized = { λ ctx v bytes rest h. tt };
}

impl MySerialize for ColumnCharsets<'_> {
    ghost View = { List ℕ };

    ghost view = { charsets_view };

    ghost encoding = { IsAll };

    ghost encoded = { all_encoded };

    ghost allows_rest = { λ rest. rest ≡ [] };

    fn serialize<A: Allocator>(&self, buf: &mut Vec<u8, A>) -> Result<(), WireFault> {
        put_all(self.charsets, buf)
    }
}
