//! The character sets of columns, in order.

ghost use Rattle.std.specs.Prelude.{◌≡◌, option_map, map};
ghost use Rattle.std.specs.Iterator.{endless};
ghost use Rattle.rows_errors.specs.Readings.{map_reading};
ghost use Rattle.rows_table_map.specs.Served.{bytes_or_none, pair_bytes, charset_entries, charset_item, default_item};
ghost use Rattle.rows_table_map.specs.Lists.{numbers, pairs};
ghost use Rattle.rows_table_map.specs.MetadataViews.{charset, default_charset_view, charsets_view, prepend_entry, entries_left, non_default_left, remaining_charsets, ReturnsCharset, IteratesCharsets};

use crate::charsets::{ColumnCharsets, DefaultCharset, IterCharsets, IterNonDefault};
use rows_errors::RowsError;

/// The next entry with a character set.
#[derive(Clone, Copy)]
pub(crate) enum NextEntry {
    /// No entry remains.
    End,
    /// The entry can't be read, and none follows.
    Fault(RowsError),
    /// The character set of the column with an index.
    OfColumn(u64, u16),
    /// The character set of the next column.
    Plain(u16),
}

/// The remaining entries: those with an index first. An error is the last item.
#[derive(Clone, Copy)]
pub(crate) struct CharsetEntries<'a> {
    indexed: IterNonDefault<'a>,
    each: IterCharsets<'a>,
}

impl<'a> CharsetEntries<'a> {
    /// Returns the entries of these fields; a missing field has none.
    fn of(
        with_default: Option<DefaultCharset<'a>>,
        each: Option<ColumnCharsets<'a>>,
    ) -> CharsetEntries<'a>
        ensures { entries_left result ≡ charset_entries (option_map default_charset_view with_default.entry) (option_map charsets_view each.entry) }
    {
        CharsetEntries {
            indexed: indexed_of(with_default),
            each: each_of(each),
        }
    }

    /// Returns the next entry.
    fn take_entry(&mut self) -> NextEntry
        ensures { entries_left self.old ≡ prepend_entry result (entries_left self.new) }
    {
        match self.indexed.next() {
            Some(Ok(entry)) => NextEntry::OfColumn(entry.column_index(), entry.charset()),
            Some(Err(fault)) => {
                *self = CharsetEntries::of(None, None);
                NextEntry::Fault(fault)
            }
            None => match self.each.next() {
                Some(Ok(charset)) => NextEntry::Plain(charset),
                Some(Err(fault)) => NextEntry::Fault(fault),
                None => NextEntry::End,
            },
        }
    }
}

/// Returns the pairs of a field; a missing field has none.
fn indexed_of(with_default: Option<DefaultCharset<'_>>) -> IterNonDefault<'_>
    ensures { non_default_left result ≡ pairs (pair_bytes (option_map default_charset_view with_default.entry)) }
{
    match with_default {
        Some(charset) => charset.iter_non_default(),
        None => ColumnCharsets::no_pairs(),
    }
}

/// Returns the character sets of a field; a missing field has none.
fn each_of(each: Option<ColumnCharsets<'_>>) -> IterCharsets<'_>
    ensures { remaining_charsets result ≡ map (map_reading charset) (numbers (bytes_or_none (option_map charsets_view each.entry))) }
{
    match each {
        Some(charsets) => charsets.iter_charsets(),
        None => ColumnCharsets::of_value(&[]).iter_charsets(),
    }
}

/// The character sets of the remaining columns of a kind. With a default character set it never ends. An error is the last item.
#[derive(Clone, Copy)]
pub struct IterCharset<'a> {
    default: Option<u16>,
    ahead: NextEntry,
    following: CharsetEntries<'a>,
    index: u64,
}

impl<'a> IterCharset<'a> {
    /// Returns the character sets of these fields.
    pub(crate) fn of(
        with_default: Option<DefaultCharset<'a>>,
        each: Option<ColumnCharsets<'a>>,
    ) -> IterCharset<'a>
        ensures { IteratesCharsets result (charset_item (option_map default_charset_view with_default.entry) (option_map charsets_view each.entry)) }
    {
        let default = match with_default {
            Some(charset) => Some(charset.default_charset()),
            None => None,
        };
        let mut following = CharsetEntries::of(with_default, each);
        let ahead = following.take_entry();
        IterCharset {
            default,
            ahead,
            following,
            index: 0,
        }
    }

    /// Returns the default character set, if there is one.
    fn default_charset(&self) -> Option<Result<u16, RowsError>>
        ensures { result ≡ default_item self.now.default }
    {
        match self.default {
            Some(charset) => Some(Ok(charset)),
            None => None,
        }
    }
}

impl<'a> Iterator for IterCharset<'a> {
    type Item = Result<u16, RowsError>;

    ghost next_gives = { ReturnsCharset };

    ghost remaining = { λ it. endless };

    fn next(&mut self) -> Option<Result<u16, RowsError>> {
        let index = self.index;
        self.index = index.wrapping_add(1);
        match self.ahead {
            NextEntry::End => self.default_charset(),
            NextEntry::Fault(fault) => {
                self.default = None;
                self.ahead = NextEntry::End;
                Some(Err(fault))
            }
            NextEntry::Plain(charset) => {
                self.ahead = self.following.take_entry();
                Some(Ok(charset))
            }
            NextEntry::OfColumn(column, charset) => {
                if column != index {
                    return self.default_charset();
                }
                self.ahead = self.following.take_entry();
                Some(Ok(charset))
            }
        }
    }
}
