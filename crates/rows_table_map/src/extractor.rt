//! What the columns of a table use from its optional metadata.

ghost use Rattle.std.specs.Prelude.{◌≡◌};
ghost use Rattle.rows_errors.specs.Readings.{map_reading};
ghost use Rattle.rows_table_map.specs.Lists.{strings};
ghost use Rattle.rows_table_map.specs.Extracted.{extracted, with_field, nothing};
ghost use Rattle.rows_table_map.specs.Served.{bytes_or_none, key_indexes, charset_item, signs_or_none};
ghost use Rattle.rows_table_map.specs.MetadataViews.{field_view, fields_left, extracted_view, remaining_names, names_view, signs_left, primary_key_left, IteratesCharsets};

use crate::Bits;
use crate::charsets::{ColumnCharsets, DefaultCharset};
use crate::columns_iter::{IterPrimaryKey, IterSignedness};
use crate::field::{OptionalMetadataField, OptionalMetadataIter};
use crate::names::{ColumnNames, IterNames};
use crate::primary_keys::{PrimaryKeysWithPrefix, SimplePrimaryKey};
use crate::served_charsets::IterCharset;
use rows_errors::RowsError;

/// The optional metadata that columns use. Of two fields of the same type the later one counts. The contents of a list aren't
/// checked before a column asks for its entry.
#[derive(Clone, Copy)]
pub struct OptionalMetaExtractor<'a> {
    signedness: Option<Bits<'a>>,
    default_charset: Option<DefaultCharset<'a>>,
    column_charset: Option<ColumnCharsets<'a>>,
    column_name: Option<ColumnNames<'a>>,
    simple_primary_key: Option<SimplePrimaryKey<'a>>,
    primary_key_with_prefix: Option<PrimaryKeysWithPrefix<'a>>,
    enum_and_set_default_charset: Option<DefaultCharset<'a>>,
    enum_and_set_column_charset: Option<ColumnCharsets<'a>>,
}

impl<'a> OptionalMetaExtractor<'a> {
    /// Collects these fields. Returns the error of the first field that can't be read: bytes that aren't a field, an unknown
    /// type, bits in too few or too many bytes, or a default character set that isn't a number.
    pub fn new(fields: OptionalMetadataIter<'a>) -> Result<OptionalMetaExtractor<'a>, RowsError>
        ensures { map_reading extracted_view result ≡ extracted (fields_left fields.entry) }
    {
        let mut found = OptionalMetaExtractor::of_nothing();
        for field in fields {
            match field {
                Ok(field) => found.take(field),
                Err(fault) => return Err(fault),
            }
        }
        Ok(found)
    }

    /// Returns the result for no fields.
    fn of_nothing() -> OptionalMetaExtractor<'a>
        ensures { extracted_view result ≡ nothing }
    {
        OptionalMetaExtractor {
            signedness: None,
            default_charset: None,
            column_charset: None,
            column_name: None,
            simple_primary_key: None,
            primary_key_with_prefix: None,
            enum_and_set_default_charset: None,
            enum_and_set_column_charset: None,
        }
    }

    /// Adds one more field.
    fn take(&mut self, field: OptionalMetadataField<'a>)
        ensures { extracted_view self.new ≡ with_field (extracted_view self.old) (field_view field.entry) }
    {
        match field {
            OptionalMetadataField::Signedness(bits) => self.signedness = Some(bits),
            OptionalMetadataField::DefaultCharset(charset) => self.default_charset = Some(charset),
            OptionalMetadataField::ColumnCharset(charsets) => self.column_charset = Some(charsets),
            OptionalMetadataField::ColumnName(names) => self.column_name = Some(names),
            OptionalMetadataField::SimplePrimaryKey(key) => self.simple_primary_key = Some(key),
            OptionalMetadataField::PrimaryKeyWithPrefix(key) => {
                self.primary_key_with_prefix = Some(key);
            }
            OptionalMetadataField::EnumAndSetDefaultCharset(charset) => {
                self.enum_and_set_default_charset = Some(charset);
            }
            OptionalMetadataField::EnumAndSetColumnCharset(charsets) => {
                self.enum_and_set_column_charset = Some(charsets);
            }
            OptionalMetadataField::SetStrValue(_)
            | OptionalMetadataField::EnumStrValue(_)
            | OptionalMetadataField::GeometryType(_)
            | OptionalMetadataField::ColumnVisibility(_)
            | OptionalMetadataField::Dimensionality(_) => {}
        }
    }

    /// Iterates over the numeric columns in order: whether each is unsigned. Empty if the table map has no signedness field.
    pub fn iter_signedness(&self) -> IterSignedness<'a>
        ensures { signs_left result ≡ signs_or_none (extracted_view self.now).signs }
    {
        match self.signedness {
            Some(bits) => IterSignedness::of(bits),
            None => IterSignedness::of(Bits::highest(&[], 0)),
        }
    }

    /// Iterates over the character sets of the character columns, in order. With a default character set it never ends, so call
    /// it once for each column; without any character sets it is empty.
    pub fn iter_charset(&self) -> IterCharset<'a>
        ensures { IteratesCharsets result (charset_item (extracted_view self.now).charset (extracted_view self.now).charsets) }
    {
        IterCharset::of(self.default_charset, self.column_charset)
    }

    /// Iterates over the character sets of the `ENUM` and `SET` columns, in order. With a default character set it never ends, so
    /// call it once for each column; without any character sets it is empty.
    pub fn iter_enum_and_set_charset(&self) -> IterCharset<'a>
        ensures { IteratesCharsets result (charset_item (extracted_view self.now).enum_charset (extracted_view self.now).enum_charsets) }
    {
        IterCharset::of(
            self.enum_and_set_default_charset,
            self.enum_and_set_column_charset,
        )
    }

    /// Iterates over the indexes of the columns in the primary key: first whole columns, then columns with a prefix.
    pub fn iter_primary_key(&self) -> IterPrimaryKey<'a>
        ensures { primary_key_left result ≡ key_indexes (extracted_view self.now).simple_key (extracted_view self.now).prefixed_key }
    {
        IterPrimaryKey::of(self.simple_primary_key, self.primary_key_with_prefix)
    }

    /// Returns the names of the columns, in order; none if the table map has no names.
    pub fn column_names(&self) -> ColumnNames<'a>
        ensures { names_view result ≡ bytes_or_none (extracted_view self.now).names }
    {
        match self.column_name {
            Some(names) => names,
            None => ColumnNames::of_value(&[]),
        }
    }

    /// Iterates over the names of the columns, in order. Empty if the table map has no names.
    pub fn iter_column_name(&self) -> IterNames<'a>
        ensures { remaining_names result ≡ strings (bytes_or_none (extracted_view self.now).names) }
    {
        self.column_names().iter_names()
    }
}
