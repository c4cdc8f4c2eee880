//! The fields of the optional metadata that tables are shown by.

ghost use Rattle.std.specs.Prelude.{◌≡◌, []};
ghost use Rattle.rows_table_map.specs.MapViews.{map_of};
ghost use Rattle.rows_table_map.specs.MetadataViews.{field_view};
ghost use Rattle.changes_tables.specs.UsedMetadata.{used, used_metadata};
ghost use Rattle.rows_errors.specs.Readings.{map_reading};
ghost use Rattle.changes_tables.specs.FieldViews.{fields_view, with_field, with_read};

use rows_errors::RowsError;
use rows_table_map::{
    ColumnCharsets, ColumnNames, DefaultCharset, EnumsStrValues, OptionalMetadataField,
    PrimaryKeysWithPrefix, SetsStrValues, SimplePrimaryKey, TableMapEvent,
};

/// The collations of columns of one kind.
#[derive(Clone, Copy)]
pub(crate) enum CollationField<'a> {
    /// A default, and those of the columns with another one.
    WithDefault(DefaultCharset<'a>),
    /// One for each column.
    OneByOne(ColumnCharsets<'a>),
}

/// The columns of the primary key.
#[derive(Clone, Copy)]
pub(crate) enum KeyField<'a> {
    Simple(SimplePrimaryKey<'a>),
    WithPrefixes(PrimaryKeysWithPrefix<'a>),
}

/// The fields: of several of the same kind the last one.
#[derive(Clone, Copy)]
pub(crate) struct TableFields<'a> {
    pub(crate) names: Option<ColumnNames<'a>>,
    pub(crate) key: Option<KeyField<'a>>,
    /// The collations of strings and blobs. Servers count GEOMETRY among these.
    pub(crate) texts: Option<CollationField<'a>>,
    /// The collations of ENUM and SET columns.
    pub(crate) members: Option<CollationField<'a>>,
    pub(crate) enums: Option<EnumsStrValues<'a>>,
    pub(crate) sets: Option<SetsStrValues<'a>>,
}

impl<'a> TableFields<'a> {
    /// Returns the fields of a table map. Fields that can't be read are ignored.
    pub(crate) fn of(map: &'a TableMapEvent<'_>) -> TableFields<'a>
        ensures { fields_view result ≡ used_metadata (map_of map.now) }
    {
        let mut found = TableFields::none();
        for field in map.iter_optional_meta() {
            found.take_read(field);
        }
        found
    }

    /// Returns no fields.
    fn none() -> TableFields<'a>
        ensures { fields_view result ≡ used [] }
    {
        TableFields {
            names: None,
            key: None,
            texts: None,
            members: None,
            enums: None,
            sets: None,
        }
    }

    /// Adds one more field, if it can be read.
    fn take_read(&mut self, field: Result<OptionalMetadataField<'a>, RowsError>)
        ensures { fields_view self.new ≡ with_read (fields_view self.old) (map_reading field_view field.entry) }
    {
        match field {
            Ok(field) => self.take(field),
            Err(_) => {}
        }
    }

    /// Adds one more field.
    fn take(&mut self, field: OptionalMetadataField<'a>)
        ensures { fields_view self.new ≡ with_field (fields_view self.old) (field_view field.entry) }
    {
        match field {
            OptionalMetadataField::ColumnName(names) => self.names = Some(names),
            OptionalMetadataField::SimplePrimaryKey(key) => self.key = Some(KeyField::Simple(key)),
            OptionalMetadataField::PrimaryKeyWithPrefix(key) => {
                self.key = Some(KeyField::WithPrefixes(key));
            }
            OptionalMetadataField::DefaultCharset(charsets) => {
                self.texts = Some(CollationField::WithDefault(charsets));
            }
            OptionalMetadataField::ColumnCharset(charsets) => {
                self.texts = Some(CollationField::OneByOne(charsets));
            }
            OptionalMetadataField::EnumAndSetDefaultCharset(charsets) => {
                self.members = Some(CollationField::WithDefault(charsets));
            }
            OptionalMetadataField::EnumAndSetColumnCharset(charsets) => {
                self.members = Some(CollationField::OneByOne(charsets));
            }
            OptionalMetadataField::EnumStrValue(values) => self.enums = Some(values),
            OptionalMetadataField::SetStrValue(values) => self.sets = Some(values),
            OptionalMetadataField::Signedness(_)
            | OptionalMetadataField::GeometryType(_)
            | OptionalMetadataField::ColumnVisibility(_)
            | OptionalMetadataField::Dimensionality(_) => {}
        }
    }
}
