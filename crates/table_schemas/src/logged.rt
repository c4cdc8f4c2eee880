//! Which fields the optional metadata of a table map has.

ghost use Rattle.std.specs.Prelude.{◌≡◌, [], ◌∷◌};
ghost use Rattle.rows_table_map.specs.MapViews.{map_of};
ghost use Rattle.rows_table_map.specs.MetadataViews.{field_view};
ghost use Rattle.table_schemas.specs.LoggedFields.{kinds_of, logged_kinds};
ghost use Rattle.table_schemas.specs.KindsSoFar.{with_kind};

use rows_table_map::{OptionalMetadataField, TableMapEvent};

/// Which kinds of fields a table map has that a schema could add.
#[derive(Clone, Copy)]
pub(crate) struct Logged {
    /// Which columns are unsigned.
    pub(crate) signs: bool,
    /// The collations of strings, blobs and geometries.
    pub(crate) collations: bool,
    pub(crate) names: bool,
    /// The members of ENUM or SET columns.
    pub(crate) members: bool,
    /// The primary key.
    pub(crate) key: bool,
}

impl Logged {
    /// No fields.
    fn none() -> Logged
        ensures { result ≡ kinds_of [] }
    {
        Logged {
            signs: false,
            collations: false,
            names: false,
            members: false,
            key: false,
        }
    }

    /// Which fields a table map has; None if one of them can't be read.
    pub(crate) fn of(map: &TableMapEvent<'_>) -> Option<Logged>
        ensures { result ≡ logged_kinds (map_of map.now) }
    {
        let mut logged = Logged::none();
        for field in map.iter_optional_meta() {
            match field {
                Ok(field) => logged = logged.with(field),
                Err(_) => return None,
            }
        }
        Some(logged)
    }

    /// The same with one more field.
    fn with(self, field: OptionalMetadataField<'_>) -> Logged
        ensures { result ≡ with_kind self (field_view field.entry) }
    {
        match field {
            OptionalMetadataField::Signedness(_) => Logged {
                signs: true,
                ..self
            },
            OptionalMetadataField::DefaultCharset(_) | OptionalMetadataField::ColumnCharset(_) => {
                Logged {
                    collations: true,
                    ..self
                }
            }
            OptionalMetadataField::ColumnName(_) => Logged {
                names: true,
                ..self
            },
            OptionalMetadataField::EnumStrValue(_) | OptionalMetadataField::SetStrValue(_) => {
                Logged {
                    members: true,
                    ..self
                }
            }
            OptionalMetadataField::SimplePrimaryKey(_)
            | OptionalMetadataField::PrimaryKeyWithPrefix(_) => Logged { key: true, ..self },
            _ => self,
        }
    }
}
