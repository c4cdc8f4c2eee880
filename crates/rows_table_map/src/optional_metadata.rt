//! The optional metadata of a table map.

ghost use Rattle.std.specs.Prelude.{◌≡◌};
ghost use Rattle.rows_table_map.specs.MetadataFields.{fields};
ghost use Rattle.rows_table_map.specs.MetadataViews.{fields_left};
ghost use Rattle.rows_table_map.specs.MapViews.{map_of};

use crate::OptionalMetadataIter;
use crate::table_map::TableMapEvent;

impl TableMapEvent<'_> {
    /// Iterates over the fields of the optional metadata, in order. A field with an unknown type or an invalid value is an error,
    /// and the next fields follow; bytes that can't be split into a type, a length and a value are the last item.
    pub fn iter_optional_meta(&self) -> OptionalMetadataIter<'_>
        ensures { fields_left result ≡ fields (map_of self.now).column_types (map_of self.now).optional_metadata }
    {
        OptionalMetadataIter::new(self.column_types_raw(), self.optional_metadata_raw())
    }
}
