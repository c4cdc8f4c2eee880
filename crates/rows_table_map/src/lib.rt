//! Table maps: a table, its columns, and their optional metadata, which are signs, character sets, names, keys and members. MySQL
//! Internals: Table_map_event.
//!
//! A table map is a sequence of fields (`specs/TableMaps.antt`); one definition covers reading and writing. `specs/Entries.antt`
//! defines the encoding of the entries of a list of optional metadata, `specs/Lists.antt` the items of a list, and
//! `specs/BitLists.antt` the order of the bits in bytes.
#![tactic(auto)]

mod bad_column_type;
mod bits;
mod charsets;
mod column_types;
mod columns;
mod columns_iter;
mod dimensionalities;
mod entries;
mod extractor;
mod field;
mod geometry_types;
mod lengths;
mod names;
mod optional_metadata;
mod primary_keys;
mod reading;
mod served_charsets;
mod str_values;
mod table_id;
mod table_map;
mod writing;

pub use bad_column_type::BadColumnType;
pub use bits::{Bits, BitsIter};
pub use charsets::{
    ColumnCharsets, DefaultCharset, IterCharsets, IterNonDefault, NonDefaultCharset,
};
pub use column_types::{metadata_len, real_type};
pub use columns::{ColumnMeta, IterColumns};
pub use columns_iter::{IterPrimaryKey, IterSignedness};
pub use dimensionalities::{IterVectorDimensionalities, VectorDimensionalities};
pub use extractor::OptionalMetaExtractor;
pub use field::{OptionalMetadataField, OptionalMetadataIter};
pub use geometry_types::{GeometryTypes, IterGeometryTypes};
pub use lengths::{MAX_EVENT_LEN, event_len};
pub use names::{ColumnName, ColumnNames, IterNames};
pub use primary_keys::{
    IterIndexes, IterKeys, PrimaryKeyWithPrefix, PrimaryKeysWithPrefix, SimplePrimaryKey,
};
pub use served_charsets::IterCharset;
pub use str_values::{
    ColumnsStrValues, EnumStrValue, EnumStrValues, EnumsStrValues, IterEnumStrValues,
    IterSetStrValues, IterStrValues, SetStrValue, SetStrValues, SetsStrValues, StrValue, StrValues,
};
pub use table_id::TableId;
pub use table_map::TableMapEvent;
