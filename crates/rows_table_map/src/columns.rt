//! The columns of a table map: the type and the metadata of each.

ghost use Rattle.std.specs.Prelude.{◌≡◌, ◌≤◌, ◌==◌, IfSome, count_by};
ghost use Rattle.std.specs.Option.{option_map};
ghost use Rattle.rows_table_map.specs.ColumnViews.{slice_bytes};
ghost use Rattle.rows_table_map.specs.ColumnMetadata.{column_type as column_type_of, array_size, size_by_type, split_optional, plain_size, split_metadata as prefix_of};

use crate::bad_column_type::BadColumnType;
use crate::column_types::{metadata_len, real_type};
use crate::table_map::TableMapEvent;
use wire_constants::{ColumnType, UnknownColumnType};

/// A column of a table map, borrowed from its bytes.
#[derive(Clone, Copy, Debug, PartialEq, Eq)]
pub struct ColumnMeta<'a> {
    /// The number of its type.
    pub number: u8,
    /// The metadata: as many bytes as its type has; empty if its size is unknown or bytes are missing.
    pub metadata: &'a [u8],
}

impl ColumnMeta<'_> {
    ghost use Rattle.rows_table_map.specs.ColumnViews.{column_meta_view, real_type_of};

    /// Returns the real type: `NEWDATE` for a DATE; a STRING may be an ENUM or a SET.
    ///
    /// - `Unknown`: no type has the number.
    /// - `Unexpected`: a STRING's metadata gives another type.
    pub fn real_type(&self) -> Result<ColumnType, BadColumnType>
        ensures { result ≡ real_type_of (column_meta_view self.now) }
    {
        match column_type(self.number) {
            Some(column_type) => real_type(column_type, self.metadata),
            None => Err(BadColumnType::Unknown(UnknownColumnType(self.number))),
        }
    }
}

/// The remaining columns of a table map, in order.
#[derive(Clone, Copy, Debug)]
pub struct IterColumns<'a> {
    types: &'a [u8],
    /// The metadata of these columns and the bytes after it; None once the size of a column's metadata is unknown or bytes are
    /// missing.
    metadata: Option<&'a [u8]>,
}

impl<'a> IterColumns<'a> {
    ghost use Rattle.std.specs.Prelude.{Some};
    ghost use Rattle.rows_table_map.specs.ColumnMetadata.{columns_with_metadata};
    ghost use Rattle.rows_table_map.specs.ColumnViews.{remaining_columns, ReturnsColumn};

    /// Iterates over the columns with these types and this metadata.
    pub fn new(types: &'a [u8], metadata: &'a [u8]) -> IterColumns<'a>
        ensures { remaining_columns result ≡ columns_with_metadata types.entry.now (Some metadata.entry.now) }
    {
        IterColumns {
            types,
            metadata: Some(metadata),
        }
    }

    /// Returns the next column, or None after the last.
    #[tactic(auto, unfolding(crate::specs::ColumnMetadata::columns_with_metadata))]
    pub fn next_column(&mut self) -> Option<ColumnMeta<'a>>
        ensures { ReturnsColumn self.old result self.new }
    {
        let (number, types) = self.types.split_first()?;
        self.types = types;
        match split_metadata(*number, self.metadata) {
            Some((metadata, rest)) => {
                self.metadata = Some(rest);
                Some(ColumnMeta {
                    number: *number,
                    metadata,
                })
            }
            None => {
                self.metadata = None;
                Some(ColumnMeta {
                    number: *number,
                    metadata: &[],
                })
            }
        }
    }
}

impl TableMapEvent<'_> {
    ghost use Rattle.std.specs.Prelude.{slice_get};
    ghost use Rattle.wire_constants.specs.ColumnTypes.{column_type_number};
    ghost use Rattle.wire_constants.specs.declared.column_type.ColumnType.TheVariants as column;
    ghost use Rattle.rows_table_map.specs.ColumnViews.{remaining_columns, table_map_columns, column_meta_view, metadata_in, type_in};
    ghost use Rattle.rows_table_map.specs.MapViews.{map_of};

    /// Iterates over the columns, in order.
    pub fn columns(&self) -> IterColumns<'_>
        ensures { remaining_columns result ≡ table_map_columns self.now }
    {
        IterColumns::new(self.column_types_raw(), self.metadata_raw())
    }

    /// Returns the number of columns of type JSON.
    pub fn json_column_count(&self) -> usize
        ensures { result ≡ count_by (λ n. n == column_type_number column.MYSQL_TYPE_JSON) (map_of self.now).column_types }
    {
        self.column_types_raw()
            .iter()
            .filter(|number| **number == ColumnType::MYSQL_TYPE_JSON as u8)
            .count()
    }

    /// Returns the column at `index`, or None if there are fewer columns.
    pub fn column(&self, index: usize) -> Option<ColumnMeta<'_>>
        ensures { option_map column_meta_view result ≡ slice_get (table_map_columns self.now) index }
    {
        let mut columns = self.columns();
        for _ in 0..index {
            match columns.next_column() {
                Some(_) => {}
                None => return None,
            }
        }
        columns.next_column()
    }

    /// Returns the metadata of the column at `index`, or None if there are fewer columns. It has as many bytes as the column's
    /// type has; it is empty if its size is unknown or bytes are missing.
    pub fn get_column_metadata(&self, index: usize) -> Option<&[u8]>
        ensures { slice_bytes result ≡ metadata_in (slice_get (table_map_columns self.now) index) }
    {
        match self.column(index) {
            Some(column) => Some(column.metadata),
            None => None,
        }
    }

    /// Returns the real type of the column at `index`, or None if there are fewer columns. Returns the errors of
    /// [`ColumnMeta::real_type`].
    pub fn get_column_type(&self, index: usize) -> Result<Option<ColumnType>, BadColumnType>
        ensures { result ≡ type_in (slice_get (table_map_columns self.now) index) }
    {
        let Some(column) = self.column(index) else {
            return Ok(None);
        };
        match column.real_type() {
            Ok(real) => Ok(Some(real)),
            Err(bad) => Err(bad),
        }
    }
}

/// Splits off the metadata of a column of this type, and returns it and the rest.
fn split_metadata<'a>(number: u8, rest: Option<&'a [u8]>) -> Option<(&'a [u8], &'a [u8])>
    ensures { option_map (λ x. (x.0.now, x.1.now)) result ≡ prefix_of number (slice_bytes rest.entry) }
{
    let bytes = rest?;
    let len = metadata_len_by_type(column_type(number), bytes)?;
    if len > bytes.len() {
        return None;
    }
    Some(bytes.split_at(len))
}

/// Returns the size of a column's metadata, by its type and by the bytes of the metadata.
fn metadata_len_by_type(column_type: Option<ColumnType>, bytes: &[u8]) -> Option<usize>
    ensures { result ≡ size_by_type column_type bytes.now }
{
    match column_type {
        None => None,
        Some(ColumnType::MYSQL_TYPE_TYPED_ARRAY) => array_len(bytes),
        Some(column_type) => Some(metadata_len(column_type)),
    }
}

/// Returns the size of a `TYPED_ARRAY`'s metadata; None if an element's type is missing or unknown.
fn array_len(bytes: &[u8]) -> Option<usize>
    ensures { result ≡ array_size bytes.now }
{
    for (depth, number) in bytes.iter().enumerate() {
        match column_type(*number) {
            Some(element) => match plain_len(element) {
                Some(len) => return Some(depth + len),
                None => {}
            },
            None => return None,
        }
    }
    None
}

/// Returns the size of an array element's type and metadata; None for an array of arrays.
fn plain_len(element: ColumnType) -> Option<usize>
    ensures value { result ≡ plain_size element }
    ensures small { IfSome result (λ len. len ≤ 4) }
{
    match element {
        ColumnType::MYSQL_TYPE_TYPED_ARRAY => None,
        ColumnType::MYSQL_TYPE_VARCHAR => Some(4),
        _ => Some(1 + metadata_len(element)),
    }
}

/// Returns the type with this number, if there is one.
fn column_type(number: u8) -> Option<ColumnType>
    ensures { result ≡ column_type_of number }
{
    match ColumnType::try_from(number) {
        Ok(column_type) => Some(column_type),
        Err(_) => None,
    }
}
