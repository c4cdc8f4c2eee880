//! The fields of a table map's optional metadata.

ghost use Rattle.std.specs.Prelude.{◌≡◌, count_by, length};
ghost use Rattle.std.specs.Iterator.{YieldsFirstBy, item_count};
ghost use Rattle.rows_errors.specs.Readings.{map_reading};
ghost use Rattle.rows_table_map.specs.KnownConstants.{field_type};
ghost use Rattle.rows_table_map.specs.MetadataFields.{field_of as field_of_type, field_in, fields, bits_in, is_numeric_number, numeric_count};
ghost use Rattle.rows_table_map.specs.MetadataViews.{bits_view, field_view, fields_left};

use crate::Bits;
use crate::charsets::{ColumnCharsets, DefaultCharset};
use crate::dimensionalities::VectorDimensionalities;
use crate::entries::Entries;
use crate::geometry_types::GeometryTypes;
use crate::names::ColumnNames;
use crate::primary_keys::{PrimaryKeysWithPrefix, SimplePrimaryKey};
use crate::str_values::{EnumsStrValues, SetsStrValues};
use rows_constants::OptionalMetadataFieldType;
use rows_errors::RowsError;
use wire_constants::ColumnType;

/// A field of the optional metadata, borrowed from the table map's bytes. MySQL Internals: Table_map_event.
#[derive(Clone, Copy, PartialEq, Eq)]
pub enum OptionalMetadataField<'a> {
    /// For each numeric column, whether it is unsigned.
    Signedness(Bits<'a>),
    /// The default character set of character columns, and the columns with another one.
    DefaultCharset(DefaultCharset<'a>),
    /// The character set of each character column.
    ColumnCharset(ColumnCharsets<'a>),
    /// The names of the columns.
    ColumnName(ColumnNames<'a>),
    /// The members of each `SET` column.
    SetStrValue(SetsStrValues<'a>),
    /// The members of each `ENUM` column.
    EnumStrValue(EnumsStrValues<'a>),
    /// The type of each geometry column.
    GeometryType(GeometryTypes<'a>),
    /// The columns of a primary key without prefixes.
    SimplePrimaryKey(SimplePrimaryKey<'a>),
    /// The columns of a primary key with prefixes.
    PrimaryKeyWithPrefix(PrimaryKeysWithPrefix<'a>),
    /// The default character set of `ENUM` and `SET` columns, and the columns with another one.
    EnumAndSetDefaultCharset(DefaultCharset<'a>),
    /// The character set of each `ENUM` and `SET` column.
    EnumAndSetColumnCharset(ColumnCharsets<'a>),
    /// For each column, whether it is visible.
    ColumnVisibility(Bits<'a>),
    /// The number of dimensions of each vector column.
    Dimensionality(VectorDimensionalities<'a>),
}

/// The remaining fields of the optional metadata. A field with an unknown type or an invalid value is an error, and the next
/// fields follow; bytes that can't be split into a type, a length and a value are the last item.
#[derive(Clone, Copy)]
pub struct OptionalMetadataIter<'a> {
    columns: &'a [u8],
    entries: Entries<'a>,
}

impl<'a> OptionalMetadataIter<'a> {
    /// Creates an iterator over the fields in these bytes, for a table whose columns have these type bytes in the table map.
    pub fn new(columns: &'a [u8], bytes: &'a [u8]) -> OptionalMetadataIter<'a>
        ensures { fields_left result ≡ fields columns.entry.now bytes.entry.now }
    {
        OptionalMetadataIter {
            columns,
            entries: Entries::of(bytes),
        }
    }
}

impl<'a> Iterator for OptionalMetadataIter<'a> {
    type Item = Result<OptionalMetadataField<'a>, RowsError>;

    ghost next_gives = { YieldsFirstBy (map_reading field_view) fields_left };

    ghost remaining = { item_count fields_left };

    /// Returns the next field, or an error.
    ///
    /// - `EndOfBody`: a type, a length or a value is incomplete; this is the last item.
    /// - `UnknownNumber`: a length begins with 251 or 255; this is the last item.
    /// - `UnknownNumber`: no field has the type, or a default character set begins with 251 or 255.
    /// - `EndOfBody`, `RemainingBytes`: there are too few or too many bytes for the bits; `EndOfBody` also if a default character
    ///   set is incomplete.
    fn next(&mut self) -> Option<Result<OptionalMetadataField<'a>, RowsError>> {
        match self.entries.next_tagged() {
            Some(Ok((number, value))) => Some(field_in(self.columns, number, value)),
            Some(Err(fault)) => Some(Err(fault)),
            None => None,
        }
    }
}

/// Returns the field whose type has this number.
fn field_in<'a>(
    columns: &[u8],
    number: u8,
    value: &'a [u8],
) -> Result<OptionalMetadataField<'a>, RowsError>
    ensures { map_reading field_view result ≡ field_in columns.now number value.now }
{
    match type_of(number) {
        Ok(kind) => field_of(columns, kind, value),
        Err(fault) => Err(fault),
    }
}

/// Returns the type with this number.
fn type_of(number: u8) -> Result<OptionalMetadataFieldType, RowsError>
    ensures { result ≡ field_type number }
{
    match OptionalMetadataFieldType::try_from(number) {
        Ok(known) => Ok(known),
        Err(_) => Err(RowsError::UnknownNumber),
    }
}

/// Returns the field of this type.
fn field_of<'a>(
    columns: &[u8],
    kind: OptionalMetadataFieldType,
    value: &'a [u8],
) -> Result<OptionalMetadataField<'a>, RowsError>
    ensures { map_reading field_view result ≡ field_of_type columns.now kind value.now }
{
    Ok(match kind {
        OptionalMetadataFieldType::SIGNEDNESS => {
            OptionalMetadataField::Signedness(bits_of(value, numeric_columns(columns))?)
        }
        OptionalMetadataFieldType::DEFAULT_CHARSET => {
            OptionalMetadataField::DefaultCharset(DefaultCharset::of_value(value)?)
        }
        OptionalMetadataFieldType::COLUMN_CHARSET => {
            OptionalMetadataField::ColumnCharset(ColumnCharsets::of_value(value))
        }
        OptionalMetadataFieldType::COLUMN_NAME => {
            OptionalMetadataField::ColumnName(ColumnNames::of_value(value))
        }
        OptionalMetadataFieldType::SET_STR_VALUE => {
            OptionalMetadataField::SetStrValue(SetsStrValues::of_value(value))
        }
        OptionalMetadataFieldType::ENUM_STR_VALUE => {
            OptionalMetadataField::EnumStrValue(EnumsStrValues::of_value(value))
        }
        OptionalMetadataFieldType::GEOMETRY_TYPE => {
            OptionalMetadataField::GeometryType(GeometryTypes::of_value(value))
        }
        OptionalMetadataFieldType::SIMPLE_PRIMARY_KEY => {
            OptionalMetadataField::SimplePrimaryKey(SimplePrimaryKey::of_value(value))
        }
        OptionalMetadataFieldType::PRIMARY_KEY_WITH_PREFIX => {
            OptionalMetadataField::PrimaryKeyWithPrefix(PrimaryKeysWithPrefix::of_value(value))
        }
        OptionalMetadataFieldType::ENUM_AND_SET_DEFAULT_CHARSET => {
            OptionalMetadataField::EnumAndSetDefaultCharset(DefaultCharset::of_value(value)?)
        }
        OptionalMetadataFieldType::ENUM_AND_SET_COLUMN_CHARSET => {
            OptionalMetadataField::EnumAndSetColumnCharset(ColumnCharsets::of_value(value))
        }
        OptionalMetadataFieldType::COLUMN_VISIBILITY => {
            OptionalMetadataField::ColumnVisibility(bits_of(value, columns.len())?)
        }
        OptionalMetadataFieldType::VECTOR_DIMENSIONALITY => {
            OptionalMetadataField::Dimensionality(VectorDimensionalities::of_value(value))
        }
    })
}

/// Returns `len` bits in exactly the bytes needed, from the highest bit of each byte. Returns `EndOfBody` if there are fewer
/// bytes, `RemainingBytes` if there are more.
fn bits_of(value: &[u8], len: usize) -> Result<Bits<'_>, RowsError>
    ensures { map_reading bits_view result ≡ bits_in len value.now }
{
    let size = len.div_ceil(8);
    if value.len() < size {
        return Err(RowsError::EndOfBody);
    }
    if value.len() > size {
        return Err(RowsError::RemainingBytes);
    }
    Ok(Bits::highest(value, len))
}

/// Returns how many of these types are numeric.
fn numeric_columns(columns: &[u8]) -> usize
    ensures { result ≡ numeric_count columns.now }
{
    columns.iter().filter(|number| is_numeric(**number)).count()
}

/// Returns whether the number is that of a numeric type; false for a number that no type has.
fn is_numeric(number: u8) -> bool
    ensures { result ≡ is_numeric_number number }
{
    match ColumnType::try_from(number) {
        Ok(known) => known.is_numeric_type(),
        Err(_) => false,
    }
}
