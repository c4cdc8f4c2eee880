//! The descriptions of tables in a record.

use crate::numbers::{put_text, put_word};
use rows_errors::RowsError;
use rows_table_map::{
    ColumnMeta, ColumnsStrValues, IterCharset, IterNames, IterSignedness, IterStrValues,
    OptionalMetaExtractor, OptionalMetadataField, StrValues, TableMapEvent,
};
use std::alloc::{AllocError, Global};
use wire_constants::ColumnType;

/// The bits of a column.
const UNSIGNED: u8 = 1;

const KEY: u8 = 2;

const NULLABLE: u8 = 4;

/// What the metadata has for the remaining columns.
#[derive(Drop)]
struct Remaining<'a> {
    names: IterNames<'a>,
    signs: IterSignedness<'a>,
    texts: IterCharset<'a>,
    members: IterCharset<'a>,
    enums: Option<IterStrValues<'a>>,
    sets: Option<IterStrValues<'a>>,
}

/// The members of ENUM and of SET columns: of several fields of a kind the last one.
fn member_lists<'a>(
    map: &'a TableMapEvent<'_>,
) -> (Option<ColumnsStrValues<'a>>, Option<ColumnsStrValues<'a>>) {
    let mut enums = None;
    let mut sets = None;
    for field in map.iter_optional_meta() {
        match field {
            Ok(OptionalMetadataField::EnumStrValue(values)) => enums = Some(values),
            Ok(OptionalMetadataField::SetStrValue(values)) => sets = Some(values),
            _ => {}
        }
    }
    (enums, sets)
}

/// The members of the next column; None if there are none that can be read. `AllocError`: out of memory.
fn next_list<'a>(
    lists: &mut Option<IterStrValues<'a>>,
) -> Result<Option<StrValues<'a>>, AllocError> {
    let Some(lists) = lists else {
        return Ok(None);
    };
    match lists.next() {
        Some(Ok(members)) => Ok(Some(members)),
        Some(Err(RowsError::Memory)) => Err(AllocError),
        _ => Ok(None),
    }
}

/// The number of a collation; 0 if it can't be read.
fn collation_of(charset: Option<Result<u16, RowsError>>) -> u16 {
    match charset {
        Some(Ok(collation)) => collation,
        _ => 0,
    }
}

/// The type of a column, an ENUM or a SET among strings; UNKNOWN if it can't be read.
fn type_of(column: ColumnMeta<'_>) -> ColumnType {
    match column.real_type() {
        Ok(column_type) => column_type,
        Err(_) => ColumnType::MYSQL_TYPE_UNKNOWN,
    }
}

impl<'a> Remaining<'a> {
    /// What these fields have.
    fn of(
        alloc: Global,
        fields: OptionalMetaExtractor<'a>,
        enums: Option<ColumnsStrValues<'a>>,
        sets: Option<ColumnsStrValues<'a>>,
    ) -> Remaining<'a> {
        Remaining {
            names: fields.iter_column_name(),
            signs: fields.iter_signedness(),
            texts: fields.iter_charset(),
            members: fields.iter_enum_and_set_charset(),
            enums: match enums {
                Some(values) => Some(values.iter_values(alloc)),
                None => None,
            },
            sets: match sets {
                Some(values) => Some(values.iter_values(alloc)),
                None => None,
            },
        }
    }

    /// Whether the next column, which has this type, is unsigned.
    fn next_sign(&mut self, column_type: ColumnType) -> bool {
        column_type.is_numeric_type() && self.signs.next().unwrap_or(false)
    }

    /// The collation of the next column, which has this type; 0 if there is none.
    fn next_collation(&mut self, column_type: ColumnType) -> u16 {
        if column_type.is_character_type() || column_type.is_geometry_type() {
            collation_of(self.texts.next())
        } else if column_type.is_enum_or_set_type() {
            collation_of(self.members.next())
        } else {
            0
        }
    }

    /// The members of the next column, which has this type.
    fn next_members(
        &mut self,
        column_type: ColumnType,
    ) -> Result<Option<StrValues<'a>>, AllocError> {
        match column_type {
            ColumnType::MYSQL_TYPE_ENUM => next_list(&mut self.enums),
            ColumnType::MYSQL_TYPE_SET => next_list(&mut self.sets),
            _ => Ok(None),
        }
    }

    /// Appends the name of the next column; no bytes if it isn't there.
    fn put_name(&mut self, out: &mut Vec<u8>) -> Result<(), AllocError> {
        match self.names.next() {
            Some(Ok(name)) => put_text(name.name_raw(), out),
            _ => put_text(&[], out),
        }
    }

    /// Appends the next column, whose bits for key and NULL these are.
    fn put_column(
        &mut self,
        column: ColumnMeta<'_>,
        bits: u8,
        out: &mut Vec<u8>,
    ) -> Result<(), AllocError> {
        let column_type = type_of(column);
        let sign = if self.next_sign(column_type) {
            UNSIGNED
        } else {
            0
        };
        out.push(column_type as u8)?;
        out.push(bits | sign)?;
        out.extend_from_slice(&self.next_collation(column_type).to_le_bytes())?;
        let members = self.next_members(column_type)?;
        let values = match &members {
            Some(members) => members.values(),
            None => &[],
        };
        put_word(values.len() as u64, out)?;
        self.put_name(out)?;
        for value in values {
            put_text(value.value_raw(), out)?;
        }
        Ok(())
    }
}

/// The bits of each column: whether it may be NULL, and is in the primary key.
fn bits_of(
    alloc: Global,
    map: &TableMapEvent<'_>,
    fields: &OptionalMetaExtractor<'_>,
) -> Result<Vec<u8>, AllocError> {
    let mut bits = Vec::new(alloc);
    let nullable = map.null_bitmask();
    for index in 0..map.column_types_raw().len() {
        let is_nullable = nullable.get(index) == Some(true);
        bits.push(if is_nullable { NULLABLE } else { 0 })?;
    }
    for index in fields.iter_primary_key() {
        if let Ok(index) = index {
            if index < bits.len() as u64 {
                bits[index as usize] |= KEY;
            }
        }
    }
    Ok(bits)
}

/// The optional metadata of a table map; none if it can't be read.
fn fields_of<'a>(map: &'a TableMapEvent<'_>) -> Option<OptionalMetaExtractor<'a>> {
    match OptionalMetaExtractor::new(map.iter_optional_meta()) {
        Ok(fields) => Some(fields),
        Err(_) => None,
    }
}

/// Appends the content of a table's element: its names, and its columns. `AllocError`: out of memory, or its optional metadata can't be
/// read.
pub(crate) fn put_table(
    alloc: Global,
    map: &TableMapEvent<'_>,
    out: &mut Vec<u8>,
) -> Result<(), AllocError> {
    put_text(map.database_name_raw(), out)?;
    put_text(map.table_name_raw(), out)?;
    let Some(fields) = fields_of(map) else {
        return Err(AllocError);
    };
    let bits = bits_of(alloc, map, &fields)?;
    let (enums, sets) = member_lists(map);
    let mut remaining = Remaining::of(alloc, fields, enums, sets);
    let mut columns = map.columns();
    put_word(bits.len() as u64, out)?;
    for bits in bits {
        let Some(column) = columns.next_column() else {
            break;
        };
        remaining.put_column(column, bits, out)?;
    }
    Ok(())
}
