//! A table as a schema has it, with the fields that complete its table maps.

ghost use Rattle.std.specs.Prelude.{◌≡◌, ◌++◌, IfOk, OnOk};
ghost use Rattle.rows_constants.specs.MetadataTypes.{optional_metadata_field_type_number as field_type_number};
ghost use Rattle.table_schemas.specs.WrittenFields.{field_or_none};
ghost use Rattle.table_schemas.specs.SchemaFields.{members_fields, key_field as field_of_key, IsTableOf};
ghost use Rattle.table_schemas.specs.CompletedMaps.{missing, unless_had};

use crate::fields::put_field;
use crate::logged::Logged;
use crate::schema_column::{KeyColumn, SchemaColumn};
use crate::values::{
    collations, enum_members, has_prefix, member_collations, names, prefixed_key, set_members,
    signs, simple_key,
};
use rows_constants::OptionalMetadataFieldType;
use std::alloc::{AllocError, Global};

/// A table: its columns, and the fields that complete its table maps, each with its type, its length and its value.
#[derive(Drop)]
pub struct SchemaTable {
    pub(crate) columns: Vec<SchemaColumn>,
    signs: Vec<u8>,
    collations: Vec<u8>,
    names: Vec<u8>,
    /// The members of ENUM and SET columns, and their collations.
    members: Vec<u8>,
    key: Vec<u8>,
}

/// Appends bytes, unless they are had.
fn put_unless(is_had: bool, bytes: &[u8], out: &mut Vec<u8>) -> Result<(), AllocError>
    ensures { OnOk result (out.new.items ≡ out.old.items ++ unless_had is_had bytes.now) }
{
    if is_had {
        return Ok(());
    }
    out.extend_from_slice(bytes)
}

/// A field with this value.
fn field(
    alloc: Global,
    field_type: OptionalMetadataFieldType,
    value: Vec<u8>,
) -> Result<Vec<u8>, AllocError>
    ensures { IfOk result (λ v. v.items ≡ field_or_none (field_type_number field_type) value.items) }
{
    let mut out = Vec::new(alloc);
    put_field(field_type as u8, &value, &mut out)?;
    Ok(out)
}

/// The fields of the members of a table's columns, and of their collations.
fn member_fields(alloc: Global, columns: &[SchemaColumn]) -> Result<Vec<u8>, AllocError>
    ensures { IfOk result (λ v. v.items ≡ members_fields columns.now) }
{
    let mut out = Vec::new(alloc);
    put_field(
        OptionalMetadataFieldType::ENUM_AND_SET_COLUMN_CHARSET as u8,
        &member_collations(alloc, columns)?,
        &mut out,
    )?;
    put_field(
        OptionalMetadataFieldType::SET_STR_VALUE as u8,
        &set_members(alloc, columns)?,
        &mut out,
    )?;
    put_field(
        OptionalMetadataFieldType::ENUM_STR_VALUE as u8,
        &enum_members(alloc, columns)?,
        &mut out,
    )?;
    Ok(out)
}

/// The field of a primary key.
fn key_field(alloc: Global, key: &[KeyColumn]) -> Result<Vec<u8>, AllocError>
    ensures { IfOk result (λ v. v.items ≡ field_of_key key.now) }
{
    if has_prefix(key) {
        let value = prefixed_key(alloc, key)?;
        return field(
            alloc,
            OptionalMetadataFieldType::PRIMARY_KEY_WITH_PREFIX,
            value,
        );
    }
    let value = simple_key(alloc, key)?;
    field(alloc, OptionalMetadataFieldType::SIMPLE_PRIMARY_KEY, value)
}

impl SchemaTable {
    /// Returns the table with these columns and this primary key, whose columns are in the key's order; without a key it has none.
    /// `AllocError`: out of memory.
    pub fn of(
        alloc: Global,
        columns: Vec<SchemaColumn>,
        key: &[KeyColumn],
    ) -> Result<SchemaTable, AllocError>
        ensures { IfOk result (λ t. IsTableOf columns.items key.now t) }
    {
        Ok(SchemaTable {
            signs: field(
                alloc,
                OptionalMetadataFieldType::SIGNEDNESS,
                signs(alloc, &columns)?,
            )?,
            collations: field(
                alloc,
                OptionalMetadataFieldType::COLUMN_CHARSET,
                collations(alloc, &columns)?,
            )?,
            names: field(
                alloc,
                OptionalMetadataFieldType::COLUMN_NAME,
                names(alloc, &columns)?,
            )?,
            members: member_fields(alloc, &columns)?,
            key: key_field(alloc, key)?,
            columns,
        })
    }

    /// Appends the fields that a table map lacks which has these.
    pub(crate) fn put_missing(&self, logged: Logged, out: &mut Vec<u8>) -> Result<(), AllocError>
        ensures { OnOk result (out.new.items ≡ out.old.items ++ missing logged self.now) }
    {
        put_unless(logged.signs, &self.signs, out)?;
        put_unless(logged.collations, &self.collations, out)?;
        put_unless(logged.names, &self.names, out)?;
        put_unless(logged.members, &self.members, out)?;
        put_unless(logged.key, &self.key, out)
    }
}
