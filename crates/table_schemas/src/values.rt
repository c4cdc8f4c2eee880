//! The values of the fields of the optional metadata, for the columns of a table.

ghost use Rattle.std.specs.Prelude.{◌≡◌, ◌++◌, IfOk, OnOk};
ghost use Rattle.std.specs.List.{flat_map};
ghost use Rattle.wire_fields.specs.Strings.{lenenc_string_encoded};
ghost use Rattle.table_schemas.specs.WrittenFields.{packed};
ghost use Rattle.table_schemas.specs.SchemaFields.{sign_entry, collation_entry, member_collation, member_collation_entry, name_entry, members_entry, enum_entry, set_entry, simple_entry, prefixed_entry, has_prefix};

use crate::fields::{packed, put_number, put_string};
use crate::schema_column::{KeyColumn, SchemaColumn};
use std::alloc::{AllocError, Global};

/// The number of the collation of bytes.
const BINARY: u16 = 63;

/// The number of the collation `utf8mb4_general_ci`, which both servers have. A schema has members in UTF-8.
const UTF8MB4: u16 = 45;

/// Appends whether a column is unsigned, if it is numeric.
fn push_sign(column: &SchemaColumn, signs: &mut Vec<bool>) -> Result<(), AllocError>
    ensures { OnOk result (signs.new.items ≡ signs.old.items ++ sign_entry column.now) }
{
    if column.column_type.is_numeric_type() {
        signs.push(column.is_unsigned)?;
    }
    Ok(())
}

/// Whether each numeric column is unsigned.
fn sign_bits(alloc: Global, columns: &[SchemaColumn]) -> Result<Vec<bool>, AllocError>
    ensures { IfOk result (λ v. v.items ≡ flat_map sign_entry columns.now) }
{
    let mut bits = Vec::new(alloc);
    for column in columns {
        push_sign(column, &mut bits)?;
    }
    Ok(bits)
}

/// The value of SIGNEDNESS: a bit for each numeric column.
pub(crate) fn signs(alloc: Global, columns: &[SchemaColumn]) -> Result<Vec<u8>, AllocError>
    ensures { IfOk result (λ v. v.items ≡ packed (flat_map sign_entry columns.now)) }
{
    let bits = sign_bits(alloc, columns)?;
    packed(alloc, &bits)
}

/// Appends the collation of a column, if it is among those of strings, blobs and geometries.
fn put_collation(column: &SchemaColumn, out: &mut Vec<u8>) -> Result<(), AllocError>
    ensures { OnOk result (out.new.items ≡ out.old.items ++ collation_entry column.now) }
{
    let column_type = column.column_type;
    if column_type.is_character_type() || column_type.is_geometry_type() {
        put_number(u64::from(column.collation), out)?;
    }
    Ok(())
}

/// The value of COLUMN_CHARSET: the collation of each column that has text, bytes or a geometry.
pub(crate) fn collations(alloc: Global, columns: &[SchemaColumn]) -> Result<Vec<u8>, AllocError>
    ensures { IfOk result (λ v. v.items ≡ flat_map collation_entry columns.now) }
{
    let mut out = Vec::new(alloc);
    for column in columns {
        put_collation(column, &mut out)?;
    }
    Ok(out)
}

/// The collation of the members of a column, which are UTF-8 unless they are bytes.
fn member_collation(column: &SchemaColumn) -> u16
    ensures { result ≡ member_collation column.now }
{
    if column.collation == BINARY {
        BINARY
    } else {
        UTF8MB4
    }
}

/// Appends the collation of the members of a column, if it is an ENUM or a SET.
fn put_member_collation(column: &SchemaColumn, out: &mut Vec<u8>) -> Result<(), AllocError>
    ensures { OnOk result (out.new.items ≡ out.old.items ++ member_collation_entry column.now) }
{
    if column.column_type.is_enum_or_set_type() {
        put_number(u64::from(member_collation(column)), out)?;
    }
    Ok(())
}

/// The value of ENUM_AND_SET_COLUMN_CHARSET: the collation of the members of each ENUM and SET.
pub(crate) fn member_collations(
    alloc: Global,
    columns: &[SchemaColumn],
) -> Result<Vec<u8>, AllocError>
    ensures { IfOk result (λ v. v.items ≡ flat_map member_collation_entry columns.now) }
{
    let mut out = Vec::new(alloc);
    for column in columns {
        put_member_collation(column, &mut out)?;
    }
    Ok(out)
}

/// The value of COLUMN_NAME: the name of each column.
pub(crate) fn names(alloc: Global, columns: &[SchemaColumn]) -> Result<Vec<u8>, AllocError>
    ensures { IfOk result (λ v. v.items ≡ flat_map name_entry columns.now) }
{
    let mut out = Vec::new(alloc);
    for column in columns {
        put_string(&column.name, &mut out)?;
    }
    Ok(out)
}

/// Appends strings.
fn put_strings(strings: &[Vec<u8>], out: &mut Vec<u8>) -> Result<(), AllocError>
    ensures { OnOk result (out.new.items ≡ out.old.items ++ flat_map (λ s. lenenc_string_encoded s.items) strings.now) }
{
    for string in strings {
        put_string(string, out)?;
    }
    Ok(())
}

/// Appends the members of a column: their number, and each as a string.
fn put_members(column: &SchemaColumn, out: &mut Vec<u8>) -> Result<(), AllocError>
    ensures { OnOk result (out.new.items ≡ out.old.items ++ members_entry column.now) }
{
    put_number(column.members.len() as u64, out)?;
    put_strings(&column.members, out)
}

/// Appends the members of a column, if it is an ENUM.
fn put_enum(column: &SchemaColumn, out: &mut Vec<u8>) -> Result<(), AllocError>
    ensures { OnOk result (out.new.items ≡ out.old.items ++ enum_entry column.now) }
{
    if column.column_type.is_enum_type() {
        put_members(column, out)?;
    }
    Ok(())
}

/// Appends the members of a column, if it is a SET.
fn put_set(column: &SchemaColumn, out: &mut Vec<u8>) -> Result<(), AllocError>
    ensures { OnOk result (out.new.items ≡ out.old.items ++ set_entry column.now) }
{
    if column.column_type.is_set_type() {
        put_members(column, out)?;
    }
    Ok(())
}

/// The value of ENUM_STR_VALUE: the members of each ENUM.
pub(crate) fn enum_members(alloc: Global, columns: &[SchemaColumn]) -> Result<Vec<u8>, AllocError>
    ensures { IfOk result (λ v. v.items ≡ flat_map enum_entry columns.now) }
{
    let mut out = Vec::new(alloc);
    for column in columns {
        put_enum(column, &mut out)?;
    }
    Ok(out)
}

/// The value of SET_STR_VALUE: the members of each SET.
pub(crate) fn set_members(alloc: Global, columns: &[SchemaColumn]) -> Result<Vec<u8>, AllocError>
    ensures { IfOk result (λ v. v.items ≡ flat_map set_entry columns.now) }
{
    let mut out = Vec::new(alloc);
    for column in columns {
        put_set(column, &mut out)?;
    }
    Ok(out)
}

/// Whether a key has a prefix of one of its columns.
pub(crate) fn has_prefix(key: &[KeyColumn]) -> bool
    ensures { result ≡ has_prefix key.now }
{
    for column in key {
        if column.prefix != 0 {
            return true;
        }
    }
    false
}

/// The value of SIMPLE_PRIMARY_KEY: the index of each column of the key, in the key's order.
pub(crate) fn simple_key(alloc: Global, key: &[KeyColumn]) -> Result<Vec<u8>, AllocError>
    ensures { IfOk result (λ v. v.items ≡ flat_map simple_entry key.now) }
{
    let mut out = Vec::new(alloc);
    for column in key {
        put_number(column.column, &mut out)?;
    }
    Ok(out)
}

/// Appends the index of a column of a key, and its prefix.
fn put_prefixed(column: KeyColumn, out: &mut Vec<u8>) -> Result<(), AllocError>
    ensures { OnOk result (out.new.items ≡ out.old.items ++ prefixed_entry column) }
{
    put_number(column.column, out)?;
    put_number(column.prefix, out)
}

/// The value of PRIMARY_KEY_WITH_PREFIX: the index of each column of the key, and its prefix.
pub(crate) fn prefixed_key(alloc: Global, key: &[KeyColumn]) -> Result<Vec<u8>, AllocError>
    ensures { IfOk result (λ v. v.items ≡ flat_map prefixed_entry key.now) }
{
    let mut out = Vec::new(alloc);
    for column in key {
        put_prefixed(*column, &mut out)?;
    }
    Ok(out)
}
