//! The definition of a column.

ghost use Rattle.std.specs.Prelude.{◌≡◌, IfOk};
ghost use Rattle.std.specs.Str.Lossy.{utf8_lossy};
ghost use Rattle.std.specs.Cow.{cow_str_bytes};
ghost use Rattle.rows_values.specs.Columns.{parts_of, parts_of_type};

use std::alloc::{AllocError, Global};
use std::borrow::CowStr;
use std::str;
use wire_constants::{ColumnFlags, ColumnType};

/// The definition of a column, as far as a binary log has it.
#[derive(Debug, PartialEq, Eq, Drop)]
pub struct Column {
    column_type: ColumnType,
    schema: Vec<u8>,
    table: Vec<u8>,
    org_table: Vec<u8>,
    name: Vec<u8>,
    flags: ColumnFlags,
    character_set: u16,
}

impl Column {
    /// Returns a column of this type, without names, flags and character set.
    pub fn new(alloc: Global, column_type: ColumnType) -> Column
        ensures { parts_of result ≡ parts_of_type column_type }
    {
        Column {
            column_type,
            schema: Vec::new(alloc),
            table: Vec::new(alloc),
            org_table: Vec::new(alloc),
            name: Vec::new(alloc),
            flags: ColumnFlags::default(),
            character_set: 0,
        }
    }

    /// Returns the type of the column.
    pub fn column_type(&self) -> ColumnType
        ensures { result ≡ (parts_of self.now).column_type }
    {
        self.column_type
    }

    /// Returns the column with this schema name. The error is out of memory; the column is then dropped.
    pub fn with_schema(mut self, schema: &[u8]) -> Result<Column, AllocError>
        ensures { IfOk result (λ c. parts_of c ≡ record (parts_of self) { schema = schema.now }) }
    {
        self.schema.clear();
        self.schema.extend_from_slice(schema)?;
        Ok(self)
    }

    /// Returns the name of the schema.
    pub fn schema_ref(&self) -> &[u8]
        ensures { result.now ≡ (parts_of self.now).schema }
    {
        &self.schema
    }

    /// Returns the name of the schema as text; bytes that aren't UTF-8 are replaced.
    pub fn schema_str(&self, alloc: Global) -> Result<CowStr<'_, Global>, AllocError>
        ensures { IfOk result (λ t. cow_str_bytes t ≡ utf8_lossy ((parts_of self.now).schema)) }
    {
        lossy_text(alloc, &self.schema)
    }

    /// Returns the column with this table name. The error is out of memory; the column is then dropped.
    pub fn with_table(mut self, table: &[u8]) -> Result<Column, AllocError>
        ensures { IfOk result (λ c. parts_of c ≡ record (parts_of self) { table = table.now }) }
    {
        self.table.clear();
        self.table.extend_from_slice(table)?;
        Ok(self)
    }

    /// Returns the name of the table, which may be an alias.
    pub fn table_ref(&self) -> &[u8]
        ensures { result.now ≡ (parts_of self.now).table }
    {
        &self.table
    }

    /// Returns the name of the table, which may be an alias, as text; bytes that aren't UTF-8 are replaced.
    pub fn table_str(&self, alloc: Global) -> Result<CowStr<'_, Global>, AllocError>
        ensures { IfOk result (λ t. cow_str_bytes t ≡ utf8_lossy ((parts_of self.now).table)) }
    {
        lossy_text(alloc, &self.table)
    }

    /// Returns the column with this original table name, its name in the schema. The error is out of memory;
    /// the column is then dropped.
    pub fn with_org_table(mut self, org_table: &[u8]) -> Result<Column, AllocError>
        ensures { IfOk result (λ c. parts_of c ≡ record (parts_of self) { org_table = org_table.now }) }
    {
        self.org_table.clear();
        self.org_table.extend_from_slice(org_table)?;
        Ok(self)
    }

    /// Returns the original name of the table, its name in the schema.
    pub fn org_table_ref(&self) -> &[u8]
        ensures { result.now ≡ (parts_of self.now).org_table }
    {
        &self.org_table
    }

    /// Returns the original name of the table as text; bytes that aren't UTF-8 are replaced.
    pub fn org_table_str(&self, alloc: Global) -> Result<CowStr<'_, Global>, AllocError>
        ensures { IfOk result (λ t. cow_str_bytes t ≡ utf8_lossy ((parts_of self.now).org_table)) }
    {
        lossy_text(alloc, &self.org_table)
    }

    /// Returns the column with this name. The error is out of memory; the column is then dropped.
    pub fn with_name(mut self, name: &[u8]) -> Result<Column, AllocError>
        ensures { IfOk result (λ c. parts_of c ≡ record (parts_of self) { name = name.now }) }
    {
        self.name.clear();
        self.name.extend_from_slice(name)?;
        Ok(self)
    }

    /// Returns the name of the column.
    pub fn name_ref(&self) -> &[u8]
        ensures { result.now ≡ (parts_of self.now).name }
    {
        &self.name
    }

    /// Returns the name of the column as text; bytes that aren't UTF-8 are replaced.
    pub fn name_str(&self, alloc: Global) -> Result<CowStr<'_, Global>, AllocError>
        ensures { IfOk result (λ t. cow_str_bytes t ≡ utf8_lossy ((parts_of self.now).name)) }
    {
        lossy_text(alloc, &self.name)
    }

    /// Returns the column with these flags.
    pub fn with_flags(mut self, flags: ColumnFlags) -> Column
        ensures { parts_of result ≡ record (parts_of self) { flags = flags } }
    {
        self.flags = flags;
        self
    }

    /// Returns the flags.
    pub fn flags(&self) -> ColumnFlags
        ensures { result ≡ (parts_of self.now).flags }
    {
        self.flags
    }

    /// Returns the column with this character set, given as the number of a collation.
    pub fn with_character_set(mut self, character_set: u16) -> Column
        ensures { parts_of result ≡ record (parts_of self) { character_set = character_set } }
    {
        self.character_set = character_set;
        self
    }

    /// Returns the character set as the number of a collation; 0 if none was set.
    pub fn character_set(&self) -> u16
        ensures { result ≡ (parts_of self.now).character_set }
    {
        self.character_set
    }

    /// Returns an owned copy of the column. The error is out of memory.
    pub fn clone(&self, alloc: Global) -> Result<Column, AllocError>
        ensures { IfOk result (λ copy. parts_of copy ≡ parts_of self.now) }
    {
        Ok(Column {
            column_type: self.column_type,
            schema: Vec::from_slice(alloc, &self.schema)?,
            table: Vec::from_slice(alloc, &self.table)?,
            org_table: Vec::from_slice(alloc, &self.org_table)?,
            name: Vec::from_slice(alloc, &self.name)?,
            flags: self.flags,
            character_set: self.character_set,
        })
    }
}

/// Returns the bytes as text, borrowed if they are UTF-8.
fn lossy_text<'a>(alloc: Global, bytes: &'a [u8]) -> Result<CowStr<'a, Global>, AllocError>
    ensures { IfOk result (λ t. cow_str_bytes t ≡ utf8_lossy bytes.now) }
{
    match str::from_utf8(bytes) {
        Ok(text) => Ok(CowStr::Borrowed(text)),
        Err(_) => Ok(CowStr::Owned(String::from_utf8_lossy(alloc, bytes)?)),
    }
}
