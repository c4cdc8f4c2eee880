//! The columns of a plan that are in an image, and their definitions.

ghost use Rattle.std.specs.Prelude.{◌≡◌, ◌⊎◌, ◌++◌, ◌∷◌, decimal, ℕ, IfOk, IfErr, Ok, Err, [], map, option_map};
ghost use Rattle.rows_table_map.specs.BitLists.{len_of, bit_at};
ghost use Rattle.rows_values.specs.Columns.{parts_of, parts_of_type};
ghost use Rattle.rows_errors.specs.declared.fault.RowsError.TheVariants.{Memory};
ghost use Rattle.rows_errors.specs.Readings.{map_reading};
ghost use Rattle.rows_table_map.specs.MetadataViews.{name_view};
ghost use Rattle.rows_event_body.specs.Plans.{name_or_index};
ghost use Rattle.rows_event_body.specs.PickedColumns.{bit_is_set, image_column, picked, picked_as, appended, column_flags, definition as definition_of};
ghost use Rattle.rows_event_body.specs.PlanViews.{planned, column_view, name_or_empty};

use crate::column::PlannedColumn;
use crate::plan::ColumnPlan;
use bitflags::Flags;
use itoa::Buffer;
use rows_cells::ImageColumn;
use rows_errors::RowsError;
use rows_table_map::{Bits, ColumnName};
use rows_values::Column;
use std::alloc::{AllocError, Global};
use wire_constants::{ColumnFlags, ColumnType};

impl ColumnPlan {
    /// Appends the columns that are in an image: of as many columns as there are bits, those whose bits are set.
    ///
    /// - The error of the first of these columns that has no plan, or of the optional metadata: returned whenever there is one;
    ///   nothing is appended.
    /// - `Memory`: out of memory; some of the columns may have been appended.
    pub fn image_columns(
        &self,
        bits: Bits<'_>,
        columns: &mut Vec<ImageColumn>,
    ) -> Result<(), RowsError>
        ensures ok { IfOk result (λ _. appended columns.old.items (picked_as image_column (bit_at bits.entry) (planned self.now.run (len_of bits.entry))) ≡ Ok columns.new.items) }
        ensures err { IfErr result (λ e. e ≡ Memory ⊎ ((planned self.now.run (len_of bits.entry) ≡ Err e) × (columns.new.items ≡ columns.old.items))) }
        ensures failed { IfErr (planned self.now.run (len_of bits.entry)) (λ e. (result ≡ Err e) × (columns.new.items ≡ columns.old.items)) }
    {
        let image = match self.run.first(bits.len()) {
            Ok(image) => image,
            Err(fault) => return Err(fault),
        };
        for column in image {
            if is_picked(bits, column) {
                columns.push(column.image)?;
            }
        }
        Ok(())
    }

    /// Returns the definitions of the columns that are in an image, with the names of the database and the table. Returns the
    /// errors of [`ColumnPlan::image_columns`].
    pub fn definitions(&self, alloc: Global, bits: Bits<'_>) -> Result<Vec<Column>, RowsError>
        ensures ok { IfOk result (λ columns. picked_as (definition_of self.now.database.items self.now.table.items) (bit_at bits.entry) (planned self.now.run (len_of bits.entry)) ≡ Ok (map parts_of columns.items)) }
        ensures err { IfErr result (λ e. e ≡ Memory ⊎ (planned self.now.run (len_of bits.entry) ≡ Err e)) }
        ensures failed { IfErr (planned self.now.run (len_of bits.entry)) (λ e. result ≡ Err e) }
    {
        let image = match self.run.first(bits.len()) {
            Ok(image) => image,
            Err(fault) => return Err(fault),
        };
        let mut names = self.run.names();
        let mut definitions = Vec::new(alloc);
        for (column_index, column) in image.iter().enumerate() {
            let name = names.next();
            self.define(alloc, bits, column_index, column, name, &mut definitions)?;
        }
        Ok(definitions)
    }

    /// Appends the definition of the column with this index if its bit is set.
    fn define(
        &self,
        alloc: Global,
        bits: Bits<'_>,
        column_index: usize,
        column: &PlannedColumn,
        name: Option<Result<ColumnName<'_>, RowsError>>,
        definitions: &mut Vec<Column>,
    ) -> Result<(), AllocError>
        ensures { IfOk result (λ _. map parts_of definitions.new.items ≡ map parts_of definitions.old.items ++ map (definition_of self.now.database.items self.now.table.items) (picked (bit_at bits.entry) (column_view (name_or_empty (name_or_index column_index (option_map (map_reading name_view) name.entry))) column.now ∷ []))) }
    {
        if is_picked(bits, column) {
            definitions.push(self.definition(alloc, column_index, column, name)?)?;
        }
        Ok(())
    }

    /// Returns the definition of the column with this index, and with its name from the optional metadata, if there is one.
    fn definition(
        &self,
        alloc: Global,
        column_index: usize,
        column: &PlannedColumn,
        name: Option<Result<ColumnName<'_>, RowsError>>,
    ) -> Result<Column, AllocError>
        ensures { IfOk result (λ c. parts_of c ≡ definition_of self.now.database.items self.now.table.items (column_view (name_or_empty (name_or_index column_index (option_map (map_reading name_view) name.entry))) column.now)) }
    {
        let definition = named_column(alloc, column.real_type, column_index, name)?
            .with_schema(&self.database)?
            .with_table(&self.table)?
            .with_org_table(&self.table)?
            .with_flags(flags(column.is_unsigned, column.is_key))
            .with_character_set(column.character_set);
        Ok(definition)
    }
}

/// Returns the definition of a column of this type and with a name only: that from the optional metadata, `@` and the column's
/// index if there is none, or an empty one if it can't be read.
fn named_column(
    alloc: Global,
    real_type: ColumnType,
    column_index: usize,
    name: Option<Result<ColumnName<'_>, RowsError>>,
) -> Result<Column, AllocError>
    ensures { IfOk result (λ c. parts_of c ≡ record (parts_of_type real_type) { name = name_or_empty (name_or_index column_index (option_map (map_reading name_view) name.entry)) }) }
{
    let column = Column::new(alloc, real_type);
    match name {
        Some(Ok(name)) => column.with_name(name.name_raw()),
        Some(Err(_)) => Ok(column),
        None => column.with_name(&index_name(alloc, column_index)?),
    }
}

/// Returns whether the column's bit is set.
fn is_picked(bits: Bits<'_>, column: &PlannedColumn) -> bool
    ensures { result ≡ bit_is_set (bit_at bits.entry column.now.image.column) }
{
    bits.get(column.image.column as usize).unwrap_or(false)
}

/// Returns the flags of a column.
fn flags(is_unsigned: bool, is_key: bool) -> ColumnFlags
    ensures { result ≡ column_flags is_unsigned is_key }
{
    let unsigned = if is_unsigned { 32 } else { 0 };
    let key = if is_key { 2 } else { 0 };
    ColumnFlags::from_bits_retain(unsigned + key)
}

/// Returns the name of a column that has none in the table map: `@` and its index.
fn index_name(alloc: Global, column_index: usize) -> Result<Vec<u8>, AllocError>
    ensures { IfOk result (λ name. name.items ≡ 64 ∷ decimal column_index) }
{
    let mut buffer = Buffer::new();
    let mut name = Vec::from_slice(alloc, b"@")?;
    name.extend_from_slice(buffer.format(column_index as u64).as_bytes())?;
    Ok(name)
}
