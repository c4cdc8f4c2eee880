//! The columns of a table, by their index.

ghost use Rattle.std.specs.Prelude.{◌≡◌};
ghost use Rattle.changes_tables.specs.ShownColumns.{column_view};
ghost use Rattle.changes_lines.specs.RowJson.{no_column};

use changes_tables::ShownColumn;

/// The columns of a table.
#[derive(Clone, Copy)]
pub(crate) struct Columns<'t> {
    columns: &'t [ShownColumn],
    /// The column of an index that has none.
    other: &'t ShownColumn,
    ghost other_is: { column_view other.now ≡ no_column },
}

impl<'t> Columns<'t> {
    ghost use Rattle.std.specs.Prelude.{map};
    ghost use Rattle.changes_lines.specs.RowJson.{column_at};
    ghost use Rattle.changes_lines.specs.TableColumns.{columns_in};

    /// These columns.
    pub(crate) fn new(columns: &'t [ShownColumn], other: &'t ShownColumn) -> Columns<'t>
        requires { column_view other.now ≡ no_column }
        ensures { columns_in result ≡ map column_view columns.now }
    {
        Columns { columns, other }
    }

    /// The column with this index.
    #[inline(always)]
    pub(crate) fn get(self, index: u32) -> &'t ShownColumn
        ensures { column_view result.now ≡ column_at (columns_in self.entry) index }
    {
        match self.columns.get(index as usize) {
            Some(column) => column,
            None => self.other,
        }
    }
}
