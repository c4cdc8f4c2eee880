//! The members of ENUM and SET columns as JSON.

ghost use Rattle.std.specs.Prelude.{◌≡◌, [], IfOk, map, option_map, unwrap_or};
ghost use Rattle.std.specs.List.{AllZip};
ghost use Rattle.wire_constants.specs.ColumnTypes.{is_enum, is_set};
ghost use Rattle.rows_table_map.specs.Members.{members as members_in};
ghost use Rattle.rows_table_map.specs.Served.{bytes_or_none};
ghost use Rattle.rows_table_map.specs.MetadataViews.{values_view, columns_values_view};
ghost use Rattle.changes_tables.specs.MemberTexts.{IsMemberJson};
ghost use Rattle.changes_tables.specs.RemainingLists.{lists_left, ReturnsList, first_members, after_entry};

use crate::columns::Shown;
use crate::texts::append_text;
use rows_errors::RowsError;
use rows_table_map::{ColumnsStrValues, IterStrValues, StrValues};
use std::alloc::{AllocError, Global};
use wire_constants::ColumnType;

/// The members of the remaining columns of one type.
#[derive(Drop)]
pub(crate) struct MemberLists<'a> {
    lists: Option<IterStrValues<'a>>,
}

impl<'a> MemberLists<'a> {
    /// Returns the members that a field has; none without a field.
    pub(crate) fn of(alloc: Global, field: Option<ColumnsStrValues<'a>>) -> MemberLists<'a>
        ensures { lists_left result ≡ members_in (bytes_or_none (option_map columns_values_view field.entry)) }
    {
        match field {
            Some(values) => MemberLists {
                lists: Some(values.iter_values(alloc)),
            },
            None => MemberLists { lists: None },
        }
    }

    /// Returns the members of the next column; None if there are none that can be read. `AllocError`: out of memory.
    fn next_list(&mut self) -> Result<Option<StrValues<'a>>, AllocError>
        ensures { IfOk result (λ r. ReturnsList (lists_left self.old) (option_map values_view r) (lists_left self.new)) }
    {
        let Some(lists) = &mut self.lists else {
            return Ok(None);
        };
        match lists.next() {
            Some(Ok(members)) => Ok(Some(members)),
            Some(Err(RowsError::Memory)) => Err(AllocError),
            _ => Ok(None),
        }
    }
}

/// Returns each of these members as JSON, in the way that text is shown.
fn member_texts(
    alloc: Global,
    members: &StrValues<'_>,
    shown: Shown,
) -> Result<Vec<Vec<u8>>, AllocError>
    ensures { IfOk result (λ texts. AllZip (IsMemberJson shown) (values_view members.now) (map (λ t. t.items) texts.items)) }
{
    let mut texts = Vec::new(alloc);
    for member in members.values() {
        let mut text = Vec::new(alloc);
        append_text(alloc, shown, member.value_raw(), &mut text)?;
        texts.push(text)?;
    }
    Ok(texts)
}

/// The members of the remaining columns.
#[derive(Drop)]
pub(crate) struct Members<'a> {
    pub(crate) enums: MemberLists<'a>,
    pub(crate) sets: MemberLists<'a>,
}

impl<'a> Members<'a> {
    /// Returns the members of the next column. `AllocError`: out of memory.
    fn next_list(&mut self, column_type: ColumnType) -> Result<Option<StrValues<'a>>, AllocError>
        ensures members { IfOk result (λ r. unwrap_or (option_map values_view r) [] ≡ first_members (lists_left self.old.enums) (lists_left self.old.sets) column_type) }
        ensures enums { IfOk result (λ r. lists_left self.new.enums ≡ after_entry (is_enum column_type) (lists_left self.old.enums)) }
        ensures sets { IfOk result (λ r. lists_left self.new.sets ≡ after_entry (is_set column_type) (lists_left self.old.sets)) }
    {
        match column_type {
            ColumnType::MYSQL_TYPE_ENUM => self.enums.next_list(),
            ColumnType::MYSQL_TYPE_SET => self.sets.next_list(),
            _ => Ok(None),
        }
    }

    /// Returns the members of the next column as JSON, in the way that text is shown. None unless it is an ENUM or a SET whose
    /// members can be read. `AllocError`: out of memory.
    pub(crate) fn next(
        &mut self,
        alloc: Global,
        column_type: ColumnType,
        shown: Shown,
    ) -> Result<Vec<Vec<u8>>, AllocError>
        ensures texts { IfOk result (λ texts. AllZip (IsMemberJson shown) (first_members (lists_left self.old.enums) (lists_left self.old.sets) column_type) (map (λ t. t.items) texts.items)) }
        ensures enums { IfOk result (λ texts. lists_left self.new.enums ≡ after_entry (is_enum column_type) (lists_left self.old.enums)) }
        ensures sets { IfOk result (λ texts. lists_left self.new.sets ≡ after_entry (is_set column_type) (lists_left self.old.sets)) }
    {
        match self.next_list(column_type)? {
            Some(members) => member_texts(alloc, &members, shown),
            None => Ok(Vec::new(alloc)),
        }
    }
}
