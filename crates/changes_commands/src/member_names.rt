//! The names of the members that lines have on request.

ghost use Rattle.std.specs.Prelude.{◌≡◌};
ghost use Rattle.changes_commands.specs.MemberNames.{either, members_in, members_named};

use changes_origins::AddedMembers;

/// The members that a name stands for: one, or all of them. None if the name is unknown.
fn members_named(name: &str) -> Option<AddedMembers>
    ensures { result ≡ members_named name.now }
{
    const NONE: AddedMembers = AddedMembers::NONE;
    match name {
        "begin" => Some(AddedMembers {
            begin: true,
            ..NONE
        }),
        "ts_ms" => Some(AddedMembers {
            ts_ms: true,
            ..NONE
        }),
        "xid" => Some(AddedMembers { xid: true, ..NONE }),
        "thread_id" => Some(AddedMembers {
            thread_id: true,
            ..NONE
        }),
        "query" => Some(AddedMembers {
            query: true,
            ..NONE
        }),
        "row" => Some(AddedMembers { row: true, ..NONE }),
        "all" => Some(AddedMembers::ALL),
        _ => None,
    }
}

/// The members of one or the other.
fn either(one: AddedMembers, other: AddedMembers) -> AddedMembers
    ensures { result ≡ either one other }
{
    AddedMembers {
        begin: one.begin | other.begin,
        ts_ms: one.ts_ms | other.ts_ms,
        xid: one.xid | other.xid,
        thread_id: one.thread_id | other.thread_id,
        query: one.query | other.query,
        row: one.row | other.row,
    }
}

/// The members with these names, which have commas between them. None if one is unknown.
pub(crate) fn members_in(names: &str) -> Option<AddedMembers>
    ensures { result ≡ members_in names.now }
{
    let mut added = AddedMembers::NONE;
    for name in names.split(',') {
        added = either(added, members_named(name)?);
    }
    Some(added)
}
