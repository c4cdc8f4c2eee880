//! The members that lines have on request.

/// The members that lines have on request.
#[derive(Clone, Copy)]
pub struct AddedMembers {
    /// The position at which the transaction begins: that of its GTID's event, or else of its BEGIN or its only statement.
    pub begin: bool,
    /// The time at which its server committed it, in milliseconds since 1970.
    pub ts_ms: bool,
    /// The number of its XID_EVENT, or the XID of an XA transaction.
    pub xid: bool,
    /// The id of the thread that wrote it.
    pub thread_id: bool,
    /// The statement that changed the rows.
    pub query: bool,
    /// The number of the row or the statement in the transaction, from 1.
    pub row: bool,
}

impl AddedMembers {
    /// No members.
    pub const NONE: AddedMembers = AddedMembers {
        begin: false,
        ts_ms: false,
        xid: false,
        thread_id: false,
        query: false,
        row: false,
    };

    /// All members.
    pub const ALL: AddedMembers = AddedMembers {
        begin: true,
        ts_ms: true,
        xid: true,
        thread_id: true,
        query: true,
        row: true,
    };
}
