//! Transactions that are prepared.

ghost use Rattle.std.specs.Prelude.{◌≤◌, length};

/// A transaction that is prepared.
#[derive(Drop)]
pub(crate) struct Prepared {
    /// Its XID, as statements have it.
    pub(crate) xid: Vec<u8>,
    /// Its events, without checksums and positions.
    pub(crate) events: Vec<u8>,
    ghost few: { length events.items ≤ 0xffff_ff00 },
}

impl Prepared {
    ghost use Rattle.std.specs.Prelude.{map, IfNone, IfSome};
    ghost use Rattle.events_replaced.specs.FoundXids.{FindsXid};
    ghost use Rattle.events_replaced.specs.XaStates.{HasNoXid};
    ghost use Rattle.events_replaced.specs.XaTransactionStates.{prepared_view};

    /// The index of the last of these transactions that has an XID.
    pub(crate) fn index_of(prepared: &[Prepared], xid: &[u8]) -> Option<usize>
        ensures some { IfSome result (FindsXid xid.now prepared.now) }
        ensures none { IfNone result (HasNoXid xid.now (map prepared_view prepared.now)) }
    {
        let mut end = prepared.len();
        while end > 0 {
            end -= 1;
            if prepared[end].xid.as_slice() == xid {
                return Some(end);
            }
        }
        None
    }
}
