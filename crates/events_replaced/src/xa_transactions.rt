//! The events of XA transactions that are prepared, and of the open one.

ghost use Rattle.std.specs.Prelude.{◌≡◌, ◌≤◌, ◌<◌, ◌+◌, ◌++◌, ◌^◌, true, false, [], length, drop, min, vec_len, None, IfErr, IsFalse, IsSomeAnd, IsTrue, OnOk};
ghost use Rattle.events_replaced.specs.XaSteps.{begin_made, thread_of};
ghost use Rattle.events_replaced.specs.declared.xa_role.XaRole.TheVariants as roles;

use crate::mariadb_made::put_statement;
use crate::prepared::Prepared;
use crate::replaced_events::checksums_after;
use crate::replacements::checked;
use crate::stamped::put_stamped;
use crate::xa_commits::{put_commit, put_commit_of};
use crate::xa_fault::XaFault;
use crate::xa_role::{XaRole, committed_xid, is_indifferent, role_of, rolled_back_xid};
use crate::xa_xid::{read_prepared, xid_text};
use byteorder::{ByteOrder, LittleEndian};
use events_frames::BinlogEventHeader;
use std::alloc::{AllocError, Global};
use std::mem;

/// The length of a header and the thread of a statement after it.
const THREAD_END: usize = 23;

/// The length of a checksum.
const CHECKSUM_LEN: usize = 4;

/// The maximum length of the events of a transaction, in bytes.
const MAX_LEN: usize = 0xffff_ff00;

/// The statement that begins the transactions that are given.
const BEGIN: &[u8] = b"BEGIN";

/// The XA transactions that are prepared, and the open one: it is used again from log to log.
#[derive(Drop)]
pub struct XaTransactions {
    alloc: Global,
    /// The maximum length of the events of a transaction.
    limit: usize,
    /// The last one prepared is the last.
    prepared: Vec<Prepared>,
    /// Whether one is open, and its events so far.
    is_open: bool,
    kept: Vec<u8>,
    /// Whether the log's events have checksums.
    has_checksum: bool,
    /// An event without its checksum.
    bare: Vec<u8>,
    /// What is given in place of the newest event.
    content: Vec<u8>,
    /// Why no events are taken any more.
    fault: Option<XaFault>,
    ghost most: { limit ≤ 0xffff_ff00 },
    ghost short: { length kept.items ≤ 0xffff_ff00 },
    ghost few: { length content.items ≤ 0xffff_fffb },
}

/// The thread of a statement; 0 if its event is too short.
fn thread_of(event: &[u8]) -> u32
    ensures { result ≡ thread_of event.now }
{
    if event.len() < THREAD_END {
        return 0;
    }
    LittleEndian::read_u32(&event[BinlogEventHeader::LEN..])
}

/// Appends BEGIN, with the time, the server and the thread of a statement. `AllocError`: out of memory.
fn put_begin(event: &[u8], out: &mut Vec<u8>) -> Result<(), AllocError>
    requires { 19 ≤ length event.now }
    ensures made { OnOk result (out.new.items ≡ out.old.items ++ begin_made event.now) }
    ensures few { vec_len out.new ≤ vec_len out.old + 38 }
{
    put_statement(event, thread_of(event), BEGIN, out)
}

impl XaTransactions {
    ghost use Rattle.events_replaced.specs.XaStates.{begun, is_open, no_transactions};
    ghost use Rattle.events_replaced.specs.XaSteps.{Commits, FaultOf, HasFault, IsTaken, KeepsPart, Prepares, Starts, TakesRole, passed, passes, role_in};
    ghost use Rattle.events_replaced.specs.XaTransactionStates.{AddsPrepared, content_of, fault_in, prepared_view, state_of};

    /// None is prepared. The events of a transaction may have `limit` bytes, and at most 4,294,967,040.
    pub fn new(alloc: Global, limit: usize) -> XaTransactions
        ensures state { state_of result ≡ no_transactions (min limit 4294967040) }
        ensures content { content_of result ≡ [] }
        ensures fault { fault_in result ≡ None }
    {
        XaTransactions {
            alloc,
            limit: limit.min(MAX_LEN),
            prepared: Vec::new(alloc),
            is_open: false,
            kept: Vec::new(alloc),
            has_checksum: false,
            bare: Vec::new(alloc),
            content: Vec::new(alloc),
            fault: None,
        }
    }

    /// Why the newest event that was to be taken is given as it is, and all after it; None if there is none.
    pub fn fault(&self) -> Option<XaFault>
        ensures { result ≡ fault_in self.now }
    {
        self.fault
    }

    /// The number of transactions that are prepared, and neither committed nor rolled back so far.
    pub fn prepared(&self) -> usize
        ensures { result ≡ length (state_of self.now).prepared }
    {
        self.prepared.len()
    }

    /// Begins a log: none is open, and those that are prepared stay so.
    pub(crate) fn begin(&mut self)
        ensures state { state_of self.new ≡ begun (state_of self.old) }
        ensures content { content_of self.new ≡ [] }
        ensures fault { fault_in self.new ≡ None }
    {
        self.is_open = false;
        self.has_checksum = false;
        self.content.clear();
        self.fault = None;
    }

    /// Whether the log's events have checksums.
    #[inline(always)]
    pub(crate) fn has_checksum(&self) -> bool
        ensures { result ≡ (state_of self.now).has_checksum }
    {
        self.has_checksum
    }

    /// The length of what is given in place of the newest event.
    #[inline(always)]
    pub(crate) fn len(&self) -> usize
        ensures { result ≡ length (content_of self.now) }
    {
        self.content.len()
    }

    /// What is given in place of the newest event after its first `given` bytes; nothing, if it has fewer.
    pub(crate) fn after(&self, given: usize) -> &[u8]
        ensures rest { result.now ≡ drop given (content_of self.now) }
        ensures few { length result.now + 4 < 2 ^ 32 }
    {
        if given > self.content.len() {
            return &[];
        }
        let (_, rest) = self.content.split_at(given);
        rest
    }

    /// What an event is to XA transactions.
    #[inline(always)]
    pub(crate) fn role_of(&self, event: &[u8]) -> XaRole
        requires { 19 ≤ length event.now }
        ensures { result ≡ role_in (state_of self.now) event.now }
    {
        if !self.has_checksum || event.len() < BinlogEventHeader::LEN + CHECKSUM_LEN {
            return role_of(event);
        }
        let (bytes, _) = event.split_at(event.len() - CHECKSUM_LEN);
        role_of(bytes)
    }

    /// Whether a transaction is open.
    #[inline(always)]
    pub(crate) fn is_open(&self) -> bool
        ensures { result ≡ is_open (state_of self.now) }
    {
        self.is_open
    }

    /// Whether an event is given as it is by its type alone, and changes nothing: most are.
    #[inline(always)]
    pub(crate) fn passes_at_once(&self, event: &[u8]) -> bool
        requires { 19 ≤ length event.now }
        ensures { IsTrue result → (passes (state_of self.now) (role_in (state_of self.now) event.now) ≡ true) × (passed (state_of self.now) (role_in (state_of self.now) event.now) event.now ≡ state_of self.now) }
    {
        !self.is_open && is_indifferent(event)
    }

    /// Passes an event that is given as it is; returns false if the event is to be taken.
    #[inline(always)]
    pub(crate) fn passes(&mut self, event: &[u8], role: XaRole) -> bool
        requires { 19 ≤ length event.now }
        ensures passes { result ≡ passes (state_of self.old) role }
        ensures passed { IsTrue result → state_of self.new ≡ passed (state_of self.old) role event.now }
        ensures state { IsFalse result → state_of self.new ≡ state_of self.old }
        ensures content { content_of self.new ≡ content_of self.old }
    {
        if self.fault.is_some() {
            return true;
        }
        match role {
            XaRole::None => true,
            XaRole::Part => !self.is_open,
            XaRole::Drop => {
                self.is_open = false;
                true
            }
            XaRole::Description => {
                self.is_open = false;
                self.has_checksum = checksums_after(self.has_checksum, event);
                true
            }
            _ => false,
        }
    }

    /// Takes an event, and returns whether it could: then other events, or none, are given in its place.
    #[cold]
    #[inline(never)]
    pub(crate) fn take(&mut self, event: &[u8], role: XaRole) -> bool
        requires long { 19 ≤ length event.now }
        requires taken { passes (state_of self.old) role ≡ false }
        ensures taken { IsTrue result → IsTaken (state_of self.old) role event.now (content_of self.new) (state_of self.new) }
        ensures none { IsFalse result → content_of self.new ≡ [] }
        ensures failed { IsFalse result → (state_of self.new).has_failed ≡ true }
        ensures fault { IsFalse result → IsSomeAnd (fault_in self.new) (HasFault (state_of self.old) role event.now) }
    {
        self.content.clear();
        let Err(fault) = self.fill(event, role) else {
            return true;
        };
        self.fault = Some(fault);
        self.content.clear();
        false
    }

    /// Takes an event, and appends what is given in its place.
    fn fill(&mut self, event: &[u8], role: XaRole) -> Result<(), XaFault>
        requires long { 19 ≤ length event.now }
        requires taken { passes (state_of self.old) role ≡ false }
        requires none { content_of self.old ≡ [] }
        ensures ok { OnOk result (IsTaken (state_of self.old) role event.now (content_of self.new) (state_of self.new)) }
        ensures err { IfErr result (HasFault (state_of self.old) role event.now) }
    {
        let Some(bytes) = checked(event, self.has_checksum) else {
            return Err(XaFault::Checksum);
        };
        match role {
            XaRole::Part => self.keep(bytes),
            XaRole::Start => self.start(bytes),
            XaRole::End if self.is_open => Ok(()),
            XaRole::End => Err(XaFault::Misplaced),
            XaRole::Prepare => self.prepare(bytes),
            XaRole::Commit => self.commit(bytes),
            XaRole::Rollback => self.roll_back(bytes),
            _ => Err(XaFault::Statement),
        }
    }

    /// Keeps an event of the open transaction.
    fn keep(&mut self, event: &[u8]) -> Result<(), XaFault>
        requires long { 19 ≤ length event.now }
        requires none { content_of self.old ≡ [] }
        requires open_one { is_open (state_of self.old) ≡ true }
        ensures ok { OnOk result (KeepsPart (state_of self.old) event.now (content_of self.new) (state_of self.new)) }
        ensures err { IfErr result (FaultOf (state_of self.old) roles.Part event.now) }
    {
        if self.kept.len().saturating_add(event.len()) > self.limit {
            return Err(XaFault::TooLong);
        }
        put_stamped(event, 0, false, &mut self.bare)?;
        self.kept.extend_from_slice(&self.bare)?;
        Ok(())
    }

    /// Begins a transaction: BEGIN is given.
    fn start(&mut self, event: &[u8]) -> Result<(), XaFault>
        requires long { 19 ≤ length event.now }
        requires none { content_of self.old ≡ [] }
        ensures ok { OnOk result (Starts (state_of self.old) event.now (content_of self.new) (state_of self.new)) }
        ensures err { IfErr result (FaultOf (state_of self.old) roles.Start event.now) }
    {
        if self.is_open {
            return Err(XaFault::Misplaced);
        }
        put_begin(event, &mut self.content)?;
        self.kept.clear();
        self.is_open = true;
        Ok(())
    }

    /// Ends the open transaction: its events and COMMIT with its XID are given if it is committed in one phase, else COMMIT is given, and
    /// they are kept.
    fn prepare(&mut self, event: &[u8]) -> Result<(), XaFault>
        requires long { 19 ≤ length event.now }
        requires none { content_of self.old ≡ [] }
        ensures ok { OnOk result (Prepares (state_of self.old) event.now (content_of self.new) (state_of self.new)) }
        ensures err { IfErr result (FaultOf (state_of self.old) roles.Prepare event.now) }
    {
        if !self.is_open {
            return Err(XaFault::Misplaced);
        }
        let Some(prepared) = read_prepared(event) else {
            return Err(XaFault::Statement);
        };
        let xid = xid_text(
            self.alloc,
            prepared.format,
            prepared.global,
            prepared.branch,
        )?;
        if prepared.is_one_phase {
            self.content.extend_from_slice(&self.kept)?;
            put_commit_of(&self.kept, &xid, event, &mut self.content)?;
        } else {
            let events = mem::replace(&mut self.kept, Vec::new(self.alloc));
            self.add(Prepared { xid, events })?;
            put_commit(event, &mut self.content)?;
        }
        self.is_open = false;
        Ok(())
    }

    /// Adds a transaction to those that are prepared. `AllocError`: out of memory.
    fn add(&mut self, prepared: Prepared) -> Result<(), AllocError>
        ensures ok { OnOk result (AddsPrepared self.old (prepared_view prepared) self.new) }
    {
        match self.prepared.push(prepared) {
            Ok(()) => Ok(()),
            Err(_) => Err(AllocError),
        }
    }

    /// Gives a prepared transaction, which is committed.
    fn commit(&mut self, event: &[u8]) -> Result<(), XaFault>
        requires long { 19 ≤ length event.now }
        requires none { content_of self.old ≡ [] }
        ensures ok { OnOk result (Commits (state_of self.old) event.now (content_of self.new) (state_of self.new)) }
        ensures err { IfErr result (FaultOf (state_of self.old) roles.Commit event.now) }
    {
        if self.is_open {
            return Err(XaFault::Misplaced);
        }
        let Some(index) = Prepared::index_of(&self.prepared, committed_xid(event)) else {
            return Err(XaFault::Unprepared);
        };
        put_begin(event, &mut self.content)?;
        let events = &self.prepared[index].events;
        self.content.extend_from_slice(events)?;
        put_commit_of(events, committed_xid(event), event, &mut self.content)?;
        drop(self.prepared.remove(index));
        Ok(())
    }

    /// Drops a prepared transaction, or the open one: a transaction without changes is given.
    fn roll_back(&mut self, event: &[u8]) -> Result<(), XaFault>
        requires long { 19 ≤ length event.now }
        requires none { content_of self.old ≡ [] }
        ensures ok { OnOk result (TakesRole (state_of self.old) roles.Rollback event.now (content_of self.new) (state_of self.new)) }
        ensures err { IfErr result (FaultOf (state_of self.old) roles.Rollback event.now) }
    {
        if self.is_open {
            put_commit(event, &mut self.content)?;
            self.is_open = false;
            return Ok(());
        }
        put_begin(event, &mut self.content)?;
        put_commit(event, &mut self.content)?;
        if let Some(index) = Prepared::index_of(&self.prepared, rolled_back_xid(event)) {
            drop(self.prepared.remove(index));
        }
        Ok(())
    }
}
