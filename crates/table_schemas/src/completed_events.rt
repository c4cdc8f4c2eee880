//! A source of events that gives table maps as MySQL's servers write them, and completed.

ghost use Rattle.std.specs.Prelude.{◌≡◌, ◌≤◌, ◌<◌, ◌+◌, List, ℕ, true, false, IsTrue, IsFalse, IfOk, IfErr, OnOk, OnErr, length, if◌then◌else◌};
ghost use Rattle.events_frames.specs.Events.{IsWholeEvent};
ghost use Rattle.table_schemas.specs.CompletedMaps.{tables_of, completed};
ghost use Rattle.table_schemas.specs.MysqlEvents.{is_table_map};
ghost use Rattle.table_schemas.specs.MysqlTableMaps.{described_after};

use crate::described::Described;
use crate::lengths::Lengths;
use crate::mysql_maps::MysqlMaps;
use crate::schemas::Schemas;
use events_frames::{BinlogEventHeader, EventError, Events, NextFrame, event_size, has_type};
use events_replaced::PlainEvents;
use rows_constants::EventType;
use std::alloc::{AllocError, Global};
use std::io::Read;
use wire_buf::Watched;

/// Where the newest event is.
#[derive(Clone, Copy)]
enum Newest {
    /// There is none.
    None,
    /// There is none, and the other source has no more.
    Over,
    /// It is the other source's.
    Own,
    /// It is a table map as MySQL's servers write it.
    Mysql,
    /// It is a completed table map.
    Completed,
}

/// Gives the events of another source, in place of each table map the same as MySQL's servers write it, if a server of MariaDB wrote the
/// log, and then completed by a schema. An empty schema completes none.
#[derive(Drop)]
pub struct CompletedEvents<'s, S> {
    source: S,
    schemas: &'s mut Schemas,
    /// What the newest format description says.
    described: Described,
    /// Whether the newest event of the other source is yet to be given, since memory ran out.
    waits: bool,
    newest: Newest,
    /// Makes MariaDB's table maps as MySQL's servers write them, and has the newest.
    mysql: MysqlMaps,
    /// The newest completed table map.
    event: Vec<u8>,
    /// How long the table maps are that were made so far.
    lengths: Lengths,
}

/// Whether bytes are a whole event.
fn is_whole(event: &[u8]) -> bool
    ensures { IsTrue result → IsWholeEvent event.now }
{
    event.len() >= BinlogEventHeader::LEN && event_size(event) as usize == event.len()
}

/// What was made in place of an event, or this itself.
fn made_or_own<'e>(is_made: bool, made: &'e [u8], own: &'e [u8]) -> &'e [u8]
    ensures { result.now ≡ (if is_made then made.now else own.now) }
{
    if is_made { made } else { own }
}

/// Writes a table map that a schema completes into a buffer, and returns true; or returns false, and it is as it should be. `AllocError`: out
/// of memory.
fn put_completed(
    schemas: &mut Schemas,
    event: &[u8],
    has_checksum: bool,
    out: &mut Vec<u8>,
) -> Result<bool, AllocError>
    requires { 19 ≤ length event.now }
    ensures completed { IfOk result (λ is_made. (if is_made then out.new.items else event.now) ≡ completed (tables_of schemas.old) has_checksum event.now) }
    ensures tables { tables_of schemas.new ≡ tables_of schemas.old }
{
    if schemas.is_empty() {
        return Ok(false);
    }
    schemas.put_completed(event, has_checksum, out)
}

impl Newest {
    ghost use Rattle.table_schemas.specs.CompletingStates.{newest_after, newest_if};

    /// It is a completed table map, or one as MySQL's servers write it, or the other source's.
    fn of(is_mysql_made: bool, is_completed: bool) -> Newest
        ensures { result ≡ newest_if is_mysql_made is_completed }
    {
        match (is_mysql_made, is_completed) {
            (_, true) => Newest::Completed,
            (true, false) => Newest::Mysql,
            (false, false) => Newest::Own,
        }
    }

    /// Whether it was made.
    fn is_made(self) -> bool {
        matches!(self, Newest::Mysql | Newest::Completed)
    }

    /// There is none after this error of the other source.
    fn after(fault: EventError) -> Newest
        ensures { result ≡ newest_after fault }
    {
        match fault {
            EventError::Frame => Newest::Over,
            _ => Newest::None,
        }
    }
}

impl<'s, S> CompletedEvents<'s, S> {
    ghost use Rattle.table_schemas.specs.CompletingStates.{source_of, tables_in, IsUnstarted};

    /// Gives the events of a source that hasn't given any.
    pub fn new(alloc: Global, source: S, schemas: &'s mut Schemas) -> CompletedEvents<'s, S>
        ensures source { source_of result ≡ source }
        ensures tables { tables_in result ≡ tables_of schemas.entry.now }
        ensures nothing { IsUnstarted result }
    {
        CompletedEvents {
            source,
            schemas,
            described: Described::nothing(),
            waits: false,
            newest: Newest::None,
            mysql: MysqlMaps::new(alloc),
            event: Vec::new(alloc),
            lengths: Lengths::none(),
        }
    }

    /// The other source.
    pub fn source(&self) -> &S
        ensures { result.now ≡ source_of self.now }
    {
        &self.source
    }

    /// The offset, among the other source's bytes, of the newest event, or of the bytes after the last if there is none. `given` is its
    /// offset among the bytes that this source gave.
    pub fn own_offset(&self, given: u64) -> u64 {
        self.lengths.own_offset(given, self.newest.is_made())
    }
}

impl<R: Read, S: Events<R>> Events<R> for CompletedEvents<'_, S> {
    ghost use Rattle.table_schemas.specs.CompletingStates.{newest_of, at_hand_of, calls_left, GivesBy};
    ghost use Rattle.table_schemas.specs.CompletedEventLaws.{some_completed};

    ghost newest = { λ s. newest_of S.newest s };

    ghost at_hand = { λ s. at_hand_of S.at_hand s };

    ghost to_come = { λ s reads. calls_left S.to_come s reads };

    ghost MayGive = { λ s left b. GivesBy S.newest S.MayGive s left b };

    ghost some = { λ s left. some_completed S.newest S.MayGive S.some s left };

    #[inline(always)]
    fn event(&self) -> &[u8] {
        match self.newest {
            Newest::None | Newest::Over => &[],
            Newest::Own => self.source.event(),
            Newest::Mysql => &self.mysql.event,
            Newest::Completed => &self.event,
        }
    }

    #[inline(always)]
    fn waiting(&self) -> &[u8] {
        match self.newest {
            Newest::Over => self.source.waiting(),
            _ => &[],
        }
    }

    #[inline(always)]
    fn next_frame(&mut self, reader: &mut Watched<R>) -> Result<NextFrame, EventError> {
        self.newest = Newest::None;
        if self.waits {
            return match self.give_waiting::<R>() {
                Ok(()) => Ok(NextFrame::Event),
                Err(_) => Err(EventError::Memory),
            };
        }
        match self.source.next_frame(reader) {
            Ok(NextFrame::Event) => match self.give_next::<R>() {
                Ok(()) => Ok(NextFrame::Event),
                Err(_) => Err(EventError::Memory),
            },
            Ok(NextFrame::Ended) => {
                self.newest = Newest::Over;
                Ok(NextFrame::Ended)
            }
            Err(fault) => {
                self.newest = Newest::after(fault);
                Err(fault)
            }
        }
    }
}

impl<R: Read, S: PlainEvents<R>> PlainEvents<R> for CompletedEvents<'_, S> {
    ghost use Rattle.table_schemas.specs.CompletingStates.{IsIdleOver};

    ghost IsIdle = { λ s. IsIdleOver S.IsIdle s };

    #[inline(always)]
    fn is_idle(&self) -> bool {
        matches!(self.newest, Newest::Own)
            && !self.waits
            && !self.described.is_mariadb
            && self.schemas.is_empty()
            && self.source.is_idle()
    }

    #[inline(always)]
    fn next_plain(&mut self, reader: &mut Watched<R>) -> bool {
        self.source.next_plain(reader)
    }

    #[inline(always)]
    fn own_event(&self) -> &[u8] {
        self.source.own_event()
    }
}

impl<S> CompletedEvents<'_, S> {
    ghost use Rattle.table_schemas.specs.CompletingStates.{GivesNow, WaitsNow, HasNone};

    /// Gives the newest event of the other source, as MySQL's servers write it and completed if it is a table map. After `AllocError`, out
    /// of memory, it waits to be given.
    #[inline(always)]
    fn give_next<R: Read>(&mut self) -> Result<(), AllocError>
    where
        S: Events<R>,
        requires whole { IsWholeEvent (S.newest self.old.source) }
        requires none { HasNone self.old }
        ensures ok { OnOk result (GivesNow S.newest (described_after self.old.described (S.newest self.old.source)) self.old self.new) }
        ensures err { OnErr result (WaitsNow self.old self.new) }
    {
        let event = self.source.event();
        self.described = self.described.after(event);
        if !has_type(event, EventType::TABLE_MAP_EVENT) {
            self.waits = false;
            self.newest = Newest::Own;
            return Ok(());
        }
        self.give_map::<R>()
    }

    /// The same of a table map.
    fn give_map<R: Read>(&mut self) -> Result<(), AllocError>
    where
        S: Events<R>,
        requires map { is_table_map (S.newest self.old.source) ≡ true }
        requires long { 19 ≤ length (S.newest self.old.source) }
        requires none { HasNone self.old }
        ensures ok { OnOk result (GivesNow S.newest self.old.described self.old self.new) }
        ensures err { OnErr result (WaitsNow self.old self.new) }
    {
        if self.schemas.is_empty() && !self.described.is_mariadb {
            self.waits = false;
            self.newest = Newest::Own;
            return Ok(());
        }
        self.waits = true;
        let event = self.source.event();
        let len = event.len();
        let is_mysql_made = self.mysql.put(event, self.described)?;
        let event = made_or_own(is_mysql_made, &self.mysql.event, event);
        let has_checksum = self.described.has_checksum;
        let is_completed = put_completed(self.schemas, event, has_checksum, &mut self.event)?;
        self.waits = false;
        self.newest = Newest::of(is_mysql_made, is_completed);
        let made = made_or_own(is_completed, &self.event, event);
        self.lengths = self.lengths.and(self.newest.is_made(), made.len(), len);
        Ok(())
    }

    /// Gives the newest event of the other source after memory ran out for it. After `AllocError`, out of memory, it still waits.
    #[cold]
    #[inline(never)]
    fn give_waiting<R: Read>(&mut self) -> Result<(), AllocError>
    where
        S: Events<R>,
        requires waits { self.old.waits ≡ true }
        requires none { HasNone self.old }
        ensures whole { OnOk result (IsWholeEvent (S.newest self.old.source)) }
        ensures ok { OnOk result (GivesNow S.newest (described_after self.old.described (S.newest self.old.source)) self.old self.new) }
        ensures err { OnErr result (WaitsNow self.old self.new) }
    {
        if !is_whole(self.source.event()) {
            return Err(AllocError);
        }
        self.give_next::<R>()
    }
}
