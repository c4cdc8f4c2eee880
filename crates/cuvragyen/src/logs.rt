//! Logs that arrive in pieces.

ghost use Rattle.std.specs.Prelude.{◌≡◌, IfSome, None, Some};
ghost use Rattle.cuvragyen.specs.Exports.{GoesOn, HasHeader, IsHarmless, Keeps, OnLog, RepresentsStop, Shows, Stops, open_log};

use crate::handle::Handle;
use crate::numbers::{CLOSED, OK, TRANSACTION, number_of, number_of_done, number_of_next};
use c_handles::{View, view_of};
use feed_change_log::Stop;
use library_log::Part;
use std::alloc::Global;
use std::mem::replace;

/// The header of the event that committed a transaction.
#[repr(C)]
#[derive(Drop)]
pub struct LogHeader {
    /// When it was written, in seconds since 1970.
    pub time: u32,
    /// The id of its server.
    pub server_id: u32,
    /// The position in the log after it.
    pub position: u32,
}

/// How a log ended.
#[repr(C)]
#[derive(Drop)]
pub struct LogStop {
    /// The offset of the event that stopped the reading, or of the bytes after the last event.
    pub offset: u64,
    /// The number of bytes after the last event that was taken, as far as they were pushed.
    pub remaining: u64,
    /// The number of the verdict.
    pub verdict: u32,
    /// The position after the last committed transaction.
    pub last_commit: u32,
    /// The type and the size of the event that stopped the reading.
    pub event_type: u32,
    pub event_size: u32,
    /// The type of the newest event that was taken.
    pub newest_type: u32,
    /// Which of these are there.
    pub has_last_commit: bool,
    pub has_event: bool,
    pub has_newest_type: bool,
    /// Whether a transaction was open.
    pub is_open: bool,
    /// Whether the log ends within an event.
    pub is_cut: bool,
}

/// Keeps the next bytes of a part's log.
fn push_to(part: &mut Part<'static>, bytes: &[u8]) -> u32
    ensures closed { IsHarmless (Some part.old) (Some part.new) result }
    ensures keeps { OnLog (Some part.old) (Some part.new) (λ s t. Keeps s t bytes.now result) }
{
    match part {
        Part::Log(log) => number_of_done(log.push(bytes)),
        Part::State(_) => CLOSED,
    }
}

/// Keeps the next bytes of a log.
#[unsafe(no_mangle)]
pub extern "C" fn cuvragyen_push(alloc: Global, log: &mut Handle, bytes: &[u8]) -> u32
    ensures closed { IsHarmless log.old.value log.new.value result }
    ensures keeps { OnLog log.old.value log.new.value (λ s t. Keeps s t bytes.now result) }
{
    let Some(mut part) = replace(log, Handle::closed(alloc)).into_part() else {
        return CLOSED;
    };
    let result = push_to(&mut part, bytes);
    drop(replace(log, Handle::open(part)));
    result
}

/// Goes on to the next transaction of a part's log.
fn advance_in(part: &mut Part<'static>) -> u32
    ensures closed { IsHarmless (Some part.old) (Some part.new) result }
    ensures next { OnLog (Some part.old) (Some part.new) (λ s t. GoesOn s t result) }
{
    match part {
        Part::Log(log) => number_of_next(log.advance()),
        Part::State(_) => CLOSED,
    }
}

/// Goes on to the next transaction.
#[unsafe(no_mangle)]
pub extern "C" fn cuvragyen_next(alloc: Global, log: &mut Handle) -> u32
    ensures closed { IsHarmless log.old.value log.new.value result }
    ensures next { OnLog log.old.value log.new.value (λ s t. GoesOn s t result) }
{
    let Some(mut part) = replace(log, Handle::closed(alloc)).into_part() else {
        return CLOSED;
    };
    let result = advance_in(&mut part);
    drop(replace(log, Handle::open(part)));
    result
}

/// Makes the lines of the newest transaction of a part's log, and says where they are.
fn show_of(part: &mut Part<'static>, shown: &mut View) -> u32
    ensures closed { IsHarmless (Some part.old) (Some part.new) result }
    ensures shows { OnLog (Some part.old) (Some part.new) (λ s t. Shows s t shown.old shown.new result) }
{
    let Part::Log(log) = part else {
        return CLOSED;
    };
    match log.show() {
        Ok(true) => {
            *shown = view_of(log.shown());
            TRANSACTION
        }
        Ok(false) => {
            *shown = view_of(&[]);
            OK
        }
        Err(verdict) => number_of(verdict),
    }
}

/// Makes the lines of the newest transaction, and says where they are: there until the next call that gets the handle.
#[unsafe(no_mangle)]
pub extern "C" fn cuvragyen_show(alloc: Global, log: &mut Handle, shown: &mut View) -> u32
    ensures closed { IsHarmless log.old.value log.new.value result }
    ensures shows { OnLog log.old.value log.new.value (λ s t. Shows s t shown.old shown.new result) }
{
    let Some(mut part) = replace(log, Handle::closed(alloc)).into_part() else {
        return CLOSED;
    };
    let result = show_of(&mut part, shown);
    drop(replace(log, Handle::open(part)));
    result
}

/// Says by which event the newest transaction of a part's log was committed.
fn commit_of(part: &Part<'static>, commit: &mut LogHeader) -> u32
    ensures closed { open_log (Some part.now) ≡ None → result ≡ 2 }
    ensures commit { IfSome (open_log (Some part.now)) (λ s. HasHeader s commit.old commit.new result) }
{
    let Part::Log(log) = part else {
        return CLOSED;
    };
    let Some(header) = log.commit_header() else {
        return OK;
    };
    *commit = LogHeader {
        time: header.timestamp(),
        server_id: header.server_id(),
        position: header.log_pos(),
    };
    TRANSACTION
}

/// Says by which event the newest transaction was committed.
#[unsafe(no_mangle)]
pub extern "C" fn cuvragyen_commit(alloc: Global, log: &mut Handle, commit: &mut LogHeader) -> u32
    ensures closed { IsHarmless log.old.value log.new.value result }
    ensures commit { IfSome (open_log log.old.value) (λ s. HasHeader s commit.old commit.new result) }
    ensures kept { log.new.value ≡ log.old.value }
{
    let Some(part) = replace(log, Handle::closed(alloc)).into_part() else {
        return CLOSED;
    };
    let result = commit_of(&part, commit);
    drop(replace(log, Handle::open(part)));
    result
}

/// How a log ended, for C.
fn stop_of(stop: Stop) -> LogStop
    ensures { RepresentsStop result stop }
{
    LogStop {
        offset: stop.offset,
        remaining: stop.remaining as u64,
        verdict: number_of(stop.verdict),
        last_commit: stop.last_commit.unwrap_or(0),
        event_type: match stop.header {
            Some(header) => u32::from(header.event_type_raw()),
            None => 0,
        },
        event_size: match stop.header {
            Some(header) => header.event_size(),
            None => 0,
        },
        newest_type: match stop.newest_type {
            Some(number) => u32::from(number),
            None => 0,
        },
        has_last_commit: stop.last_commit.is_some(),
        has_event: stop.header.is_some(),
        has_newest_type: stop.newest_type.is_some(),
        is_open: stop.is_open,
        is_cut: stop.is_cut,
    }
}

/// Ends a part's log, and says how it ended.
fn stop_in(part: &mut Part<'static>, stop: &mut LogStop) -> u32
    ensures closed { IsHarmless (Some part.old) (Some part.new) result }
    ensures stops { OnLog (Some part.old) (Some part.new) (λ s t. Stops s t stop.new result) }
{
    let Part::Log(log) = part else {
        return CLOSED;
    };
    *stop = stop_of(log.finish());
    OK
}

/// Ends a log, and says how it ended.
#[unsafe(no_mangle)]
pub extern "C" fn cuvragyen_stop(alloc: Global, log: &mut Handle, stop: &mut LogStop) -> u32
    ensures closed { IsHarmless log.old.value log.new.value result }
    ensures stops { OnLog log.old.value log.new.value (λ s t. Stops s t stop.new result) }
{
    let Some(mut part) = replace(log, Handle::closed(alloc)).into_part() else {
        return CLOSED;
    };
    let result = stop_in(&mut part, stop);
    drop(replace(log, Handle::open(part)));
    result
}
