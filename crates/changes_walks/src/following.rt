//! Follows a server's answer: passes the transactions that its events complete to a sink.

ghost use Rattle.std.specs.Prelude.{◌≡◌, ◌++◌, ◌<◌, List, ℕ, [], length, IfOk};
ghost use Rattle.wire_buf.specs.Watched.{has_failed, inner_of};
ghost use Rattle.feed_checks.specs.EventFields.{Event};
ghost use Rattle.feed_checks.specs.Sums.{IsChecksumFunction};
ghost use Rattle.feed_transactions.specs.Checks.{fault_of};
ghost use Rattle.feed_replication.specs.AnswerEvents.{checksum_of};
ghost use Rattle.changes_walks.specs.FollowedAnswers.{is_heartbeat, Asked, BeginsAnswer, HasNewest, IsFollowing, IsReady, LogTransaction};
ghost use Rattle.changes_walks.specs.FollowedEnds.{is_failed, Follows, FollowsLogs, PushesEvent, Takes, TakesAll, TakesPiece};
ghost use Rattle.changes_walks.specs.LogWalks.{ExpectsLike};
ghost use Rattle.changes_walks.specs.SourceStates.{known_in};

use crate::answer_sink::AnswerSink;
use crate::prepared::PreparedSource;
use crate::pushed::{PushedEnd, pushed_log, walk_pushed};
use crate::sources::SourceStates;
use changes_commands::Failure;
use events_frames::{Events, TYPE_OFFSET};
use feed_change_log::{Filter, Pushed, PushedLog, Stop};
use feed_checks::Verdict;
use feed_replication::AnswerEvents;
use feed_transactions::Recorder;
use rows_constants::EventType;
use std::alloc::{AllocError, Global};
use std::io::Read;
use wire_buf::Watched;

/// The type of the heartbeats that MySQL sends from 8.0.26 on to replicas that know them.
const HEARTBEAT_LOG_EVENT_V2: u8 = 41;

/// Why following an answer ends.
#[derive(Clone, Copy)]
pub enum FollowEnd {
    /// The answer ended, or the input did between two packets.
    Ended,
    /// The input ended within a packet.
    Cut,
    /// Reading failed.
    Unread,
    /// A packet isn't one of an event.
    Packet(Verdict),
    /// The log has a fault.
    Fault,
    /// Out of memory.
    Memory,
    /// The sink failed.
    Failed(Failure),
}

/// Whether an event of an answer is none of a log: a heartbeat.
fn is_heartbeat(event: &[u8]) -> bool
    ensures { result ≡ is_heartbeat event.now }
{
    match event.get(TYPE_OFFSET) {
        Some(number) => {
            *number == EventType::HEARTBEAT_EVENT as u8 || *number == HEARTBEAT_LOG_EVENT_V2
        }
        None => false,
    }
}

/// Pushes an event of an answer in the log with this name, unless it is a heartbeat, and passes the transactions that it completes to the
/// sink.
fn push_event<
    F: Fn(&[u8]) -> u32,
    C: Recorder,
    E: Events<Pushed> + PreparedSource + Drop,
    S: AnswerSink<C>,
>(
    filter: Filter<'_>,
    checksum: &F,
    name: &[u8],
    event: &[u8],
    log: &mut PushedLog<C, E>,
    sink: &mut S,
) -> Result<(), FollowEnd>
    requires callable { F.IsAlwaysCallable checksum.now }
    ensures pushes { (sum : List ℕ → ℕ) → IsChecksumFunction F.Fn checksum.now sum → (past : List Event) (first : S) (l : List LogTransaction) (acks : List ℕ) → IsReady C.IsOpen C.IsLike S.Expects filter.entry past log.old sink.old → S.HasLogs first sink.old l acks
        → PushesEvent C.IsOpen C.IsLike S.Expects (fault_of sum) filter.entry E.MayGive (S.HasLogs first) (S.FailsInLogs first) name.now event.now l acks past log.old log.new sink.new result }
{
    if is_heartbeat(event) {
        return Ok(());
    }
    let Ok(()) = sink.enter(name) else {
        return Err(FollowEnd::Memory);
    };
    let Ok(()) = log.push(event) else {
        return Err(FollowEnd::Fault);
    };
    match walk_pushed(log, checksum, filter, sink).end {
        PushedEnd::Waits => Ok(()),
        PushedEnd::Ended(_) => Err(FollowEnd::Fault),
        PushedEnd::Failed(failure) => Err(FollowEnd::Failed(failure)),
    }
}

/// Takes the newest event of an answer: pushes it, and keeps its acknowledgement, if the source asks for it.
fn take_event<
    F: Fn(&[u8]) -> u32,
    G: Fn(&[u8]) -> u32,
    C: Recorder,
    E: Events<Pushed> + PreparedSource + Drop,
    S: AnswerSink<C>,
>(
    filter: Filter<'_>,
    checksum: &F,
    answer: &mut AnswerEvents<G>,
    log: &mut PushedLog<C, E>,
    sink: &mut S,
) -> Result<(), FollowEnd>
    requires callable { F.IsAlwaysCallable checksum.now }
    ensures takes { (sum : List ℕ → ℕ) → IsChecksumFunction F.Fn checksum.now sum → (q : Asked) (source : E) (first : S) (s : List ℕ) → HasNewest C.IsOpen C.IsLike S.Expects q (fault_of sum) filter.entry E.MayGive source (S.HasLogs first) answer.old log.old sink.old s
        → Takes C.IsOpen C.IsLike S.Expects q (fault_of sum) filter.entry E.MayGive source (S.HasLogs first) (S.FailsInLogs first) answer.new log.new sink.new s result }
    ensures checksum { checksum_of answer.new ≡ checksum_of answer.old }
{
    let event = answer.event();
    match push_event(
        filter,
        checksum,
        answer.name(),
        event,
        &mut *log,
        &mut *sink,
    ) {
        Ok(()) => {}
        Err(end) => return Err(end),
    }
    sink.pass(event);
    match answer.acknowledge() {
        Ok(()) => Ok(()),
        Err(_) => Err(FollowEnd::Memory),
    }
}

/// Takes the events of the packets that arrived.
fn take_packets<
    F: Fn(&[u8]) -> u32,
    G: Fn(&[u8]) -> u32,
    C: Recorder,
    E: Events<Pushed> + PreparedSource + Drop,
    S: AnswerSink<C>,
>(
    filter: Filter<'_>,
    checksum: &F,
    answer: &mut AnswerEvents<G>,
    log: &mut PushedLog<C, E>,
    sink: &mut S,
) -> Result<(), FollowEnd>
    requires callable { F.IsAlwaysCallable checksum.now }
    requires answer { G.IsAlwaysCallable (checksum_of answer.old) }
    ensures takes { (sum : List ℕ → ℕ) → IsChecksumFunction F.Fn checksum.now sum → (q : Asked) → IsChecksumFunction G.Fn (checksum_of answer.old) q.sum → (source : E) (first : S) (s : List ℕ) → IsFollowing C.IsOpen C.IsLike S.Expects q (fault_of sum) filter.entry E.MayGive source (S.HasLogs first) answer.old log.old sink.old s
        → TakesAll C.IsOpen C.IsLike S.Expects q (fault_of sum) filter.entry E.MayGive source (S.HasLogs first) (S.FailsInLogs first) answer.new log.new sink.new s result }
    ensures checksum { checksum_of answer.new ≡ checksum_of answer.old }
{
    for _ in 0..u64::MAX {
        match answer.next_event() {
            Ok(true) => {}
            Ok(false) => return Ok(()),
            Err(Verdict::End) => return Err(FollowEnd::Ended),
            Err(verdict) => return Err(FollowEnd::Packet(verdict)),
        }
        match take_event(filter, checksum, &mut *answer, &mut *log, &mut *sink) {
            Ok(()) => {}
            Err(end) => return Err(end),
        }
    }
    Err(FollowEnd::Memory)
}

/// Whether the sink failed.
fn is_failed(outcome: Result<(), FollowEnd>) -> bool
    ensures { result ≡ is_failed outcome }
{
    match outcome {
        Err(FollowEnd::Failed(_)) => true,
        Ok(()) | Err(_) => false,
    }
}

/// Takes the next bytes of an answer; then the sink writes the transactions that they complete, and the acknowledgements that are due.
fn take_piece<
    F: Fn(&[u8]) -> u32,
    G: Fn(&[u8]) -> u32,
    C: Recorder,
    E: Events<Pushed> + PreparedSource + Drop,
    S: AnswerSink<C>,
>(
    filter: Filter<'_>,
    checksum: &F,
    piece: &[u8],
    answer: &mut AnswerEvents<G>,
    log: &mut PushedLog<C, E>,
    sink: &mut S,
) -> Result<(), FollowEnd>
    requires callable { F.IsAlwaysCallable checksum.now }
    requires answer { G.IsAlwaysCallable (checksum_of answer.old) }
    ensures takes { (sum : List ℕ → ℕ) → IsChecksumFunction F.Fn checksum.now sum → (q : Asked) → IsChecksumFunction G.Fn (checksum_of answer.old) q.sum → (source : E) (first : S) (s : List ℕ) → IsFollowing C.IsOpen C.IsLike S.Expects q (fault_of sum) filter.entry E.MayGive source (S.HasLogs first) answer.old log.old sink.old s → S.IsWritten sink.old
        → TakesPiece C.IsOpen C.IsLike S.Expects q (fault_of sum) filter.entry E.MayGive source (S.HasLogs first) (S.FailsInLogs first) S.IsWritten answer.new log.new sink.new (s ++ piece.now) result }
    ensures checksum { checksum_of answer.new ≡ checksum_of answer.old }
{
    let Ok(()) = answer.receive(piece) else {
        return Err(FollowEnd::Memory);
    };
    let outcome = take_packets(filter, checksum, &mut *answer, &mut *log, &mut *sink);
    if is_failed(outcome) {
        return outcome;
    }
    let due = answer.acks();
    match sink.write_out(&due) {
        Ok(()) => outcome,
        Err(failure) => Err(FollowEnd::Failed(failure)),
    }
}

/// Follows a server's answer to its end: passes the transactions of its logs that a filter takes to a sink, each once its commit has
/// arrived. After each read the sink writes them, and then the acknowledgements that the source asks for. `piece` is the buffer for
/// what a read gives. `checksum` computes the checksum of bytes; MySQL's is CRC-32.
pub fn follow_answer<
    R: Read,
    F: Fn(&[u8]) -> u32,
    G: Fn(&[u8]) -> u32,
    C: Recorder,
    E: Events<Pushed> + PreparedSource + Drop,
    S: AnswerSink<C>,
>(
    filter: Filter<'_>,
    checksum: &F,
    input: &mut Watched<R>,
    piece: &mut [u8],
    answer: &mut AnswerEvents<G>,
    log: &mut PushedLog<C, E>,
    sink: &mut S,
) -> FollowEnd
    requires callable { F.IsAlwaysCallable checksum.now }
    requires answer { G.IsAlwaysCallable (checksum_of answer.old) }
    ensures follows { (sum : List ℕ → ℕ) → IsChecksumFunction F.Fn checksum.now sum → (q : Asked) → IsChecksumFunction G.Fn (checksum_of answer.old) q.sum → (source : E) (first : S) (s : List ℕ) → IsFollowing C.IsOpen C.IsLike S.Expects q (fault_of sum) filter.entry E.MayGive source (S.HasLogs first) answer.old log.old sink.old s → S.IsWritten sink.old
        → Follows C.IsOpen C.IsLike S.Expects q (fault_of sum) filter.entry E.MayGive source (S.HasLogs first) (S.FailsInLogs first) S.IsWritten answer.new log.new sink.new s (R.remaining (inner_of input.old)) (R.remaining (inner_of input.new)) (length piece.new) (has_failed input.new) result }
{
    loop {
        let taken = match input.pull_uninterrupted(&mut *piece) {
            Ok(0) if answer.is_complete() => return FollowEnd::Ended,
            Ok(0) => return FollowEnd::Cut,
            Ok(taken) => taken,
            Err(_) => return FollowEnd::Unread,
        };
        match take_piece(
            filter,
            checksum,
            &piece[..taken],
            &mut *answer,
            &mut *log,
            &mut *sink,
        ) {
            Ok(()) => {}
            Err(end) => return end,
        }
    }
}

/// How the logs of an answer were followed.
#[derive(Clone, Copy)]
pub struct Followed {
    pub end: FollowEnd,
    /// How reading them ended.
    pub stop: Stop,
}

/// Follows an answer of which nothing was read to its end, as [`follow_answer`] does. Events of compressed transactions, of XA
/// transactions and of MariaDB are those of MySQL that stand for them. `piece` is the buffer for what a read gives. `AllocError`: out of
/// memory; nothing was read.
pub fn follow_logs<
    R: Read,
    F: Fn(&[u8]) -> u32,
    G: Fn(&[u8]) -> u32,
    C: Recorder,
    S: AnswerSink<C>,
>(
    alloc: Global,
    filter: Filter<'_>,
    checksum: &F,
    input: &mut Watched<R>,
    piece: &mut [u8],
    answer: &mut AnswerEvents<G>,
    states: &mut SourceStates,
    recorder: C,
    sink: &mut S,
) -> Result<Followed, AllocError>
    requires callable { F.IsAlwaysCallable checksum.now }
    requires answer { G.IsAlwaysCallable (checksum_of answer.old) }
    ensures follows { IfOk result (λ followed. (sum : List ℕ → ℕ) → IsChecksumFunction F.Fn checksum.now sum → (q : Asked) → IsChecksumFunction G.Fn (checksum_of answer.old) q.sum → BeginsAnswer q answer.old → ExpectsLike C.IsLike (S.Expects sink.old filter.entry) recorder → (first : S) → S.HasLogs first sink.old [] [] → S.IsWritten sink.old
        → FollowsLogs C.IsOpen C.IsLike S.Expects q (fault_of sum) filter.entry (known_in states.old) (S.HasLogs first) (S.FailsInLogs first) S.IsWritten answer.new sink.new (R.remaining (inner_of input.old)) (R.remaining (inner_of input.new)) (length piece.new) (has_failed input.new) followed.end) }
{
    let mut log = match pushed_log(alloc, states, recorder) {
        Ok(log) => log,
        Err(fault) => return Err(fault),
    };
    let end = follow_answer(filter, checksum, input, piece, answer, &mut log, sink);
    let stop = log.finish();
    Ok(Followed { end, stop })
}
