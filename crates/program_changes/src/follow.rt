//! The command `follow`: the changes of a server's answer, each transaction once its commit has arrived.

ghost use Rattle.std.specs.Prelude.{◌≡◌, List, ℕ, length, IfOk};
ghost use Rattle.wire_buf.specs.Watched.{has_failed, inner_of};
ghost use Rattle.feed_checks.specs.Sums.{IsChecksumFunction};
ghost use Rattle.feed_transactions.specs.Checks.{fault_of};
ghost use Rattle.feed_replication.specs.AnswerEvents.{checksum_of};
ghost use Rattle.changes_walks.specs.SourceStates.{known_in};
ghost use Rattle.program_changes.specs.PrintedAnswers.{asked_by, first_name, payload_format, IsEndStatus, IsNewPrinter, PrintsAnswer};
ghost use Rattle.changes_walks.specs.FollowedAnswers.{BeginsAnswer};

use crate::changes::{LineSink, RunState, table_options};
use crate::follow_formats::follow_format;
use crate::follow_messages::{say_fault, say_packet, say_wrong};
use crate::printer::Printer;
use crate::reached::{Reached, Stopwatch, Timer};
use changes_commands::{Failure, Options, Output};
use changes_lines::{JsonRecorder, Lines};
use changes_tables::Lacks;
use changes_walks::{
    DAMAGED, FAILED, FollowEnd, Followed, SourceFault, SourceStates, USAGE, WHOLE, filter_of,
    follow_logs,
};
use crc32::crc32;
use feed_change_log::Stop;
use feed_replication::{AnswerEvents, PayloadFormat, RequestError};
use std::alloc::AllocError;
use std::fs::File;
use std::io::{Read, Write};
use wire_buf::Watched;

/// The buffer size for reading packets, in bytes.
const PIECE_LEN: usize = 0x2_0000;

/// The maximum length of a payload in bytes.
const PAYLOAD_LIMIT: usize = 1_073_741_824;

/// Opens the file that acknowledgements are written to, if an option names one. The error is the status after one that can't be opened.
pub(crate) fn acks_of(
    rt: &HostRuntime,
    options: &Options<'_>,
) -> Result<Option<Watched<File>>, u8> {
    let Some(path) = options.follow.semi_sync else {
        return Ok(None);
    };
    match File::options().append(true).create(true).open(rt, path) {
        Ok(file) => Ok(Some(Watched::new(file))),
        Err(_) => {
            let _ = eprintln!(rt; "binlog-changes: {path}: it can't be opened for writing");
            Err(FAILED)
        }
    }
}

/// The name of the log before the server names one.
pub(crate) fn first_name<'w>(options: &Options<'w>) -> &'w [u8]
    ensures { result.now ≡ first_name options.now }
{
    match options.follow.log_name {
        Some(name) => name.as_bytes(),
        None => &[],
    }
}

/// The format of the payloads of an answer: that of a semi-synchronous source, if acknowledgements are written.
fn payload_format(options: &Options<'_>) -> PayloadFormat
    ensures { result ≡ payload_format options.now }
{
    match options.follow.semi_sync {
        Some(_) => PayloadFormat::SemiSync,
        None => PayloadFormat::Plain,
    }
}

/// An answer of which nothing arrived. The error is the status if there can be none.
pub(crate) fn answer_of<G: Fn(&[u8]) -> u32 + Drop>(
    rt: &HostRuntime,
    options: &Options<'_>,
    checksum: G,
) -> Result<AnswerEvents<G>, u8>
    ensures begins { IfOk result (λ answer. (sum : List ℕ → ℕ) → BeginsAnswer (asked_by options.now sum) answer) }
    ensures checksum { IfOk result (λ answer. checksum_of answer ≡ checksum) }
{
    let format = payload_format(options);
    let name = first_name(options);
    match AnswerEvents::new(rt.alloc(), format, PAYLOAD_LIMIT, name, checksum) {
        Ok(answer) => Ok(answer),
        Err(RequestError::NameTooLong) => {
            let _ = eprintln!(rt; "binlog-changes: --log-name: it is longer than 511 bytes");
            Err(USAGE)
        }
        Err(RequestError::Memory) => Err(say_wrong(rt, "out of memory", FAILED)),
    }
}

/// Says why following ended. `stop` and `fault` are those of the log, and `is_closed` whether whoever read the output has gone. Returns
/// the status.
pub(crate) fn say_end<G: Fn(&[u8]) -> u32>(
    rt: &HostRuntime,
    end: FollowEnd,
    answer: &AnswerEvents<G>,
    stop: Stop,
    fault: Option<SourceFault>,
    is_closed: bool,
) -> u8
    ensures { IsEndStatus end stop.verdict is_closed result }
{
    match end {
        FollowEnd::Ended | FollowEnd::Failed(Failure::Closed) => WHOLE,
        FollowEnd::Cut => say_wrong(
            rt,
            "it ends within a packet: the connection dropped",
            DAMAGED,
        ),
        FollowEnd::Unread => say_wrong(rt, "reading failed", FAILED),
        FollowEnd::Packet(verdict) => say_packet(rt, verdict, answer.payload()),
        FollowEnd::Fault => say_fault(rt, answer.name(), answer.event(), stop, fault),
        FollowEnd::Failed(Failure::Unwritten) if is_closed => WHOLE,
        FollowEnd::Failed(Failure::Unwritten) => say_wrong(rt, "writing failed", FAILED),
        FollowEnd::Memory | FollowEnd::Failed(Failure::Memory) => {
            say_wrong(rt, "out of memory", FAILED)
        }
    }
}

/// Where the lines of a run go. The error is the status if there is no such place.
fn printer_of<'r>(
    rt: &'r HostRuntime,
    options: &Options<'_>,
    lacks: Lacks,
) -> Result<Printer<Output<'r>, File, Stopwatch<'r>>, u8>
    ensures { IfOk result (λ printer. IsNewPrinter options.now printer) }
{
    let acks = acks_of(rt, options)?;
    let lines = Lines::new(rt.alloc(), options.by_transaction);
    let Ok(mut sink) = LineSink::new(rt.alloc(), options, lines, lacks, Output::new(rt)) else {
        return Err(say_wrong(rt, "out of memory", FAILED));
    };
    let name = first_name(options);
    match sink.rename(name) {
        Ok(()) => Ok(Printer {
            alloc: rt.alloc(),
            sink,
            acks,
            reached: Reached::new(Stopwatch::new(rt), options.follow.progress),
        }),
        Err(_) => Err(say_wrong(rt, "out of memory", FAILED)),
    }
}

/// A buffer for what a read gives. The error is the status if memory runs out.
pub(crate) fn piece_of(rt: &HostRuntime) -> Result<Vec<u8>, u8> {
    let mut piece = Vec::new(rt.alloc());
    match piece.resize(PIECE_LEN, 0) {
        Ok(()) => Ok(piece),
        Err(_) => Err(say_wrong(rt, "out of memory", FAILED)),
    }
}

/// Prints the lines of the transactions of an answer that the options select, each once its commit has arrived. `checksum` computes the
/// checksum of bytes; MySQL's is CRC-32, `piece` the buffer for what a read gives. `AllocError`: out of memory; nothing was read.
fn print_answer<R: Read, F: Fn(&[u8]) -> u32, G: Fn(&[u8]) -> u32, W: Write, A: Write, T: Timer>(
    options: &Options<'_>,
    checksum: &F,
    input: &mut Watched<R>,
    piece: &mut [u8],
    answer: &mut AnswerEvents<G>,
    sources: &mut SourceStates,
    printer: &mut Printer<W, A, T>,
) -> Result<Followed, AllocError>
    requires callable { F.IsAlwaysCallable checksum.now }
    requires answer { G.IsAlwaysCallable (checksum_of answer.old) }
    ensures prints { IfOk result (λ followed. (sum : List ℕ → ℕ) → IsChecksumFunction F.Fn checksum.now sum → IsChecksumFunction G.Fn (checksum_of answer.old) sum → BeginsAnswer (asked_by options.now sum) answer.old → IsNewPrinter options.now printer.old
        → PrintsAnswer W.contents A.contents (asked_by options.now sum) (fault_of sum) options.now (known_in sources.old) printer.old printer.new answer.new (R.remaining (inner_of input.old)) (R.remaining (inner_of input.new)) (length piece.new) (has_failed input.new) followed.end) }
{
    let filter = filter_of(options);
    let alloc = printer.alloc;
    let recorder = JsonRecorder::new(
        alloc,
        filter.table_filter(),
        table_options(options),
        options.added,
    );
    match follow_logs(
        alloc, filter, checksum, input, piece, answer, sources, recorder, printer,
    ) {
        Ok(followed) => Ok(followed),
        Err(fault) => Err(fault),
    }
}

/// Prints the changes of a server's answer on standard input. The error is the status if following can't begin.
fn follow_input(rt: &HostRuntime, options: &Options<'_>, state: &mut RunState) -> Result<u8, u8> {
    let mut printer = printer_of(rt, options, state.lacks)?;
    let mut piece = piece_of(rt)?;
    let mut answer = answer_of(rt, options, crc32)?;
    let Ok(Followed { end, stop }) = print_answer(
        options,
        &crc32,
        &mut Watched::new(rt.reader()),
        piece.as_mut_slice(),
        &mut answer,
        &mut state.sources,
        &mut printer,
    ) else {
        return Err(say_wrong(rt, "out of memory", FAILED));
    };
    let (_, lacks, output) = printer.sink.into_parts();
    state.lacks = lacks;
    let is_closed = output.is_closed();
    let fault = state.sources.fault();
    Ok(say_end(rt, end, &answer, stop, fault, is_closed))
}

/// Prints the changes of a server's answer on standard input. Returns the status.
pub(crate) fn follow(rt: &HostRuntime, options: &Options<'_>, state: &mut RunState) -> u8 {
    let followed = match options.format {
        Some(_) => follow_format(rt, options, &mut state.sources),
        None => follow_input(rt, options, state),
    };
    match followed {
        Ok(status) | Err(status) => status,
    }
}
