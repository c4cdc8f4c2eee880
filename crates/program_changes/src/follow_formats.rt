//! `follow --format`: the changes of a server's answer in the format of another program.

ghost use Rattle.std.specs.Prelude.{◌≡◌, ⊤, [], OnOk};
ghost use Rattle.feed_replication.specs.AnswerEvents.{checksum_of};
ghost use Rattle.feed_transactions.specs.Waiting.{bytes_of};

use crate::follow::{acks_of, answer_of, first_name, piece_of, say_end};
use crate::follow_messages::say_wrong;
use crate::formats::FormatState;
use crate::outcomes::say_refused;
use crate::printer::write_acks;
use changes_commands::{Failure, Options, Output};
use changes_formats::FormatRecorder;
use changes_walks::{
    AnswerSink, DAMAGED, FAILED, Followed, SourceStates, TransactionSink, filter_of, follow_logs,
};
use crc32::crc32;
use feed_change_log::Filter;
use feed_replication::AnswerEvents;
use feed_transactions::WaitingBytes;
use std::alloc::{AllocError, Global};
use std::fs::File;
use std::io::{Read, Write};
use wire_buf::Watched;

/// Where lines and acknowledgements go.
#[derive(Drop)]
struct FormatPrinter<W: Write, A: Write> {
    alloc: Global,
    /// The name of the log.
    file: Vec<u8>,
    state: FormatState,
    waiting: WaitingBytes,
    writer: Watched<W>,
    /// What acknowledgements are written to, if they are.
    acks: Option<Watched<A>>,
}

impl<W: Write, A: Write> FormatPrinter<W, A> {
    /// Writes the lines that wait. `Unwritten`: the writer failed.
    fn write_waiting(&mut self) -> Result<(), Failure>
        ensures { OnOk result (bytes_of self.new.waiting ≡ []) }
    {
        match self.waiting.write_all(&mut self.writer) {
            Ok(()) => Ok(()),
            Err(_) => Err(Failure::Unwritten),
        }
    }
}

impl<W: Write, A: Write> TransactionSink<FormatRecorder> for FormatPrinter<W, A> {
    ghost Expects = { λ first f newest. ⊤ };

    ghost HasAll = { λ first s m. ⊤ };

    ghost HasFailed = { λ first s m e. ⊤ };

    fn log_pos(newest: &FormatRecorder) -> u32 {
        newest.transaction().log_pos()
    }

    fn take(
        &mut self,
        filter: Filter<'_>,
        newest: &FormatRecorder,
        _is_clear: bool,
    ) -> Result<(), Failure> {
        self.state.write(
            self.alloc,
            &self.file,
            filter,
            newest,
            &mut self.waiting,
            &mut self.writer,
        )
    }
}

impl<W: Write, A: Write> AnswerSink<FormatRecorder> for FormatPrinter<W, A> {
    ghost log_in = { λ s. s.file.items };

    ghost HasLogs = { λ first s l acks. ⊤ };

    ghost FailsInLogs = { λ first s l acks e. ⊤ };

    ghost IsWritten = { λ s. bytes_of s.waiting ≡ [] };

    fn enter(&mut self, log: &[u8]) -> Result<(), AllocError> {
        if self.file.as_slice() == log {
            return Ok(());
        }
        self.file.clear();
        self.file.extend_from_slice(log)
    }

    fn pass(&mut self, _event: &[u8]) {}

    fn write_out(&mut self, acks: &[u8]) -> Result<(), Failure> {
        self.write_waiting()?;
        write_acks(&mut self.acks, acks)
    }

    ghost none = { λ s. tt };

    ghost adds = { λ first s new l acks m has all. tt };

    ghost fails = { λ first s new l acks m e has some. tt };

    ghost wants = { λ s new m f c all wanted. tt };
}

/// Where the lines of a run go. The error is the status if there is no such place.
fn printer_of<'r>(
    rt: &'r HostRuntime,
    options: &Options<'_>,
) -> Result<FormatPrinter<Output<'r>, File>, u8> {
    let alloc = rt.alloc();
    let acks = acks_of(rt, options)?;
    let Ok(waiting) = WaitingBytes::new(alloc) else {
        return Err(say_wrong(rt, "out of memory", FAILED));
    };
    let mut file = Vec::new(alloc);
    match file.extend_from_slice(first_name(options)) {
        Ok(()) => Ok(FormatPrinter {
            alloc,
            file,
            state: FormatState::new(alloc, options),
            waiting,
            writer: Watched::new(Output::new(rt)),
            acks,
        }),
        Err(_) => Err(say_wrong(rt, "out of memory", FAILED)),
    }
}

/// Prints the lines of the transactions of an answer that the options select, each once its commit has arrived. `piece` is the buffer for
/// what a read gives. `AllocError`: out of memory; nothing was read.
fn print_answer<R: Read, F: Fn(&[u8]) -> u32, G: Fn(&[u8]) -> u32, W: Write, A: Write>(
    options: &Options<'_>,
    checksum: &F,
    input: &mut Watched<R>,
    piece: &mut [u8],
    answer: &mut AnswerEvents<G>,
    sources: &mut SourceStates,
    printer: &mut FormatPrinter<W, A>,
) -> Result<Followed, AllocError>
    requires callable { F.IsAlwaysCallable checksum.now }
    requires answer { G.IsAlwaysCallable (checksum_of answer.old) }
{
    let alloc = printer.alloc;
    let filter = filter_of(options);
    let recorder = FormatRecorder::new(alloc);
    match follow_logs(
        alloc, filter, checksum, input, piece, answer, sources, recorder, printer,
    ) {
        Ok(followed) => Ok(followed),
        Err(fault) => Err(fault),
    }
}

/// Prints the changes of a server's answer on standard input, in the format that the options name. The error is the status if following
/// can't begin.
pub(crate) fn follow_format(
    rt: &HostRuntime,
    options: &Options<'_>,
    sources: &mut SourceStates,
) -> Result<u8, u8> {
    let mut printer = printer_of(rt, options)?;
    let mut piece = piece_of(rt)?;
    let mut answer = answer_of(rt, options, crc32)?;
    let Ok(Followed { end, stop }) = print_answer(
        options,
        &crc32,
        &mut Watched::new(rt.reader()),
        piece.as_mut_slice(),
        &mut answer,
        &mut *sources,
        &mut printer,
    ) else {
        return Err(say_wrong(rt, "out of memory", FAILED));
    };
    let written = printer.write_waiting();
    let FormatPrinter {
        file,
        state,
        writer,
        ..
    } = printer;
    if written.is_ok()
        && let Some(refused) = &state.refused
    {
        say_refused(
            rt,
            name_of(&file),
            refused,
            "has no line in this format",
            "",
        );
        return Ok(DAMAGED);
    }
    let is_closed = writer.into_inner().is_closed();
    Ok(say_end(rt, end, &answer, stop, sources.fault(), is_closed))
}

/// The name of the log for a message.
fn name_of(file: &[u8]) -> &str {
    match std::str::from_utf8(file) {
        Ok(name) if !name.is_empty() => name,
        _ => "standard input",
    }
}
