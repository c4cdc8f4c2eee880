//! Where the command `follow` prints the lines of an answer.

ghost use Rattle.std.specs.Prelude.{◌≡◌, refl, IfOk};
ghost use Rattle.changes_commands.specs.GrowingTexts.{bytes_in};
ghost use Rattle.program_changes.specs.FollowedLines.{FailsSome, IsReached, WritesAcks};
ghost use Rattle.program_changes.specs.FollowedLineLaws.{acks_stay, fails_more, lines_at_first, prints_more, wants_more};
ghost use Rattle.program_changes.specs.LineSinks.{HasLines, IsRecorderFor};

use crate::changes::LineSink;
use crate::reached::{Reached, Timer};
use changes_commands::{Failure, Text};
use changes_lines::JsonRecorder;
use changes_walks::{AnswerSink, TransactionSink};
use feed_change_log::Filter;
use feed_transactions::put_all;
use std::alloc::{AllocError, Global};
use std::io::Write;
use wire_buf::Watched;

/// Where lines and acknowledgements go.
#[derive(Drop)]
pub(crate) struct Printer<W: Write, A: Write, T: Timer> {
    pub(crate) alloc: Global,
    pub(crate) sink: LineSink<W>,
    /// What acknowledgements are written to, if they are.
    pub(crate) acks: Option<Watched<A>>,
    pub(crate) reached: Reached<T>,
}

/// The line that says how far the log with this name was read, if it is due; else no text. `AllocError`: out of memory.
fn progress_line<T: Timer>(
    alloc: Global,
    name: &[u8],
    reached: &mut Reached<T>,
) -> Result<Text, AllocError>
    ensures { IfOk result (λ line. IsReached name.now (bytes_in line)) }
{
    let mut line = Text::new(alloc);
    if !reached.is_due() {
        return Ok(line);
    }
    reached.put(name, &mut line);
    reached.was_said();
    match line.ended() {
        Ok(()) => Ok(line),
        Err(fault) => Err(fault),
    }
}

/// Writes acknowledgements, if there is a writer for them. `Unwritten`: it failed.
pub(crate) fn write_acks<A: Write>(acks: &mut Option<Watched<A>>, due: &[u8]) -> Result<(), Failure>
    ensures { WritesAcks A.contents acks.old acks.new due.now result }
{
    match acks {
        Some(writer) => match put_all(writer, due) {
            Ok(()) => Ok(()),
            Err(_) => Err(Failure::Unwritten),
        },
        None => Ok(()),
    }
}

impl<'f, W: Write, A: Write, T: Timer> TransactionSink<JsonRecorder<'f>> for Printer<W, A, T> {
    ghost Expects = { λ first f newest. IsRecorderFor first.sink f newest };

    ghost HasAll = { λ first s m. HasLines W.contents first.sink s.sink m × (s.acks ≡ first.acks) };

    ghost HasFailed = { λ first s m e. FailsSome W.contents first.sink s.sink m e × (s.acks ≡ first.acks) };

    fn log_pos(newest: &JsonRecorder<'f>) -> u32 {
        newest.commit_header().log_pos()
    }

    #[inline(always)]
    fn take(
        &mut self,
        filter: Filter<'_>,
        newest: &JsonRecorder<'f>,
        is_clear: bool,
    ) -> Result<(), Failure> {
        match self.sink.take(filter, newest, is_clear) {
            Ok(()) => {
                self.reached.at(newest.commit_header().log_pos());
                Ok(())
            }
            Err(Failure::Memory) => Err(self.sink.out_of_memory()),
            Err(Failure::Unwritten) => Err(Failure::Unwritten),
            Err(Failure::Closed) => Err(Failure::Closed),
        }
    }
}

impl<'f, W: Write, A: Write, T: Timer> AnswerSink<JsonRecorder<'f>> for Printer<W, A, T> {
    ghost use Rattle.std.specs.Prelude.{◌++◌, List, ℕ, IfErr, OnOk};
    ghost use Rattle.feed_change_log.specs.declared.filter.Filter.{Filter};
    ghost use Rattle.changes_walks.specs.FollowedAnswers.{LogTransaction};
    ghost use Rattle.changes_lines.specs.declared.recorder.JsonRecorder.{JsonRecorder};
    ghost use Rattle.program_changes.specs.PrintedAnswers.{FailsInPrinting, HasPrintedLogs, HasWrittenAll};
    ghost use Rattle.program_changes.specs.declared.printer.Printer.{Printer};

    ghost log_in = { λ s. s.sink.file.items };

    ghost HasLogs = { λ first s l acks. HasPrintedLogs W.contents A.contents first s l acks };

    ghost FailsInLogs = { λ first s l acks e. FailsInPrinting W.contents A.contents first s l acks e };

    ghost IsWritten = { λ s. HasWrittenAll s };

    fn enter(&mut self, log: &[u8]) -> Result<(), AllocError>
        ensures ok { OnOk result (self.new.sink.file.items ≡ log.now) }
        ensures has { (first : Printer W A T) (l : List LogTransaction) (acks : List ℕ) → HasPrintedLogs W.contents A.contents first self.old l acks → HasPrintedLogs W.contents A.contents first self.new l acks }
        ensures wants { (f : Filter) (c : JsonRecorder) → IsRecorderFor self.old.sink f c → IsRecorderFor self.new.sink f c }
    {
        self.sink.rename(log)
    }

    fn pass(&mut self, event: &[u8])
        ensures has { (first : Printer W A T) (l : List LogTransaction) (acks : List ℕ) → HasPrintedLogs W.contents A.contents first self.old l acks → HasPrintedLogs W.contents A.contents first self.new l acks }
        ensures wants { (f : Filter) (c : JsonRecorder) → IsRecorderFor self.old.sink f c → IsRecorderFor self.new.sink f c }
    {
        if let Some(position) = self.reached.after(event) {
            self.sink.begin_at(position);
        }
    }

    /// If memory runs out, the lines that wait are written all the same.
    fn write_out(&mut self, acks: &[u8]) -> Result<(), Failure>
        ensures ok { OnOk result ((first : Printer W A T) (l : List LogTransaction) (before : List ℕ) → HasPrintedLogs W.contents A.contents first self.old l before → HasPrintedLogs W.contents A.contents first self.new l (before ++ acks.now)) }
        ensures written { OnOk result (HasWrittenAll self.new) }
        ensures wants { OnOk result ((f : Filter) (c : JsonRecorder) → IsRecorderFor self.old.sink f c → IsRecorderFor self.new.sink f c) }
        ensures err { IfErr result (λ e. (first : Printer W A T) (l : List LogTransaction) (before : List ℕ) → HasPrintedLogs W.contents A.contents first self.old l before → FailsInPrinting W.contents A.contents first self.new l before e) }
    {
        let Ok(line) = progress_line(self.alloc, self.sink.name(), &mut self.reached) else {
            return Err(self.sink.out_of_memory());
        };
        match self.sink.write_last(line.bytes()) {
            Ok(()) => write_acks(&mut self.acks, acks),
            Err(_) => Err(Failure::Unwritten),
        }
    }

    ghost none = { λ s. (lines_at_first W.contents s.sink, refl) };

    ghost adds = { λ first s new l acks m has all. (prints_more W.contents first.sink s.sink new.sink l has.0 m all.0, acks_stay A.contents first.acks s.acks new.acks acks has.1 all.1) };

    ghost fails = { λ first s new l acks m e has some. fails_more W.contents first.sink s.sink new.sink l has.0 A.contents first.acks s.acks new.acks m acks e has.1 some.0 some.1 };

    ghost wants = { λ s new m f c all wanted. wants_more W.contents s.sink new.sink m f c all.0 wanted };
}
