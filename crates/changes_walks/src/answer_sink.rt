//! What gets the transactions of a server's answer.

ghost use Rattle.std.specs.Prelude.{◌≡◌, ◌++◌, List, ℕ, [], IfErr, OnOk};
ghost use Rattle.changes_walks.specs.Selections.{Selected};
ghost use Rattle.changes_walks.specs.FollowedAnswers.{LogTransaction, in_log};

use crate::sink::TransactionSink;
use changes_commands::Failure;
use feed_transactions::Recorder;
use std::alloc::AllocError;

/// Gets the transactions of a server's answer one by one, those of one log after those of another. After an error nothing more is passed
/// to it, but for one of [`AnswerSink::enter`].
pub trait AnswerSink<C: Recorder>: TransactionSink<C> {
    ghost use Rattle.changes_commands.specs.declared.output.Failure.{Failure};
    ghost use Rattle.feed_change_log.specs.declared.filter.Filter.{Filter};

    /// The name of the log that the next transactions are in.
    ghost log_in: { Self → List ℕ };

    /// Since it was in the first state it got these transactions, and these acknowledgements.
    ghost HasLogs: { Self → Self → List LogTransaction → List ℕ → Type 0 };

    /// Since then it got these, and failed at the last of them or after them.
    ghost FailsInLogs: { Self → Self → List LogTransaction → List ℕ → Failure → Type 0 };

    /// All that it got is written.
    ghost IsWritten: { Self → Type 0 };

    /// The next transactions are in the log with this name. `AllocError`: out of memory; what it got stays.
    fn enter(&mut self, log: &[u8]) -> Result<(), AllocError>
        ensures ok { OnOk result (log_in self.new ≡ log.now) }
        ensures has { (first : Self) (l : List LogTransaction) (acks : List ℕ) → HasLogs first self.old l acks → HasLogs first self.new l acks }
        ensures wants { (f : Filter) (c : C) → Self.Expects self.old f c → Self.Expects self.new f c };

    /// An event of the answer was taken.
    fn pass(&mut self, event: &[u8])
        ensures has { (first : Self) (l : List LogTransaction) (acks : List ℕ) → HasLogs first self.old l acks → HasLogs first self.new l acks }
        ensures wants { (f : Filter) (c : C) → Self.Expects self.old f c → Self.Expects self.new f c };

    /// Writes all that it got, and then these acknowledgements.
    fn write_out(&mut self, acks: &[u8]) -> Result<(), Failure>
        ensures ok { OnOk result ((first : Self) (l : List LogTransaction) (before : List ℕ) → HasLogs first self.old l before → HasLogs first self.new l (before ++ acks.now)) }
        ensures written { OnOk result (IsWritten self.new) }
        ensures wants { OnOk result ((f : Filter) (c : C) → Self.Expects self.old f c → Self.Expects self.new f c) }
        ensures err { IfErr result (λ e. (first : Self) (l : List LogTransaction) (before : List ℕ) → HasLogs first self.old l before → FailsInLogs first self.new l before e) };

    /// A sink has no transactions since its own state.
    ghost none: { (s : Self) → Self.HasAll s s [] };

    /// Those that it got since it entered a log are in that log.
    ghost adds: { (first s new : Self) (l : List LogTransaction) (acks : List ℕ) (m : List Selected) → HasLogs first s l acks → Self.HasAll s new m → HasLogs first new (l ++ in_log (log_in s) m) acks };

    ghost fails: { (first s new : Self) (l : List LogTransaction) (acks : List ℕ) (m : List Selected) (e : Failure) → HasLogs first s l acks → Self.HasFailed s new m e → FailsInLogs first new (l ++ in_log (log_in s) m) acks e };

    /// It still wants what it wanted.
    ghost wants: { (s new : Self) (m : List Selected) (f : Filter) (c : C) → Self.HasAll s new m → Self.Expects s f c → Self.Expects new f c };
}
