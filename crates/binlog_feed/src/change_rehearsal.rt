//! A follower of changes and a server of one binary log, in one process: apply the log through connections that drop.

ghost use Rattle.std.specs.Prelude.{◌≡◌, ◌<◌, ◌^◌, List, ℕ, [], false, None, Result, IfOk, IfErr};
ghost use Rattle.wire_buf.specs.Watched.{inner_of};
ghost use Rattle.feed_checks.specs.Sums.{IsChecksumFunction};
ghost use Rattle.feed_checks.specs.declared.verdict.Verdict.TheVariants.{Memory};
ghost use Rattle.feed_transactions.specs.Reports.{Report};
ghost use Rattle.feed_transactions.specs.Rules.{rules};
ghost use Rattle.feed_replication.specs.declared.served.Refusal.{Refusal};
ghost use Rattle.feed_replication.specs.Headline.{IsFollowable};
ghost use Rattle.feed_replication.specs.RehearsalSteps.{ends_early};
ghost use Rattle.feed_replication.specs.RequestFields.{IsRequested};
ghost use Rattle.feed_replication.specs.Requests.{dump_request};
ghost use Rattle.feed_replication.specs.Runs.{is_fault_verdict};
ghost use Rattle.feed_replication.specs.Sending.{Serves};
ghost use Rattle.feed_replication.specs.Serving.{answer, answer_bytes};
ghost use Rattle.feed_replication.specs.Streams.{program_limit};
ghost use Rattle.binlog_feed.specs.ChangeFollowing.{asked_position_of, checksum_of, reading_of, IsAt, KeepsSettings};
ghost use Rattle.binlog_feed.specs.ChangeRuns.{AppliesRun, AppliesTheLog};
ghost use Rattle.binlog_feed.specs.ChangeRunSteps.{AppliesPiece, HasRun, AppliesStep};

use crate::applier::Applier;
use crate::change_follower::ChangeFollower;
use events_frames::BinlogFileHeader;
use feed_checks::Verdict;
use feed_replication::{PayloadFormat, Served, Step, serve, serve_semi};
use std::alloc::Global;
use std::io::{Read, Write};
use wire_buf::Watched;

/// The position of the first event, after the magic number.
const FIRST_POSITION: u32 = BinlogFileHeader::LEN as u32;

/// The server id in the follower's requests.
const SERVER: u32 = 1;

/// The name of the binary log, for the follower and the server.
const NAME: &[u8] = b"";

/// The maximum length of a payload in bytes, for both sides.
const LIMIT: usize = 1_073_741_824;

/// Whether a verdict is a fault. A follower asks again only after `End` and `Closed`.
fn is_fault(verdict: Verdict) -> bool
    ensures { result ≡ is_fault_verdict verdict }
{
    !matches!(verdict, Verdict::End | Verdict::Closed)
}

/// Whether an answer ended early: out of memory, or a failing device.
fn has_ended_early(served: Served) -> bool
    ensures { result ≡ ends_early served }
{
    matches!(
        served,
        Served::Fault(Verdict::Memory | Verdict::Read | Verdict::Write)
    )
}

/// Answers a request with payloads of this format.
fn serve_in<R: Read, W: Write, F: Fn(&[u8]) -> u32>(
    alloc: Global,
    format: PayloadFormat,
    request: &[u8],
    reader: &mut Watched<R>,
    checksum: &F,
    writer: &mut Watched<W>,
) -> Served
    requires callable { F.IsAlwaysCallable checksum.now }
    ensures serves { (sum : List ℕ → ℕ) (asked : Result ℕ Refusal) → IsChecksumFunction F.Fn checksum.now sum → IsRequested request.now [] asked
        → Serves (rules sum) format program_limit asked (record {
          input = R.remaining (inner_of reader.old);
          unread = R.remaining (inner_of reader.new);
          before = W.contents (inner_of writer.old);
          written = W.contents (inner_of writer.new);
        }) result }
{
    match format {
        PayloadFormat::Plain => serve(alloc, request, NAME, LIMIT, reader, checksum, writer),
        PayloadFormat::SemiSync => {
            serve_semi(alloc, request, NAME, LIMIT, reader, checksum, writer)
        }
    }
}

/// Returns the whole answer to a request for the binary log, whose bytes so far are `there`. `Memory`: the answer ended early;
/// reading a slice and writing to a vector have no other errors.
fn whole_answer<F: Fn(&[u8]) -> u32>(
    alloc: Global,
    format: PayloadFormat,
    request: &[u8],
    there: &[u8],
    checksum: &F,
) -> Result<Vec<u8>, Verdict>
    requires callable { F.IsAlwaysCallable checksum.now }
    ensures ok { (sum : List ℕ → ℕ) → IsChecksumFunction F.Fn checksum.now sum
        → (position server : ℕ) → position < 2 ^ 32 → request.now ≡ dump_request position server []
        → IfOk result (λ bytes. bytes.items ≡ answer_bytes (answer (rules sum) format program_limit there.now position)) }
    ensures err { IfErr result (λ v. v ≡ Memory) }
{
    let mut reader = Watched::new(there);
    let mut writer = Watched::new(Vec::new(alloc));
    let served = serve_in(alloc, format, request, &mut reader, checksum, &mut writer);
    if has_ended_early(served) {
        return Err(Verdict::Memory);
    }
    Ok(writer.into_inner())
}

/// Applies the transactions that a piece of an answer commits, the first one. An error is the verdict of the stream.
fn apply_piece<F: Fn(&[u8]) -> u32, A: Applier>(
    follower: &mut ChangeFollower<F>,
    piece: &[u8],
    applier: &mut A,
) -> Result<(), Verdict>
    requires callable { F.IsAlwaysCallable (checksum_of follower.old) }
    ensures applies { (sum : List ℕ → ℕ) → IsChecksumFunction F.Fn (checksum_of follower.old) sum → IsAt (reading_of sum follower.old) follower.old [] [] None []
        → AppliesPiece A.has_applied (reading_of sum follower.old) follower.new piece.now applier.old applier.new result }
    ensures asked_position { asked_position_of follower.new ≡ asked_position_of follower.old }
    ensures settings { KeepsSettings follower.old follower.new }
{
    follower.receive(piece)?;
    loop {
        let found = follower.advance()?;
        if !found {
            return Ok(());
        }
        applier.apply(follower.transaction());
    }
}

/// Runs a step: the follower asks again, and the part of the answer that arrives is applied. Returns the verdict of that stream,
/// or `Memory`.
fn run_step<F: Fn(&[u8]) -> u32, A: Applier>(
    alloc: Global,
    format: PayloadFormat,
    binlog: &[u8],
    step: Step,
    follower: &mut ChangeFollower<&F>,
    checksum: &F,
    applier: &mut A,
) -> Verdict
    requires callable { F.IsAlwaysCallable checksum.now }
    requires keeps { (checksum_of follower.old).now ≡ checksum.now }
    ensures applies { (sum : List ℕ → ℕ) → IsChecksumFunction F.Fn checksum.now sum
        → (before : Report) → HasRun format follower.old before → is_fault_verdict before.verdict ≡ false
        → AppliesStep A.has_applied sum format binlog.now before step follower.new applier.old applier.new result }
    ensures keeps { checksum_of follower.new ≡ checksum_of follower.old }
{
    let Ok(request) = follower.again() else {
        return Verdict::Memory;
    };
    let there = &binlog[..step.size.min(binlog.len())];
    let answer = match whole_answer(alloc, format, &request, there, checksum) {
        Ok(answer) => answer,
        Err(fault) => return fault,
    };
    match apply_piece(follower, step.arrived(&answer), applier) {
        Ok(()) => Verdict::Closed,
        Err(verdict) => verdict,
    }
}

/// Follows a growing binary log through connections that drop, and applies its transactions as they are committed.
///
/// The follower begins at position 4. In each step it asks for the events after the last transaction that was applied, and receives
/// the first `count` bytes of the answer over the first `size` bytes of the binary log. The maximum length of a payload is
/// 1,073,741,824 bytes. Returns:
///
/// - The verdict of the last step's answer, or `Closed` without steps: each transaction of the run was applied. A verdict other
///   than `End` and `Closed` ends the run.
/// - `Memory`: out of memory; the run's first few transactions were applied.
///
/// Under the conditions of `rehearse_growing` the applied transactions are those of the log, in order, each once; and once the
/// answer of a step was complete, at least all that the log's first `size` bytes commit.
pub fn rehearse_changes<F: Fn(&[u8]) -> u32, A: Applier>(
    alloc: Global,
    format: PayloadFormat,
    binlog: &[u8],
    steps: &[Step],
    checksum: &F,
    applier: &mut A,
) -> Verdict
    requires callable { F.IsAlwaysCallable checksum.now }
    ensures run { (sum : List ℕ → ℕ) → IsChecksumFunction F.Fn checksum.now sum
        → AppliesRun A.has_applied sum format binlog.now steps.now applier.old applier.new result }
    ensures follows { (sum : List ℕ → ℕ) → IsChecksumFunction F.Fn checksum.now sum → IsFollowable (rules sum) format binlog.now
        → AppliesTheLog A.has_applied sum format binlog.now steps.now applier.old applier.new result }
{
    let Ok((mut follower, _request)) = ChangeFollower::begin(
        alloc,
        format,
        FIRST_POSITION,
        SERVER,
        NAME,
        LIMIT,
        checksum,
    ) else {
        return Verdict::Memory;
    };
    let mut verdict = Verdict::Closed;
    for step in steps {
        verdict = run_step(
            alloc,
            format,
            binlog,
            *step,
            &mut follower,
            checksum,
            applier,
        );
        if is_fault(verdict) {
            return verdict;
        }
    }
    verdict
}
