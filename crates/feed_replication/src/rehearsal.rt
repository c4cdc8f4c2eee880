//! A follower and a server of one binary log, in one process: follow the log through connections that drop.

ghost use Rattle.std.specs.Prelude.{◌≡◌, ◌<◌, ◌≤◌, ◌^◌, false, List, ℕ, [], Some, IfOk, IfErr, length, map};
ghost use Rattle.wire_buf.specs.Watched.{inner_of, has_failed};
ghost use Rattle.feed_transactions.specs.Rules.{rules};
ghost use Rattle.feed_checks.specs.Sums.{IsChecksumFunction};
ghost use Rattle.feed_checks.specs.declared.verdict.Verdict.TheVariants.{Memory};
ghost use Rattle.feed_transactions.specs.Reports.{Report};
ghost use Rattle.feed_replication.specs.Following.{checksum_of, due_of, Starts, AddsDue};
ghost use Rattle.feed_replication.specs.Requests.{dump_request};
ghost use Rattle.feed_replication.specs.declared.format.PayloadFormat.TheVariants.{Plain, SemiSync};
ghost use Rattle.feed_replication.specs.Streams.{program_limit};
ghost use Rattle.feed_replication.specs.Serving.{answer, answer_bytes};
ghost use Rattle.feed_replication.specs.Runs.{run, is_fault_verdict, next_report, step_acknowledgements, run_acknowledgements};
ghost use Rattle.feed_replication.specs.Headline.{IsFollowable};
ghost use Rattle.feed_replication.specs.RehearsalSteps.{HasRun, StepResult, ends_early, verdict_by_acks};
ghost use Rattle.feed_replication.specs.Rehearsing.{Rehearses, IsRunFailure, FollowsTheLog, step_of, whole_steps};

use crate::follower::Follower;
use crate::format::PayloadFormat;
use crate::served::Served;
use crate::serving::serve_as;
use crate::step::Step;
use events_frames::BinlogFileHeader;
use feed_checks::Verdict;
use std::alloc::{AllocError, Allocator, Global};
use std::io::Write;
use wire_buf::Watched;

/// The position of the first event, after the magic number.
const FIRST_POSITION: u32 = BinlogFileHeader::LEN as u32;

/// The server id in the follower's requests.
const SERVER: u32 = 1;

/// The name of the binary log if none is given, for the follower and the server.
const NAME: &[u8] = b"";

/// The maximum length of a payload in bytes, for both sides.
const LIMIT: usize = 1_073_741_824;

/// Whether a verdict is a fault. A follower asks again only after `End` and `Closed`.
fn is_fault(verdict: Verdict) -> bool
    ensures { result ≡ is_fault_verdict verdict }
{
    !matches!(verdict, Verdict::End | Verdict::Closed)
}

/// Whether an answer ended early: out of memory, or a failing device.
fn has_ended_early(served: Served) -> bool
    ensures { result ≡ ends_early served }
{
    matches!(
        served,
        Served::Fault(Verdict::Memory | Verdict::Read | Verdict::Write)
    )
}

/// Returns the whole answer to a request for the binary log `name`, whose bytes so far are `there`. `Memory`: the answer
/// ended early; reading a slice and writing to a vector have no other errors.
fn whole_answer_to<F: Fn(&[u8]) -> u32>(
    alloc: Global,
    format: PayloadFormat,
    name: &[u8],
    request: &[u8],
    there: &[u8],
    checksum: &F,
) -> Result<Vec<u8>, Verdict>
    requires callable { F.IsAlwaysCallable checksum.now }
    ensures ok { (sum : List ℕ → ℕ) → IsChecksumFunction F.Fn checksum.now sum
        → (position server : ℕ) → position < 2 ^ 32 → request.now ≡ dump_request position server name.now
        → IfOk result (λ bytes. bytes.items ≡ answer_bytes (answer (rules sum) format program_limit there.now position)) }
    ensures err { IfErr result (λ v. v ≡ Memory) }
{
    let mut reader = Watched::new(there);
    let mut writer = Watched::new(Vec::new(alloc));
    let served = serve_as(
        alloc,
        format,
        request,
        name,
        LIMIT,
        &mut reader,
        checksum,
        &mut writer,
    );
    if has_ended_early(served) {
        return Err(Verdict::Memory);
    }
    Ok(writer.into_inner())
}

/// Runs a step: the follower asks again, and is fed the part of the answer that arrives. Returns the verdict of that stream, or
/// `Memory`.
fn run_step<W: Write, F: Fn(&[u8]) -> u32>(
    alloc: Global,
    format: PayloadFormat,
    name: &[u8],
    binlog: &[u8],
    step: Step,
    follower: &mut Follower<&F>,
    checksum: &F,
    writer: &mut Watched<W>,
) -> Verdict
    requires callable { F.IsAlwaysCallable checksum.now }
    requires keeps { (checksum_of follower.old).now ≡ checksum.now }
    ensures takes { (sum : List ℕ → ℕ) → IsChecksumFunction F.Fn checksum.now sum
        → (before : Report) → HasRun (rules sum) format name.now follower.old before → is_fault_verdict before.verdict ≡ false
        → StepResult (rules sum) format name.now follower.new before (next_report (rules sum) format binlog.now before step)
        (W.contents (inner_of writer.old)) (W.contents (inner_of writer.new)) result
        × AddsDue [] (step_acknowledgements (rules sum) format name.now binlog.now before step) (due_of follower.old) (due_of follower.new) (Some result) }
    ensures blamed { IsRunFailure result (has_failed writer.new) }
    ensures keeps { checksum_of follower.new ≡ checksum_of follower.old }
{
    let Ok(request) = follower.again() else {
        return Verdict::Memory;
    };
    let there = &binlog[..step.size.min(binlog.len())];
    let answer = match whole_answer_to(alloc, format, name, &request, there, checksum) {
        Ok(answer) => answer,
        Err(fault) => return fault,
    };
    let _ = follower.feed(step.arrived(&answer), writer);
    follower.finish()
}

/// The verdict of a step, given whether its acknowledgements were kept: if they weren't, `Memory`; but `Write` if the writer
/// failed.
fn verdict_with_acks(verdict: Verdict, is_kept: bool) -> Verdict
    ensures { result ≡ verdict_by_acks verdict is_kept }
{
    match verdict {
        Verdict::Write => Verdict::Write,
        _ if is_kept => verdict,
        _ => Verdict::Memory,
    }
}

/// Runs a step as `run_step` does, and appends the acknowledgements that it asks for to `acks`.
fn run_step_with_acks<W: Write, F: Fn(&[u8]) -> u32, A: Allocator>(
    alloc: Global,
    format: PayloadFormat,
    name: &[u8],
    binlog: &[u8],
    step: Step,
    follower: &mut Follower<&F>,
    checksum: &F,
    writer: &mut Watched<W>,
    acks: &mut Vec<u8, A>,
) -> Verdict
    requires callable { F.IsAlwaysCallable checksum.now }
    requires keeps { (checksum_of follower.old).now ≡ checksum.now }
    ensures takes { (sum : List ℕ → ℕ) → IsChecksumFunction F.Fn checksum.now sum
        → (before : Report) → HasRun (rules sum) format name.now follower.old before → is_fault_verdict before.verdict ≡ false
        → StepResult (rules sum) format name.now follower.new before (next_report (rules sum) format binlog.now before step)
        (W.contents (inner_of writer.old)) (W.contents (inner_of writer.new)) result }
    ensures acknowledges { (sum : List ℕ → ℕ) → IsChecksumFunction F.Fn checksum.now sum
        → (before : Report) → HasRun (rules sum) format name.now follower.old before → is_fault_verdict before.verdict ≡ false → due_of follower.old ≡ []
        → AddsDue [] (step_acknowledgements (rules sum) format name.now binlog.now before step) acks.old.items acks.new.items (Some result) }
    ensures blamed { IsRunFailure result (has_failed writer.new) }
    ensures none_waits { due_of follower.new ≡ [] }
    ensures keeps { checksum_of follower.new ≡ checksum_of follower.old }
{
    let verdict = run_step(
        alloc, format, name, binlog, step, follower, checksum, writer,
    );
    let waiting = follower.acks();
    let is_kept = acks.extend_from_slice(&waiting).is_ok();
    verdict_with_acks(verdict, is_kept)
}

/// Runs the steps with a follower that was started at position 4 under this name. Appends the acknowledgements that its answers
/// ask for to `acks`.
fn run_steps<W: Write, F: Fn(&[u8]) -> u32, A: Allocator>(
    alloc: Global,
    format: PayloadFormat,
    name: &[u8],
    binlog: &[u8],
    steps: &[Step],
    mut follower: Follower<&F>,
    checksum: &F,
    writer: &mut Watched<W>,
    acks: &mut Vec<u8, A>,
) -> Verdict
    requires callable { F.IsAlwaysCallable checksum.now }
    requires keeps { (checksum_of follower).now ≡ checksum.now }
    requires starts { Starts format 4 1 name.now program_limit (checksum_of follower) follower (dump_request 4 1 name.now) }
    ensures run { (sum : List ℕ → ℕ) → IsChecksumFunction F.Fn checksum.now sum
        → Rehearses (run (rules sum) format binlog.now steps.now) (W.contents (inner_of writer.old)) (W.contents (inner_of writer.new)) result }
    ensures follows { (sum : List ℕ → ℕ) → IsChecksumFunction F.Fn checksum.now sum → IsFollowable (rules sum) format binlog.now
        → FollowsTheLog (rules sum) format binlog.now steps.now (W.contents (inner_of writer.old)) (W.contents (inner_of writer.new)) result }
    ensures acknowledges { (sum : List ℕ → ℕ) → IsChecksumFunction F.Fn checksum.now sum
        → AddsDue [] (run_acknowledgements (rules sum) format name.now binlog.now steps.now) acks.old.items acks.new.items (Some result) }
    ensures blamed { IsRunFailure result (has_failed writer.new) }
{
    let mut verdict = Verdict::Closed;
    for step in steps {
        verdict = run_step_with_acks(
            alloc,
            format,
            name,
            binlog,
            *step,
            &mut follower,
            checksum,
            writer,
            acks,
        );
        if is_fault(verdict) {
            return verdict;
        }
    }
    verdict
}

/// Follows a growing binary log through connections that drop, and writes the transactions as they are committed.
///
/// The follower begins at position 4. In each step it asks for the events after the last transaction that it wrote, and is fed
/// the first `count` bytes of the answer over the first `size` bytes of the binary log. The maximum length of a payload is
/// 1,073,741,824 bytes. Returns:
///
/// - The verdict of the last step's answer, or `Closed` without steps: the whole text of the run was written. A verdict other
///   than `End` and `Closed` ends the run.
/// - `Memory`: out of memory; the texts of the run's first few transactions were written, each complete.
/// - `Write`: the writer failed; a prefix of the run's text was written.
///
/// If the binary log begins with its magic number, each commit has the position after it in its header, and the limit holds each
/// event, then the transactions written are those of the log's report, in order, each once; and once the answer of a step was
/// complete, at least all that the log's first `size` bytes show.
pub fn rehearse_growing<W: Write, F: Fn(&[u8]) -> u32>(
    alloc: Global,
    binlog: &[u8],
    steps: &[Step],
    checksum: &F,
    writer: &mut Watched<W>,
) -> Verdict
    requires callable { F.IsAlwaysCallable checksum.now }
    ensures run { (sum : List ℕ → ℕ) → IsChecksumFunction F.Fn checksum.now sum
        → Rehearses (run (rules sum) Plain binlog.now steps.now) (W.contents (inner_of writer.old)) (W.contents (inner_of writer.new)) result }
    ensures follows { (sum : List ℕ → ℕ) → IsChecksumFunction F.Fn checksum.now sum → IsFollowable (rules sum) Plain binlog.now
        → FollowsTheLog (rules sum) Plain binlog.now steps.now (W.contents (inner_of writer.old)) (W.contents (inner_of writer.new)) result }
    ensures blamed { IsRunFailure result (has_failed writer.new) }
{
    let Ok((follower, _request)) = Follower::start(
        alloc,
        FIRST_POSITION,
        SERVER,
        NAME,
        LIMIT,
        checksum,
    ) else {
        return Verdict::Memory;
    };
    let mut acks = Vec::new(alloc);
    run_steps(
        alloc,
        PayloadFormat::Plain,
        NAME,
        binlog,
        steps,
        follower,
        checksum,
        writer,
        &mut acks,
    )
}

/// The steps in which the whole binary log, of this size, is there.
fn steps_of(alloc: Global, size: usize, counts: &[usize]) -> Result<Vec<Step>, AllocError>
    ensures { IfOk result (λ steps. steps.items ≡ map (step_of size) counts.now) }
{
    let mut steps = Vec::with_capacity(alloc, counts.len())?;
    for count in counts {
        steps.push(Step {
            size,
            count: *count,
        })?;
    }
    Ok(steps)
}

/// The same with the whole binary log in each step. `counts` are the lengths of the answers that arrive, in bytes.
pub fn rehearse<W: Write, F: Fn(&[u8]) -> u32>(
    alloc: Global,
    binlog: &[u8],
    counts: &[usize],
    checksum: &F,
    writer: &mut Watched<W>,
) -> Verdict
    requires callable { F.IsAlwaysCallable checksum.now }
    ensures run { (sum : List ℕ → ℕ) → IsChecksumFunction F.Fn checksum.now sum
        → Rehearses (run (rules sum) Plain binlog.now (whole_steps binlog.now counts.now)) (W.contents (inner_of writer.old)) (W.contents (inner_of writer.new)) result }
    ensures follows { (sum : List ℕ → ℕ) → IsChecksumFunction F.Fn checksum.now sum → IsFollowable (rules sum) Plain binlog.now
        → FollowsTheLog (rules sum) Plain binlog.now (whole_steps binlog.now counts.now) (W.contents (inner_of writer.old)) (W.contents (inner_of writer.new)) result }
    ensures blamed { IsRunFailure result (has_failed writer.new) }
{
    let Ok(steps) = steps_of(alloc, binlog.len(), counts) else {
        return Verdict::Memory;
    };
    rehearse_growing(alloc, binlog, &steps, checksum, writer)
}

/// The same as `rehearse_growing` with the answers of a semi-synchronous source, `serve_semi`, to a follower that asks for the
/// binary log `name`. The acknowledgements that the answers ask for are appended to `acks` in order, one each time that an event
/// with the flag is taken: again if the event comes again after a dropped connection. After `Memory` and `Write`, `acks` holds
/// the first few of them, each complete.
pub fn rehearse_semi<W: Write, F: Fn(&[u8]) -> u32, A: Allocator>(
    alloc: Global,
    binlog: &[u8],
    name: &[u8],
    steps: &[Step],
    checksum: &F,
    writer: &mut Watched<W>,
    acks: &mut Vec<u8, A>,
) -> Verdict
    requires callable { F.IsAlwaysCallable checksum.now }
    requires short { length name.now ≤ 511 }
    ensures run { (sum : List ℕ → ℕ) → IsChecksumFunction F.Fn checksum.now sum
        → Rehearses (run (rules sum) SemiSync binlog.now steps.now) (W.contents (inner_of writer.old)) (W.contents (inner_of writer.new)) result }
    ensures follows { (sum : List ℕ → ℕ) → IsChecksumFunction F.Fn checksum.now sum → IsFollowable (rules sum) SemiSync binlog.now
        → FollowsTheLog (rules sum) SemiSync binlog.now steps.now (W.contents (inner_of writer.old)) (W.contents (inner_of writer.new)) result }
    ensures acknowledges { (sum : List ℕ → ℕ) → IsChecksumFunction F.Fn checksum.now sum
        → AddsDue [] (run_acknowledgements (rules sum) SemiSync name.now binlog.now steps.now) acks.old.items acks.new.items (Some result) }
    ensures blamed { IsRunFailure result (has_failed writer.new) }
{
    let Ok((follower, _request)) = Follower::start_semi(
        alloc,
        FIRST_POSITION,
        SERVER,
        name,
        LIMIT,
        checksum,
    ) else {
        return Verdict::Memory;
    };
    run_steps(
        alloc,
        PayloadFormat::SemiSync,
        name,
        binlog,
        steps,
        follower,
        checksum,
        writer,
        acks,
    )
}
