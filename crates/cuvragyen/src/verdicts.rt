//! The names of verdicts.

ghost use Rattle.std.specs.Prelude.{◌≡◌, length, IfSome, IfNone};
ghost use Rattle.feed_checks.specs.Verdicts.{verdict_name};
ghost use Rattle.feed_checks.specs.declared.verdict.Verdict.{Verdict as TheVerdict};
ghost use Rattle.cuvragyen.specs.VerdictNumbers.{verdict_number};

use c_handles::{View, view_of};
use feed_checks::{Verdict, name_of};

/// The verdict of a number; None for another number.
fn verdict_of(number: u32) -> Option<Verdict>
    ensures some { IfSome result (λ v. number ≡ verdict_number v) }
    ensures none { IfNone result ((v : TheVerdict) → number ≡ verdict_number v → ⊥) }
{
    let verdict = match number {
        100 => Verdict::End,
        101 => Verdict::Closed,
        102 => Verdict::Mark,
        103 => Verdict::TooLarge,
        104 => Verdict::OutOfNumber,
        105 => Verdict::ServerError,
        106 => Verdict::NotAnEvent,
        107 => Verdict::Frame,
        108 => Verdict::Algorithm,
        109 => Verdict::Checksum,
        110 => Verdict::Size,
        111 => Verdict::Body,
        112 => Verdict::NoTableMap,
        113 => Verdict::Row,
        114 => Verdict::Outside,
        115 => Verdict::Inside,
        116 => Verdict::Unshown,
        117 => Verdict::UnknownKind,
        118 => Verdict::Memory,
        119 => Verdict::Read,
        120 => Verdict::Write,
        _ => return None,
    };
    Some(verdict)
}

/// Says where the name of a verdict is; of another number, where no bytes are.
#[unsafe(no_mangle)]
pub extern "C" fn cuvragyen_verdict_name(number: u32, name: &mut View)
    ensures some { (v : TheVerdict) → number ≡ verdict_number v → name.new.len ≡ length (verdict_name v) }
    ensures none { ((v : TheVerdict) → number ≡ verdict_number v → ⊥) → name.new.len ≡ 0 }
{
    *name = match verdict_of(number) {
        Some(verdict) => view_of(name_of(&verdict).as_bytes()),
        None => view_of(&[]),
    };
}
