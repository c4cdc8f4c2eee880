//! The numbers that calls return.

ghost use Rattle.std.specs.Prelude.{◌≡◌};
ghost use Rattle.cuvragyen.specs.VerdictNumbers.{done_number, fault_number, next_number, verdict_number};

use feed_checks::Verdict;
use library_log::{Next, OptionsFault};

/// Done; more bytes are wanted; or there is no transaction.
pub(crate) const OK: u32 = 0;

/// There is a transaction.
pub(crate) const TRANSACTION: u32 = 1;

/// The handle has no log.
pub(crate) const CLOSED: u32 = 2;

/// There is no option of this name.
pub(crate) const BAD_OPTION: u32 = 3;

/// A value isn't one of its option's.
pub(crate) const BAD_VALUE: u32 = 4;

/// The schema can't be read.
pub(crate) const BAD_SCHEMA: u32 = 6;

/// Out of memory.
pub(crate) const MEMORY: u32 = 118;

/// The number of a verdict, as the constants `CUVRAGYEN_...` of the header have it.
pub(crate) fn number_of(verdict: Verdict) -> u32
    ensures { result ≡ verdict_number verdict }
{
    match verdict {
        Verdict::End => 100,
        Verdict::Closed => 101,
        Verdict::Mark => 102,
        Verdict::TooLarge => 103,
        Verdict::OutOfNumber => 104,
        Verdict::ServerError => 105,
        Verdict::NotAnEvent => 106,
        Verdict::Frame => 107,
        Verdict::Algorithm => 108,
        Verdict::Checksum => 109,
        Verdict::Size => 110,
        Verdict::Body => 111,
        Verdict::NoTableMap => 112,
        Verdict::Row => 113,
        Verdict::Outside => 114,
        Verdict::Inside => 115,
        Verdict::Unshown => 116,
        Verdict::UnknownKind => 117,
        Verdict::Memory => 118,
        Verdict::Read => 119,
        Verdict::Write => 120,
    }
}

/// The number of what a call returned that does something.
pub(crate) fn number_of_done(done: Result<(), Verdict>) -> u32
    ensures { result ≡ done_number done }
{
    match done {
        Ok(()) => OK,
        Err(verdict) => number_of(verdict),
    }
}

/// The number of what the search for the next transaction returned.
pub(crate) fn number_of_next(next: Result<Next, Verdict>) -> u32
    ensures { result ≡ next_number next }
{
    match next {
        Ok(Next::WantsMore) => OK,
        Ok(Next::Transaction) => TRANSACTION,
        Err(verdict) => number_of(verdict),
    }
}

/// The number of why options can't be taken.
pub(crate) fn number_of_fault(fault: OptionsFault) -> u32
    ensures { result ≡ fault_number fault }
{
    match fault {
        OptionsFault::Name => BAD_OPTION,
        OptionsFault::Value => BAD_VALUE,
        OptionsFault::Memory => MEMORY,
    }
}
