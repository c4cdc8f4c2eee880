//! How a run ends: its exit status, and the word for standard error.

ghost use Rattle.program_feed.specs.Endings.{IsVerdictEnding, IsServedEnding, IsRequestErrorEnding};

use feed_checks::{Verdict, name_of, status};
use feed_replication::{RequestError, Served};

/// How a run ends.
#[derive(Clone, Copy, Debug, PartialEq, Eq)]
pub enum Ending {
    /// Status 0, and no word.
    Success,
    /// Status 1, and this word for standard error.
    Failure(&'static str),
}

impl Ending {
    /// The ending for a verdict: a success for `End`, else its name.
    pub fn of_verdict(verdict: Verdict) -> Ending
        ensures { IsVerdictEnding verdict result }
    {
        if status(&verdict) == 0 {
            return Ending::Success;
        }
        Ending::Failure(name_of(&verdict))
    }

    /// The ending for the result of a request: a success for `Whole`, else its name.
    pub fn of_served(served: Served) -> Ending
        ensures { IsServedEnding served result }
    {
        if served == Served::Whole {
            return Ending::Success;
        }
        Ending::Failure(served.name())
    }

    /// The ending for an error of making a request: its name.
    pub fn of_request_error(error: RequestError) -> Ending
        ensures { IsRequestErrorEnding error result }
    {
        Ending::Failure(error.name())
    }
}
