//! The result of a request for a binary log.

ghost use Rattle.std.specs.Prelude.{◌≡◌, Some};
ghost use Rattle.feed_replication.specs.ServedNames.{error_name, served_name};

use feed_checks::{Verdict, name_of};
use std::fmt;

/// The reason why a request is rejected.
#[derive(Clone, Copy, Debug, PartialEq, Eq)]
pub enum Refusal {
    /// It isn't exactly one packet with sequence numbers from 0 on whose payload is COM_BINLOG_DUMP.
    NotADump,
    /// Its flags aren't exactly BINLOG_DUMP_NON_BLOCK.
    Flags,
    /// It names another binary log.
    Name,
    /// No event begins at its position, and the last whole one doesn't end there.
    Place,
}

/// The result of a request.
#[derive(Clone, Copy, Debug, PartialEq, Eq)]
pub enum Served {
    /// Everything was sent, with the closing packet at the end.
    Whole,
    /// The request was rejected, and nothing was sent.
    Refused(Refusal),
    /// The binary log or a device has a fault; the closing packet wasn't sent.
    Fault(Verdict),
}

impl Refusal {
    /// The name of the reason, as the program prints it.
    pub fn name(&self) -> &'static str
        ensures { result.now ≡ error_name self.now }
    {
        match self {
            Refusal::NotADump => "NotADump",
            Refusal::Flags => "Flags",
            Refusal::Name => "Name",
            Refusal::Place => "Place",
        }
    }
}

impl Served {
    /// The name of the result, as the program prints it: `Whole`, or the name of the rejection or of the fault.
    pub fn name(&self) -> &'static str
        ensures { result.now ≡ served_name self.now }
    {
        match self {
            Served::Whole => "Whole",
            Served::Refused(error) => error.name(),
            Served::Fault(verdict) => name_of(verdict),
        }
    }
}

impl fmt::Display for Refusal {
    ghost output = { λ error. Some (error_name error) };

    ghost styled_output = { λ error _. Some (error_name error) };

    /// Writes the name, whatever flags and width are asked for.
    fn fmt<W: fmt::Write>(&self, f: &mut fmt::Formatter<W>) -> fmt::Result {
        f.write_str(self.name())
    }
}

impl fmt::Display for Served {
    ghost output = { λ served. Some (served_name served) };

    ghost styled_output = { λ served _. Some (served_name served) };

    /// Writes the name, whatever flags and width are asked for.
    fn fmt<W: fmt::Write>(&self, f: &mut fmt::Formatter<W>) -> fmt::Result {
        f.write_str(self.name())
    }
}
