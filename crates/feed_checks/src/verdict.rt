//! The result of a report or a stream.

ghost use Rattle.std.specs.Prelude.{◌≡◌, Some};
ghost use Rattle.feed_checks.specs.declared.verdict.Verdict.TheVariants.{Memory};
ghost use Rattle.feed_checks.specs.ReadVerdicts.{frame_verdict, rows_verdict};
ghost use Rattle.feed_checks.specs.Verdicts.{verdict_name, verdict_status};

use events_frames::EventError;
use rows_errors::RowsError;
use std::alloc::{AllocError, AllocFailed};
use std::fmt;

/// The result of a report or a stream: its end, an unfinished stream, or the first fault.
#[derive(Clone, Copy, Debug, PartialEq, Eq)]
pub enum Verdict {
    /// The binary log ended after or within an event, or the stream with its closing packet.
    End,
    /// The stream ended without its closing packet.
    Closed,
    /// The file doesn't begin with the magic number `fe 62 69 6e`.
    Mark,
    /// A packet is longer than the limit.
    TooLarge,
    /// A packet's sequence number isn't the next one.
    OutOfNumber,
    /// The server sent an error packet.
    ServerError,
    /// A payload is neither an event nor a closing packet nor an error packet.
    NotAnEvent,
    /// An event is shorter than its header and checksum, or than a format description's fields.
    Frame,
    /// The checksum algorithm of a format description is unknown.
    Algorithm,
    /// An event's stored checksum isn't that of its bytes.
    Checksum,
    /// An event is longer than 4,294,967,276 bytes.
    Size,
    /// An event's body isn't in its type's format.
    Body,
    /// The transaction has no table map for the table of a rows event.
    NoTableMap,
    /// A row can't be read, or takes no bytes.
    Row,
    /// A commit, a rollback or rows outside a transaction.
    Outside,
    /// A begin, a GTID or a rotate within an open transaction, or a GTID or a rotate while a GTID waits.
    Inside,
    /// An event that the feed knows but doesn't show.
    Unshown,
    /// An event of an unknown type without LOG_EVENT_IGNORABLE_F.
    UnknownKind,
    /// Out of memory.
    Memory,
    /// The reader failed.
    Read,
    /// The writer failed.
    Write,
}

/// The name of a verdict, as the program prints it.
pub fn name_of(verdict: &Verdict) -> &'static str
    ensures { result.now ≡ verdict_name verdict.now }
{
    match verdict {
        Verdict::End => "End",
        Verdict::Closed => "Closed",
        Verdict::Mark => "Mark",
        Verdict::TooLarge => "TooLarge",
        Verdict::OutOfNumber => "OutOfNumber",
        Verdict::ServerError => "ServerError",
        Verdict::NotAnEvent => "NotAnEvent",
        Verdict::Frame => "Frame",
        Verdict::Algorithm => "Algorithm",
        Verdict::Checksum => "Checksum",
        Verdict::Size => "Size",
        Verdict::Body => "Body",
        Verdict::NoTableMap => "NoTableMap",
        Verdict::Row => "Row",
        Verdict::Outside => "Outside",
        Verdict::Inside => "Inside",
        Verdict::Unshown => "Unshown",
        Verdict::UnknownKind => "UnknownKind",
        Verdict::Memory => "Memory",
        Verdict::Read => "Read",
        Verdict::Write => "Write",
    }
}

/// The exit status of a program for a verdict: 0 for `End`, else 1.
pub fn status(verdict: &Verdict) -> u8
    ensures { result ≡ verdict_status verdict.now }
{
    match verdict {
        Verdict::End => 0,
        _ => 1,
    }
}

impl From<AllocError> for Verdict {
    ghost from_gives = { λ _ v. v ≡ Memory };

    fn from(_error: AllocError) -> Verdict {
        Verdict::Memory
    }
}

impl<T: Drop> From<AllocFailed<T>> for Verdict {
    ghost from_gives = { λ _ v. v ≡ Memory };

    fn from(_error: AllocFailed<T>) -> Verdict {
        Verdict::Memory
    }
}

impl From<EventError> for Verdict {
    ghost from_gives = { λ error v. v ≡ frame_verdict error };

    /// The verdict of a log whose event has this error: `End` where the bytes end within it.
    fn from(error: EventError) -> Verdict {
        match error {
            EventError::Eof => Verdict::End,
            EventError::Frame => Verdict::Frame,
            EventError::Algorithm => Verdict::Algorithm,
            EventError::TooLong => Verdict::Size,
            EventError::Memory => Verdict::Memory,
            EventError::Read => Verdict::Read,
            EventError::Write => Verdict::Write,
            EventError::EndOfBody | EventError::RemainingBytes | EventError::Invalid => {
                Verdict::Body
            }
        }
    }
}

impl From<RowsError> for Verdict {
    ghost from_gives = { λ error v. v ≡ rows_verdict error };

    /// The verdict of a log in which a row has this error: `Memory` and `Read` stay, any other is `Row`.
    fn from(error: RowsError) -> Verdict {
        match error {
            RowsError::Memory => Verdict::Memory,
            RowsError::Read => Verdict::Read,
            _ => Verdict::Row,
        }
    }
}

impl fmt::Display for Verdict {
    ghost output = { λ verdict. Some (verdict_name verdict) };

    ghost styled_output = { λ verdict _. Some (verdict_name verdict) };

    /// Writes the name, whatever flags and width are asked for.
    fn fmt<W: fmt::Write>(&self, f: &mut fmt::Formatter<W>) -> fmt::Result {
        f.write_str(name_of(self))
    }
}
