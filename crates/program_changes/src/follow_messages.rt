//! What is said about an answer that can't be followed.

ghost use Rattle.std.specs.Prelude.{◌≡◌, ◌⊎◌, max};
ghost use Rattle.changes_walks.specs.Findings.{status_of_verdict};

use crate::outcomes::say;
use changes_commands::Text;
use changes_walks::{Checked, DAMAGED, FAILED, SourceFault, put_checked, status_of_verdict};
use events_frames::{BinlogEventHeader, log_pos};
use feed_change_log::Stop;
use feed_checks::Verdict;
use std::str;

/// What messages about standard input name.
const INPUT: &str = "standard input";

/// Prints what is wrong with an answer, and returns the status.
pub(crate) fn say_wrong(rt: &impl Eprint, meaning: &str, status: u8) -> u8
    ensures { result ≡ status }
{
    let _ = eprintln!(rt; "binlog-changes: {INPUT}: {meaning}");
    status
}

/// The text of an ERR packet: after its first byte, the error's number in two bytes, and perhaps `#` and a state of five bytes.
fn text_of_error(payload: &[u8]) -> &[u8] {
    match payload {
        [_, _, _, b'#', _, _, _, _, _, text @ ..] => text,
        [_, _, _, text @ ..] => text,
        _ => &[],
    }
}

/// Prints the error that a server reports.
fn say_server_error(rt: &impl Eprint, payload: &[u8]) {
    match str::from_utf8(text_of_error(payload)) {
        Ok(text) => {
            let _ = eprintln!(rt; "binlog-changes: the server reports: {text}");
        }
        Err(_) => {
            let _ = eprintln!(rt; "binlog-changes: the server reports an error");
        }
    }
}

/// What a packet is that isn't one of an event.
fn meaning_of(verdict: Verdict) -> &'static str {
    match verdict {
        Verdict::NotAnEvent => {
            "a packet has no event: this is no answer to a dump request, or not the kind of answer that --semi-sync stands for"
        }
        Verdict::OutOfNumber => {
            "packets are missing, or the input doesn't begin with the first of an answer"
        }
        Verdict::TooLarge => "a packet is longer than 1 GiB",
        Verdict::Body => "a rotate event has no name, or one that is too long",
        Verdict::Memory => "out of memory",
        _ => "the stream is damaged",
    }
}

/// Prints what a packet is that isn't one of an event. Returns the status.
pub(crate) fn say_packet(rt: &impl Eprint, verdict: Verdict, payload: &[u8]) -> u8
    ensures { result ≡ status_of_verdict verdict }
{
    let status = status_of_verdict(verdict);
    if let Verdict::ServerError = verdict {
        say_server_error(rt, payload);
        return status;
    }
    say_wrong(rt, meaning_of(verdict), status)
}

/// The position in its log at which an event begins.
fn position_of(event: &[u8]) -> u64 {
    if event.len() < BinlogEventHeader::LEN {
        return 0;
    }
    u64::from(log_pos(event)).saturating_sub(event.len() as u64)
}

/// Prints at which event of a server's log following ended, and why. Returns the status: 3, if memory runs out for what is printed.
pub(crate) fn say_fault(
    rt: &HostRuntime,
    name: &[u8],
    event: &[u8],
    stop: Stop,
    fault: Option<SourceFault>,
) -> u8
    ensures { (result ≡ max (status_of_verdict stop.verdict) 1) ⊎ (result ≡ 3) }
{
    let stop = Stop {
        offset: position_of(event),
        ..stop
    };
    let path = str::from_utf8(name).unwrap_or(INPUT);
    let mut text = Text::new(rt.alloc());
    text.words("binlog-changes: ");
    put_checked(Checked::new(path, stop, fault, event), &mut text);
    if text.ended().is_err() {
        return FAILED;
    }
    say(rt, text.bytes());
    status_of_verdict(stop.verdict).max(DAMAGED)
}
