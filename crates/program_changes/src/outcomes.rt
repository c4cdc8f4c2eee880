//! What is said of a log that was read, and the status that it has.

use crate::sql::RefusedChange;
use changes_commands::{
    Explanation, Failure, Log, LogReader, Options, Text, UnpackFault, are_of_one_server, explain,
    leads_to, put_led_astray, put_no_start, put_no_transaction,
};
use changes_walks::{
    Checked, DAMAGED, FAILED, Finding, LogEnd, SourceFault, USAGE, WHOLE, finding_of, last_before,
    misses, put_checked, put_unclosed, status_of, status_of_verdict,
};
use feed_change_log::Stop;
use feed_checks::Verdict;
use std::io::ErrorKind;
use std::str;

/// What messages about writing name.
pub(crate) const OUTPUT: &str = "standard output";

/// Prints a message on standard error.
pub(crate) fn say(rt: &impl Eprint, text: &[u8]) {
    if let Ok(text) = str::from_utf8(text) {
        let _ = eprint!(rt; "{text}");
    }
}

/// Prints why a log can't be read that begins with these bytes.
pub(crate) fn unread(rt: &impl Eprint, path: &str, verdict: Verdict, first: &[u8]) -> u8 {
    let Explanation { meaning, advice } = explain(verdict, None, first);
    let _ = eprintln!(rt; "binlog-changes: {path}: {meaning}; {advice}");
    status_of_verdict(verdict)
}

/// Prints that writing failed.
pub(crate) fn unwritten(rt: &impl Eprint) -> u8 {
    unread(rt, OUTPUT, Verdict::Write, &[])
}

/// Appends what is wrong with a log that ended so.
fn put_finding(finding: Finding, log: Log<'_>, checked: Checked<'_>, name: &Text, text: &mut Text) {
    match (finding, log.next) {
        (Finding::Broken, _) => {
            text.words("binlog-changes: ");
            put_checked(checked, text);
        }
        (Finding::Unclosed, _) => put_unclosed(log.path, checked.stop, text),
        (Finding::Astray, Some(next)) => put_led_astray(log.path, name, next, text),
        _ => {}
    }
}

/// Prints how a log ended, unless it is whole, and closed and followed by the next if there is one.
fn ended<R>(
    rt: &HostRuntime,
    log: Log<'_>,
    stop: Stop,
    fault: Option<SourceFault>,
    reader: &LogReader<R>,
) -> u8 {
    let mut name = Text::new(rt.alloc());
    let names_other = match log.next {
        Some(next) => !leads_to(rt.alloc(), reader.last(), next, &mut name),
        None => false,
    };
    let finding = finding_of(stop, log.next.is_some(), names_other);
    let mut text = Text::new(rt.alloc());
    let checked = Checked::new(log.path, stop, fault, reader.first());
    put_finding(finding, log, checked, &name, &mut text);
    if text.ended().is_err() {
        return FAILED;
    }
    say(rt, text.bytes());
    status_of(finding, stop.verdict)
}

/// Prints that no transaction ends at the start position.
fn no_start(rt: &HostRuntime, path: &str, before: Option<u32>, after: Option<u32>) -> u8 {
    let mut text = Text::new(rt.alloc());
    put_no_start(path, before, after, &mut text);
    say(rt, text.bytes());
    USAGE
}

/// Prints why a change isn't printed: what it lacks, and what may be done.
pub(crate) fn say_refused(
    rt: &impl Eprint,
    path: &str,
    refused: &RefusedChange,
    lacks: &str,
    advice: &str,
) {
    let name = match str::from_utf8(&refused.name) {
        Ok(name) => name,
        Err(_) => "a table",
    };
    let (why, position) = (refused.why, refused.position);
    let _ = eprintln!(rt;
        "binlog-changes: {path}: the change of {name} that ends at position {position} {lacks}: {why}{advice}"
    );
}

/// Prints that no transaction ends where the options say.
fn no_transaction(rt: &HostRuntime, path: &str, before: Option<u32>) -> u8 {
    let mut text = Text::new(rt.alloc());
    put_no_transaction(path, before, &mut text);
    say(rt, text.bytes());
    USAGE
}

/// Whether the next logs follow: the status of the log, or None if the run is over.
#[derive(Clone, Copy)]
pub(crate) struct Outcome {
    pub(crate) status: u8,
    pub(crate) goes_on: bool,
}

/// Says how reading a log ended, unless all is well.
pub(crate) fn outcome_of<R>(
    rt: &HostRuntime,
    options: &Options<'_>,
    log: Log<'_>,
    how: LogEnd,
    fault: Option<SourceFault>,
    reader: &LogReader<R>,
) -> Outcome {
    let path = log.path;
    let status = match how {
        _ if misses(options, log, how) => no_transaction(rt, path, last_before(how)),
        LogEnd::Failed(Failure::Closed) => return Outcome {
            status: WHOLE,
            goes_on: false,
        },
        LogEnd::Failed(Failure::Unwritten) => unwritten(rt),
        LogEnd::Failed(Failure::Memory) => unread(rt, path, Verdict::Memory, &[]),
        LogEnd::Unread(verdict) => unread(rt, path, verdict, reader.first()),
        LogEnd::NoStart(before, after) => no_start(rt, path, before, after),
        LogEnd::Stopped(_) => WHOLE,
        LogEnd::Read(stop) => ended(rt, log, stop, fault, reader),
    };
    Outcome {
        status,
        goes_on: status == WHOLE,
    }
}

/// What is found of a log, whose last bytes these are. Prints that it leads to another than the next log of its server.
pub(crate) fn followed_by_its_own(
    rt: &HostRuntime,
    log: Log<'_>,
    stop: Stop,
    last: &[u8],
) -> Finding {
    let mut name = Text::new(rt.alloc());
    let (next, names_other) = match log.next {
        Some(next) if are_of_one_server(log.path, next) => {
            (next, !leads_to(rt.alloc(), last, next, &mut name))
        }
        _ => ("", false),
    };
    let finding = finding_of(stop, false, names_other);
    if let Finding::Astray = finding {
        let mut text = Text::new(rt.alloc());
        put_led_astray(log.path, &name, next, &mut text);
        say(rt, text.bytes());
    }
    finding
}

/// Says why a log can't be decompressed. Returns its status.
pub(crate) fn packed(rt: &impl Eprint, path: &str, fault: UnpackFault) -> u8 {
    let _ = eprintln!(rt; "binlog-changes: {path}: {fault}");
    match fault {
        UnpackFault::Gzip(_) | UnpackFault::Zstandard(_) => DAMAGED,
        UnpackFault::Read | UnpackFault::Memory => FAILED,
    }
}

/// Says why a log can't be opened.
pub(crate) fn unopened(rt: &impl Eprint, path: &str, kind: ErrorKind) {
    let why = match kind {
        ErrorKind::NotFound => "there is no such file",
        ErrorKind::PermissionDenied => "it may not be read",
        ErrorKind::OutOfMemory => "out of memory",
        ErrorKind::IsADirectory => "it is a folder; name the logs in it",
        _ => "it can't be opened",
    };
    let _ = eprintln!(rt; "binlog-changes: {path}: {why}");
}
