//! What is said to people about verdicts, and about logs and positions that don't fit.

use crate::text::Text;
use feed_checks::Verdict;
use rows_constants::EventType;

/// What a verdict means.
fn meaning(verdict: Verdict) -> &'static str {
    match verdict {
        Verdict::End => "the log is whole",
        Verdict::Mark => "this is no binary log: it doesn't begin with fe 62 69 6e",
        Verdict::Frame => "an event is shorter than its header and checksum: the log is damaged",
        Verdict::Algorithm => "the checksum algorithm is unknown",
        Verdict::Checksum => "an event's checksum is wrong: the log is damaged",
        Verdict::Size => "an event is too long",
        Verdict::Body => "an event's body isn't in its format: the log is damaged",
        Verdict::NoTableMap => "rows without the table map of their table",
        Verdict::Row => "a row can't be read",
        Verdict::Outside => "a commit, a rollback or rows outside a transaction",
        Verdict::Inside => "a begin, a GTID or a rotate within a transaction",
        Verdict::Unshown =>
            "an event that isn't shown: a compressed or XA transaction, or an incident",
        Verdict::UnknownKind => "an event of an unknown type, perhaps of another server than MySQL",
        Verdict::Memory => "out of memory",
        Verdict::Read => "reading failed",
        Verdict::Write => "writing failed",
        _ => "the stream is damaged",
    }
}

/// What a verdict means, and what can be done about it.
#[derive(Clone, Copy)]
pub struct Explanation {
    pub meaning: &'static str,
    pub advice: &'static str,
}

/// What bytes are that don't begin with the magic number, by the first of them.
fn explain_no_log(first: &[u8]) -> Explanation {
    let (meaning, advice) = match first {
        [] => (
            "the file is empty",
            "name a file that a server wrote, such as binlog.000001",
        ),
        [0xfd, b'b', b'i', b'n', ..] => (
            "this binary log is encrypted: it begins with fd 62 69 6e",
            "fetch it decrypted, with mysqlbinlog --read-from-remote-server --raw",
        ),
        _ => (
            meaning(Verdict::Mark),
            "name a file that a server wrote, such as binlog.000001",
        ),
    };
    Explanation { meaning, advice }
}

/// What an event of a MySQL server is that isn't shown, by its type.
fn explain_unshown(event_type: u8) -> Explanation {
    let (meaning, advice) = match EventType::try_from(event_type) {
        Ok(EventType::TRANSACTION_PAYLOAD_EVENT) => (
            "a compressed transaction, which isn't shown",
            "set binlog_transaction_compression=OFF for later logs; --skip-unreadable leaves the transaction out",
        ),
        Ok(EventType::XA_PREPARE_LOG_EVENT | EventType::QUERY_EVENT) => (
            "an XA transaction, which isn't shown",
            "--skip-unreadable leaves the transaction out",
        ),
        Ok(EventType::INCIDENT_EVENT) => (
            "an incident: the server says that changes are missing from the log",
            "copy the tables anew; --skip-unreadable goes on after the event",
        ),
        Ok(EventType::EXECUTE_LOAD_QUERY_EVENT) => (
            "a LOAD DATA statement, which isn't shown",
            "set binlog_format=ROW for later logs; --skip-unreadable leaves the transaction out",
        ),
        _ => (
            "an event that isn't shown",
            "--skip-unreadable leaves the transaction out",
        ),
    };
    Explanation { meaning, advice }
}

/// What a verdict means, and what can be done about it. `event_type` is the type of the event that stopped the reading, `first` are
/// the first bytes of the log.
pub fn explain(verdict: Verdict, event_type: Option<u8>, first: &[u8]) -> Explanation {
    match (verdict, event_type) {
        (Verdict::Mark, _) => explain_no_log(first),
        (Verdict::Unshown, Some(number)) => explain_unshown(number),
        _ => Explanation {
            meaning: meaning(verdict),
            advice: advice(verdict),
        },
    }
}

/// What can be done about a verdict.
fn advice(verdict: Verdict) -> &'static str {
    match verdict {
        Verdict::Frame | Verdict::Checksum | Verdict::Body | Verdict::Size => {
            "fetch the log again from its server"
        }
        Verdict::Memory => "free memory, and run again",
        Verdict::Read | Verdict::Write => "check the file and the device, and run again",
        _ => "--skip-unreadable leaves the transaction out",
    }
}

/// Appends that a log leads to another than the next that was given.
pub fn put_led_astray(path: &str, name: &Text, next: &str, out: &mut Text) {
    out.words("binlog-changes: ");
    out.words(path);
    out.words(": the log leads to ");
    out.append(name);
    out.words(", but ");
    out.words(next);
    out.words(
        " was given after it; give all logs in their order, under the names that their server gave them: \
names of copies that don't end with a number aren't compared\n",
    );
}

/// Appends that no transaction ends at the start position, and the positions nearest to it.
pub fn put_no_start(path: &str, before: Option<u32>, after: Option<u32>, out: &mut Text) {
    out.words("binlog-changes: ");
    out.words(path);
    out.words(": no transaction ends at the start position; ");
    match (before, after) {
        (Some(before), Some(after)) => {
            out.words("the nearest end at ");
            out.unsigned(u64::from(before));
            out.words(" and ");
            out.unsigned(u64::from(after));
        }
        (None, Some(after)) => {
            out.words("the nearest are 4 and ");
            out.unsigned(u64::from(after));
        }
        (Some(before), None) => {
            out.words("the last ends at ");
            out.unsigned(u64::from(before));
        }
        (None, None) => out.words("the log has none"),
    }
    out.push(b'\n');
}

/// Appends that no transaction ends where the options say, and where the last before it ends.
pub fn put_no_transaction(path: &str, before: Option<u32>, out: &mut Text) {
    out.words("binlog-changes: ");
    out.words(path);
    out.words(": no transaction ends at the position of --transaction; ");
    match before {
        Some(before) => {
            out.words("the last before it ends at ");
            out.unsigned(u64::from(before));
        }
        None => out.words("there is none before it"),
    }
    out.words("; json prints the positions, and check the last one\n");
}

/// Appends that a log ends within an event, of which it has this many bytes.
pub fn put_remaining(path: &str, remaining: usize, out: &mut Text) {
    out.words("binlog-changes: ");
    out.words(path);
    out.words(": the log ends within an event, of which there are ");
    out.unsigned(remaining as u64);
    out.words(" bytes\n");
}
