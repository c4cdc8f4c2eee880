//! What is said to people about logs and errors.

ghost use Rattle.changes_commands.specs.GrowingTexts.{IsLonger};
ghost use Rattle.std.specs.Prelude.{◌≡◌, List, ℕ, None};
ghost use Rattle.changes_walks.specs.CheckedSentences.{advice_words, cause_words, gaps_words, has_place, meaning_words, open_words, position_words, says_open, transactions_words, unclosed_words, up_to_words, AreCheckedWords, EventWords, PlaceWords};
ghost use Rattle.changes_walks.specs.CheckedWords.{gap_words, has_gaps, last_commit_of};
ghost use Rattle.changes_walks.specs.Gaps.{gap_json};

use crate::sources::SourceFault;
use changes_commands::{Explanation, Text, explain, put_type};
use events_frames::BinlogEventHeader;
use events_replaced::{MariadbFault, ReplacementFault, XaFault, is_mariadb_number};
use feed_change_log::Stop;
use feed_checks::Verdict;
use rows_constants::EventType;

/// The transactions of a log that the options select.
#[derive(Clone, Copy)]
pub struct Selected {
    pub count: u64,
    /// Where the last of them ends, if there is one.
    pub last: Option<u32>,
}

/// What is known of a log that was read.
#[derive(Clone, Copy)]
pub struct Checked<'l> {
    pub path: &'l str,
    pub stop: Stop,
    pub explanation: Explanation,
    /// The position up to which it was read, if that isn't its end.
    pub up_to: Option<u32>,
    /// How much was left out, if transactions that can't be read are.
    pub gaps: Option<u64>,
    /// The transactions that the options select, if there are such options.
    pub selected: Option<Selected>,
}

impl<'l> Checked<'l> {
    /// What is known of a log that was read to its end or its first fault, and begins with these bytes. The fault is why the event at
    /// which it ended is given as it is.
    pub fn new(path: &'l str, stop: Stop, fault: Option<SourceFault>, first: &[u8]) -> Checked<'l>
        ensures path { result.path.now ≡ path.now }
        ensures stop { result.stop ≡ stop }
        ensures none { (result.up_to ≡ None) × (result.gaps ≡ None) × (result.selected ≡ None) }
    {
        Checked {
            path,
            stop,
            explanation: explanation_of(stop, fault, first),
            up_to: None,
            gaps: None,
            selected: None,
        }
    }

    /// Whether something was left out.
    fn has_gaps(self) -> bool
        ensures { result ≡ has_gaps self.entry }
    {
        matches!(self.gaps, Some(gaps) if gaps > 0)
    }

    /// Where the last transaction ends; of those that the options select, if there are such options.
    pub(crate) fn last_commit(self) -> Option<u32>
        ensures { result ≡ last_commit_of self.entry }
    {
        match self.selected {
            Some(selected) => selected.last,
            None => self.stop.last_commit,
        }
    }
}

/// What it means that a compressed transaction isn't shown.
fn explain_payload(fault: ReplacementFault) -> Explanation {
    let (meaning, advice) = match fault {
        ReplacementFault::Checksum => (
            "the checksum of a compressed transaction is wrong: the log is damaged",
            "fetch the log again from its server",
        ),
        ReplacementFault::Fields | ReplacementFault::Damaged | ReplacementFault::Events => (
            "a compressed transaction is damaged",
            "fetch the log again from its server",
        ),
        ReplacementFault::Compression => (
            "a transaction is compressed in an unknown way",
            "set binlog_transaction_compression=OFF for later logs; --skip-unreadable leaves the transaction out",
        ),
        ReplacementFault::TooLong => (
            "a compressed transaction is longer than the limit",
            "raise it with --max-transaction; --skip-unreadable leaves the transaction out",
        ),
        ReplacementFault::Nested => (
            "a compressed transaction has another one within it, or the description of a format: the log is damaged",
            "fetch the log again from its server",
        ),
        ReplacementFault::Memory => ("out of memory", "free memory, and run again"),
        ReplacementFault::Mariadb(fault) => return explain_mariadb(fault),
    };
    Explanation { meaning, advice }
}

/// What it means that an event of MariaDB isn't shown.
fn explain_mariadb(fault: MariadbFault) -> Explanation {
    let (meaning, advice) = match fault {
        MariadbFault::Encrypted => (
            "the log is encrypted from here on",
            "fetch it decrypted, with mariadb-binlog --read-from-remote-server --raw",
        ),
        MariadbFault::Fields | MariadbFault::Damaged => (
            "an event of MariaDB is damaged",
            "fetch the log again from its server",
        ),
        MariadbFault::Compression => (
            "an event is compressed in an unknown way",
            "set log_bin_compress=OFF for later logs; --skip-unreadable leaves the transaction out",
        ),
        MariadbFault::TooLong => (
            "a compressed event is longer than the limit",
            "raise it with --max-transaction; --skip-unreadable leaves the transaction out",
        ),
        MariadbFault::Memory => ("out of memory", "free memory, and run again"),
    };
    Explanation { meaning, advice }
}

/// What it means that an event of an XA transaction isn't taken.
fn explain_xa(fault: XaFault) -> Explanation {
    let (meaning, advice) = match fault {
        XaFault::Checksum => (
            "the checksum of an event of an XA transaction is wrong: the log is damaged",
            "fetch the log again from its server",
        ),
        XaFault::Unprepared => (
            "the XA transaction that is committed here was prepared before the log, or before where reading began",
            "give the log in which it was prepared before this one; --skip-unreadable leaves the transaction out",
        ),
        XaFault::Misplaced => (
            "an XA statement is out of place: the log is damaged",
            "fetch the log again from its server",
        ),
        XaFault::Statement => (
            "an XA statement can't be read",
            "fetch the log again from its server",
        ),
        XaFault::TooLong => (
            "an XA transaction is longer than the limit",
            "raise it with --max-transaction; --skip-unreadable leaves the transaction out",
        ),
        XaFault::Memory => ("out of memory", "free memory, and run again"),
    };
    Explanation { meaning, advice }
}

/// What the verdict of a log means that ended so, and begins with these bytes. The fault is why the event at which it ended is given as
/// it is.
pub fn explanation_of(stop: Stop, fault: Option<SourceFault>, first: &[u8]) -> Explanation {
    let event_type = match stop.header {
        Some(header) => Some(header.event_type_raw()),
        None => None,
    };
    let is_payload = event_type == Some(EventType::TRANSACTION_PAYLOAD_EVENT as u8);
    let is_mariadb = matches!(event_type, Some(number) if is_mariadb_number(number));
    // Where rows aren't taken as those of an XA transaction, their table is missing.
    let is_left = matches!(stop.verdict, Verdict::Unshown | Verdict::NoTableMap);
    match fault {
        Some(SourceFault::Xa(fault)) if is_left => explain_xa(fault),
        Some(SourceFault::Replacement(fault)) if is_payload => explain_payload(fault),
        Some(SourceFault::Replacement(ReplacementFault::Mariadb(fault))) if is_mariadb => {
            explain_mariadb(fault)
        }
        _ => explain(stop.verdict, event_type, first),
    }
}

/// What it means that a log ended so, after an event.
fn meaning_of(checked: Checked<'_>) -> &'static str
    ensures { result.now ≡ meaning_words checked.entry }
{
    let stop = checked.stop;
    if stop.verdict != Verdict::End {
        return checked.explanation.meaning;
    }
    if stop.is_open {
        return "the log ends within a transaction";
    }
    if checked.has_gaps() {
        return "the log is whole but for its gaps";
    }
    checked.explanation.meaning
}

/// Appends why a log ended.
fn put_cause(checked: Checked<'_>, out: &mut Text)
    ensures { IsLonger out.old out.new (cause_words checked.entry) }
{
    let stop = checked.stop;
    if stop.is_cut {
        out.words("the log ends within an event, ");
        out.unsigned(stop.remaining as u64);
        out.words(" bytes after position ");
        out.unsigned(stop.offset);
        return;
    }
    out.words(meaning_of(checked));
}

/// Appends up to where a log was read, if that isn't its end.
fn put_up_to(up_to: Option<u32>, out: &mut Text)
    ensures { IsLonger out.old out.new (up_to_words up_to) }
{
    if let Some(position) = up_to {
        out.words(" up to ");
        out.unsigned(u64::from(position));
        out.words(", and isn't checked after it");
    }
}

/// Appends at which event a log ended, if there is one.
fn put_event(header: Option<BinlogEventHeader>, out: &mut Text)
    ensures { (more : List ℕ) × EventWords header more × IsLonger out.old out.new more }
{
    if let Some(header) = header {
        out.words(", ");
        put_type(header.event_type_raw(), out);
        out.words(" of ");
        out.unsigned(u64::from(header.event_size()));
        out.words(" bytes");
    }
}

/// Whether a log ended by a fault after its first bytes.
fn has_place(stop: Stop) -> bool
    ensures { result ≡ has_place stop }
{
    if matches!(stop.verdict, Verdict::End) {
        return false;
    }
    stop.offset > 0
}

/// Appends where a log ended, and at which event, if it ended by a fault.
fn put_place(stop: Stop, out: &mut Text)
    ensures { (more : List ℕ) × PlaceWords stop more × IsLonger out.old out.new more }
{
    if !has_place(stop) {
        return;
    }
    out.words(", at position ");
    out.unsigned(stop.offset);
    put_event(stop.header, out);
}

/// Appends how many gaps a log has, if it has some.
fn put_gaps(gaps: Option<u64>, out: &mut Text)
    ensures { IsLonger out.old out.new (gaps_words gaps) }
{
    if let Some(gaps) = gaps
        && gaps > 0
    {
        out.words("; gaps: ");
        out.unsigned(gaps);
    }
}

/// Appends words and a position, if there is one.
fn put_position(words: &str, position: Option<u32>, out: &mut Text)
    ensures { IsLonger out.old out.new (position_words words.now position) }
{
    if let Some(position) = position {
        out.words(words);
        out.unsigned(u64::from(position));
    }
}

/// Appends where the last transaction ends, if there is one; if there are options, how many transactions they select.
fn put_transactions(checked: Checked<'_>, out: &mut Text)
    ensures { IsLonger out.old out.new (transactions_words checked.entry) }
{
    let last = checked.last_commit();
    match checked.selected {
        Some(selected) => {
            out.words("; selected transactions: ");
            out.unsigned(selected.count);
            put_position(", the last ends at ", last, out);
        }
        None => put_position("; the last transaction ends at ", last, out),
    }
}

/// Whether a transaction is open where a log ended by a fault, or within an event.
fn says_open(stop: Stop) -> bool
    ensures { result ≡ says_open stop }
{
    if !stop.is_open {
        return false;
    }
    if matches!(stop.verdict, Verdict::End) {
        return stop.is_cut;
    }
    true
}

/// Appends that a transaction is open where a log ended, if that is to be said.
fn put_open(stop: Stop, out: &mut Text)
    ensures { IsLonger out.old out.new (open_words stop) }
{
    if says_open(stop) {
        out.words("; a transaction is open");
    }
}

/// Appends what can be done about a fault.
fn put_advice(checked: Checked<'_>, out: &mut Text)
    ensures { IsLonger out.old out.new (advice_words checked.entry) }
{
    if checked.stop.verdict != Verdict::End {
        out.words("; ");
        out.words(checked.explanation.advice);
    }
}

/// Appends how a log ended, for people.
pub fn put_checked(checked: Checked<'_>, out: &mut Text)
    ensures { (more : List ℕ) × AreCheckedWords checked.entry more × IsLonger out.old out.new more }
{
    out.words(checked.path);
    out.words(": ");
    put_cause(checked, out);
    put_up_to(checked.up_to, out);
    put_place(checked.stop, out);
    put_gaps(checked.gaps, out);
    put_transactions(checked, out);
    put_open(checked.stop, out);
    put_advice(checked, out);
    out.push(b'\n');
}

/// Appends that a log before another isn't closed.
pub fn put_unclosed(path: &str, stop: Stop, out: &mut Text)
    ensures { IsLonger out.old out.new (unclosed_words path.now stop.offset) }
{
    out.words("binlog-changes: ");
    out.words(path);
    out.words(": the log ends at ");
    out.unsigned(stop.offset);
    out.words(
        " without a rotate or stop event, so transactions may be missing; compare its size with SHOW BINARY LOGS, \
and give the logs after it in a run of their own\n",
    );
}

/// Appends the line of a gap in a log: its start and its end, and why it is one.
pub fn put_gap(file: &[u8], from: u64, to: u64, reason: &str, out: &mut Text)
    ensures { IsLonger out.old out.new (gap_json file.now from to reason.now) }
{
    out.words("{\"type\":\"gap\",\"file\":");
    out.text(file);
    out.words(",\"from\":");
    out.unsigned(from);
    out.words(",\"to\":");
    out.unsigned(to);
    out.words(",\"reason\":");
    out.string(reason);
    out.words("}\n");
}

/// Appends where a gap in a log is and why it is one, for people.
pub fn put_gap_words(path: &str, from: u64, to: u64, reason: &str, out: &mut Text)
    ensures { IsLonger out.old out.new (gap_words path.now from to reason.now) }
{
    out.words(path);
    out.words(": a gap from ");
    out.unsigned(from);
    out.words(" to ");
    out.unsigned(to);
    out.words(": ");
    out.words(reason);
    out.push(b'\n');
}
