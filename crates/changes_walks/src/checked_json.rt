//! What `check --json` says of a log.

ghost use Rattle.std.specs.Prelude.{◌≡◌, ◌++◌, ℕ, List};
ghost use Rattle.changes_commands.specs.GrowingTexts.{IsLonger};
ghost use Rattle.changes_walks.specs.CheckedWords.{end_json, gaps_json, number_json, place_json, rest_json, selected_json, start_json, truth_json, CheckedJson, EventJson};

use crate::status::is_whole;
use crate::words::Checked;
use changes_commands::{Text, put_type};
use feed_change_log::Stop;
use feed_checks::name_of;

/// Appends a number, or null.
fn put_number(number: Option<u64>, out: &mut Text)
    ensures { IsLonger out.old out.new (number_json number) }
{
    match number {
        Some(number) => out.unsigned(number),
        None => out.null(),
    }
}

/// Appends a label and a truth value.
fn put_truth(label: &str, value: bool, out: &mut Text)
    ensures { IsLonger out.old out.new (label.now ++ truth_json value) }
{
    out.words(label);
    out.words(if value { "true" } else { "false" });
}

/// Appends a label and a number, or null.
fn put_labelled(label: &str, number: Option<u64>, out: &mut Text)
    ensures { IsLonger out.old out.new (label.now ++ number_json number) }
{
    out.words(label);
    put_number(number, out);
}

/// A position as a number of 64 bits.
fn wide(position: Option<u32>) -> Option<u64>
    ensures { result ≡ position }
{
    match position {
        Some(position) => Some(u64::from(position)),
        None => None,
    }
}

/// Appends the beginning of an object: the path of the log, and the verdict.
fn put_start(checked: Checked<'_>, out: &mut Text)
    ensures { IsLonger out.old out.new (start_json checked.entry.path.now checked.entry.stop.verdict) }
{
    out.words("{\"file\":");
    out.string(checked.path);
    out.words(",\"verdict\":");
    out.string(name_of(&checked.stop.verdict));
}

/// Appends whether the log is whole, and where it ended.
fn put_place(stop: Stop, out: &mut Text)
    ensures { IsLonger out.old out.new (place_json stop) }
{
    put_truth(",\"is_whole\":", is_whole(stop), out);
    put_labelled(",\"offset\":", Some(stop.offset), out);
}

/// Appends the event at which a log ended, if there is one.
fn put_event(stop: Stop, out: &mut Text)
    ensures { (more : List ℕ) × EventJson stop.header more × IsLonger out.old out.new more }
{
    if let Some(header) = stop.header {
        out.words(",\"event_type\":\"");
        put_type(header.event_type_raw(), out);
        put_labelled(
            "\",\"event_size\":",
            Some(u64::from(header.event_size())),
            out,
        );
    }
}

/// Appends where the last transaction ends, and whether the log ends in a transaction, and in an event.
fn put_end(checked: Checked<'_>, out: &mut Text)
    ensures { IsLonger out.old out.new (end_json checked.entry) }
{
    put_labelled(",\"last_commit\":", wide(checked.last_commit()), out);
    put_truth(",\"is_open\":", checked.stop.is_open, out);
    put_truth(",\"is_cut\":", checked.stop.is_cut, out);
}

/// Appends the number of bytes that are left, and where reading may go on.
fn put_rest(stop: Stop, out: &mut Text)
    ensures { IsLonger out.old out.new (rest_json stop) }
{
    put_labelled(",\"remaining\":", Some(stop.remaining as u64), out);
    put_labelled(",\"next_offset\":", stop.next_offset(), out);
}

/// Appends what the options select of a log, if there are such options.
fn put_selected(checked: Checked<'_>, out: &mut Text)
    ensures { IsLonger out.old out.new (selected_json checked.entry.selected checked.entry.up_to) }
{
    if let Some(selected) = checked.selected {
        put_labelled(",\"transactions\":", Some(selected.count), out);
        put_labelled(",\"checked_up_to\":", wide(checked.up_to), out);
    }
}

/// Appends the number of gaps, if transactions that can't be read are left out.
fn put_gaps(gaps: Option<u64>, out: &mut Text)
    ensures { IsLonger out.old out.new (gaps_json gaps) }
{
    if gaps.is_some() {
        put_labelled(",\"gaps\":", gaps, out);
    }
}

/// Appends how a log ended, as an object of JSON and a line feed.
pub fn put_checked_json(checked: Checked<'_>, out: &mut Text)
    ensures { (more : List ℕ) × CheckedJson checked.entry more × IsLonger out.old out.new more }
{
    put_start(checked, out);
    put_place(checked.stop, out);
    put_event(checked.stop, out);
    put_end(checked, out);
    put_rest(checked.stop, out);
    put_selected(checked, out);
    put_gaps(checked.gaps, out);
    out.words("}\n");
}
