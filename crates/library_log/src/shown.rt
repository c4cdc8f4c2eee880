//! What is shown of a transaction: whether anything, and its lines or its record.

ghost use Rattle.std.specs.Prelude.{◌≡◌, List, [], IfOk};
ghost use Rattle.std.specs.List.{filter as filter_list};
ghost use Rattle.feed_transactions.specs.Changes.{Committed};
ghost use Rattle.feed_transactions.specs.Waiting.{bytes_of};
ghost use Rattle.feed_change_log.specs.Filters.{takes_change};
ghost use Rattle.changes_lines.specs.RecordedLines.{IsDoneJson};
ghost use Rattle.changes_lines.specs.WrittenLines.{is_by_transaction};
ghost use Rattle.library_log.specs.RecordLayouts.{IsRecord};
ghost use Rattle.library_log.specs.RecordedTransactions.{IsDoneRecord, begin_in};
ghost use Rattle.library_log.specs.ShownRecorders.{IsDoneShown};
ghost use Rattle.library_log.specs.ShownTransactions.{HasLines, HasShown, IsShown};
ghost use Rattle.library_log.specs.declared.shown_recorder.ShownRecorder.TheVariants as variants;

use crate::recorder::RecordRecorder;
use crate::records::Records;
use crate::shown_recorder::ShownRecorder;
use changes_lines::{JsonRecorder, Lines};
use feed_change_log::Filter;
use feed_transactions::WaitingBytes;
use std::alloc::AllocError;
use wire_buf::Watched;

/// Whether the transaction that a recorder has is shown.
pub(crate) fn is_shown(filter: Filter<'_>, newest: &ShownRecorder<'_>) -> bool
    ensures { (t : Committed) → IsDoneShown newest.now t → IsShown filter.entry newest.now t result }
{
    match newest {
        ShownRecorder::Lines(newest) => has_lines(filter, newest),
        ShownRecorder::Record(newest) => has_record(filter, newest),
    }
}

/// Whether the transaction that a recorder of lines has is shown.
fn has_lines(filter: Filter<'_>, newest: &JsonRecorder<'_>) -> bool
    ensures { (t : Committed) → IsDoneJson newest.now t → IsShown filter.entry (variants.Lines newest.now) t result }
{
    newest.has_changes() && filter.takes_header(newest.commit_header())
}

/// Whether the transaction that a recorder of records has is shown.
fn has_record(filter: Filter<'_>, newest: &RecordRecorder) -> bool
    ensures { (t : Committed) → IsDoneRecord newest.now t → IsShown filter.entry (variants.Record newest.now) t result }
{
    newest.has_taken(filter) && filter.takes_header(newest.commit_header())
}

/// Makes the lines of a transaction, in a text that is empty. `AllocError`: out of memory.
fn lines_of(
    file: &[u8],
    newest: &JsonRecorder<'_>,
    lines: &mut Lines,
    waiting: &mut WaitingBytes,
    text: Vec<u8>,
) -> Result<Vec<u8>, AllocError>
    ensures lines { IfOk result (λ made. (t : Committed) → text.items ≡ [] → bytes_of waiting.old ≡ [] → IsDoneJson newest.now t → HasLines lines.old file.now newest.now t made.items) }
    ensures kept { is_by_transaction lines.new ≡ is_by_transaction lines.old }
    ensures none { bytes_of waiting.old ≡ [] → bytes_of waiting.new ≡ [] }
{
    lines.begin(file, newest)?;
    let mut writer = Watched::new(text);
    let written = lines.write(newest, waiting, &mut writer);
    let rest = waiting.write_all(&mut writer);
    match (written, rest) {
        (Ok(()), Ok(())) => Ok(writer.into_inner()),
        _ => Err(AllocError),
    }
}

/// Makes the record of a transaction, in a buffer, which it empties first. `AllocError`: out of memory.
fn record_of(
    filter: Filter<'_>,
    newest: &RecordRecorder,
    records: &mut Records,
    buffer: Vec<u8>,
) -> Result<Vec<u8>, AllocError>
    ensures { IfOk result (λ made. (t : Committed) → IsDoneRecord newest.now t → IsRecord (begin_in newest.now) t (filter_list (takes_change filter.entry) t.changes) made.items) }
{
    let mut made = buffer;
    records.put(newest, filter, &mut made)?;
    Ok(made)
}

/// Makes the lines or the record of a transaction, in a text that is empty. `AllocError`: out of memory.
pub(crate) fn shown_of(
    file: &[u8],
    filter: Filter<'_>,
    newest: &ShownRecorder<'_>,
    lines: &mut Lines,
    waiting: &mut WaitingBytes,
    records: &mut Records,
    text: Vec<u8>,
) -> Result<Vec<u8>, AllocError>
    ensures shown { IfOk result (λ made. (t : Committed) → text.items ≡ [] → bytes_of waiting.old ≡ [] → IsDoneShown newest.now t → HasShown filter.entry lines.old file.now newest.now t made.items) }
    ensures kept { is_by_transaction lines.new ≡ is_by_transaction lines.old }
    ensures none { bytes_of waiting.old ≡ [] → bytes_of waiting.new ≡ [] }
{
    match newest {
        ShownRecorder::Lines(newest) => lines_of(file, newest, lines, waiting, text),
        ShownRecorder::Record(newest) => record_of(filter, newest, records, text),
    }
}
