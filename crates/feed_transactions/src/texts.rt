//! Prints the lines of transactions.

ghost use Rattle.std.specs.Prelude.{◌≡◌, ◌++◌, ◌∷◌, OnOk, Some};
ghost use Rattle.events_frames.specs.QueryTexts.{StatementTexts, HasTexts};
ghost use Rattle.feed_text.specs.Buffers.{text_in};
ghost use Rattle.feed_checks.specs.KindViews.{gtid_view};
ghost use Rattle.feed_transactions.specs.Transactions.{Stated};
ghost use Rattle.feed_transactions.specs.MappedRows.{change_by};
ghost use Rattle.feed_transactions.specs.RowTexts.{change_word};
ghost use Rattle.feed_transactions.specs.TransactionTexts.{commit_line, gtid_text, line_text};

use events_frames::QueryTexts;
use feed_checks::Gtid;
use feed_text::{TextBuffer, put_uuid};
use rows_event_body::RowImages;
use std::alloc::{AllocError, Allocator};

/// Appends the text of a GTID: `-`, `uuid:number`, or `tagged` and the quoted body. Out of memory: a part of it may be appended.
#[inline(never)]
pub(crate) fn put_gtid<A: Allocator>(
    gtid: &Gtid<'_>,
    text: &mut TextBuffer<A>,
) -> Result<(), AllocError>
    ensures ok { OnOk result (text_in text.new ≡ text_in text.old ++ gtid_text (Some (gtid_view gtid.now))) }
{
    match gtid {
        Gtid::Anonymous => text.put(b'-'),
        Gtid::Numbered { uuid, number } => {
            put_uuid(uuid, text)?;
            text.put(b':')?;
            text.put_number(*number)
        }
        Gtid::Tagged(body) => {
            text.put_text(b"tagged ")?;
            text.put_quoted(body)
        }
    }
}

/// Appends the line of a statement: its quoted schema and its quoted text. Out of memory: a part of it may be appended.
#[inline(never)]
pub(crate) fn put_statement<A: Allocator>(
    texts: QueryTexts<'_>,
    text: &mut TextBuffer<A>,
) -> Result<(), AllocError>
    ensures ok { OnOk result ((q : StatementTexts) → HasTexts texts.entry q → text_in text.new ≡ text_in text.old ++ line_text (Stated q)) }
{
    text.put_text(b"statement ")?;
    text.put_two_quoted(texts.schema, texts.query)?;
    text.put(b'\n')
}

/// Appends the commit line: `log_pos` is the position in the log after the commit event. Out of memory: a part of it may be
/// appended.
pub(crate) fn put_commit<A: Allocator>(
    log_pos: u32,
    text: &mut TextBuffer<A>,
) -> Result<(), AllocError>
    ensures ok { OnOk result (text_in text.new ≡ text_in text.old ++ commit_line log_pos) }
{
    text.put_text(b"commit ")?;
    text.put_number(u64::from(log_pos))?;
    text.put(b'\n')
}

/// The word for what an event with these images does to a row, and a space.
pub(crate) fn change_word(images: RowImages) -> &'static [u8]
    ensures { result.now ≡ change_word (change_by images) }
{
    match images {
        RowImages::Before => b"delete ",
        RowImages::After => b"insert ",
        RowImages::BeforeAndAfter | RowImages::BeforeAndPartialAfter => b"update ",
    }
}
