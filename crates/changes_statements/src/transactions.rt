//! The statements of transactions: in their order, or in the reverse.

ghost use Rattle.std.specs.Prelude.{◌≡◌, ◌++◌, List, ℕ, [], OnOk, if◌then◌else◌};
ghost use Rattle.std.specs.Io.KnownBytes.{Appends};
ghost use Rattle.wire_buf.specs.Watched.{inner_of};
ghost use Rattle.feed_checks.specs.LogFormat.{joined};
ghost use Rattle.feed_transactions.specs.Waiting.{bytes_of, WritesSome};
ghost use Rattle.changes_statements.specs.NewestTexts.{HasTexts};
ghost use Rattle.changes_statements.specs.StatementTexts.{HasOpen};
ghost use Rattle.changes_statements.specs.TransactionTexts.{undo_text, texts_back, text_forth};

use crate::newest_first::NewestFirst;
use crate::text_list::TextList;
use feed_checks::Verdict;
use feed_transactions::WaitingBytes;
use std::alloc::AllocError;
use std::io::Write;
use wire_buf::Watched;

/// What comes before all statements: text in UTF-8, times in UTC, and values as they are.
pub const SESSION: &[u8] = b"SET NAMES utf8mb4;\n\
SET SESSION time_zone = '+00:00';\n\
SET SESSION sql_mode = 'NO_AUTO_VALUE_ON_ZERO,ALLOW_INVALID_DATES';\n";

/// Adds the statements that take a transaction back, in the order of its changes, so that they are written in the reverse: the heading,
/// `BEGIN`, the statement of the last change first, and `COMMIT`.
///
/// - `AllocError`: out of memory; what is kept isn't complete then.
pub fn keep_transaction(
    heading: &[u8],
    statements: &TextList,
    kept: &mut NewestFirst,
) -> Result<(), AllocError>
    ensures { OnOk result ((older texts : List (List ℕ)) → HasTexts kept.old older → HasOpen statements.now texts [] → HasTexts kept.new (texts_back heading.now texts ++ older)) }
{
    kept.add(b"COMMIT;\n")?;
    kept.add_all(statements)?;
    kept.add(b"BEGIN;\n")?;
    kept.add(heading)?;
    Ok(())
}

/// Writes a text if it is to be written.
fn write_if<W: Write>(
    is_written: bool,
    text: &[u8],
    waiting: &mut WaitingBytes,
    writer: &mut Watched<W>,
) -> Result<(), Verdict>
    ensures { OnOk result (WritesSome (W.contents (inner_of writer.old)) (W.contents (inner_of writer.new)) (bytes_of waiting.old) (if is_written then text.now else []) (bytes_of waiting.new)) }
{
    if !is_written {
        return Ok(());
    }
    waiting.put(text, writer)?;
    Ok(())
}

/// Writes the statements of a transaction after the bytes that wait, in their order, between `BEGIN` and `COMMIT` if it has rows.
///
/// - `Write`: the writer failed.
pub fn write_transaction<W: Write>(
    heading: &[u8],
    has_rows: bool,
    statements: &TextList,
    waiting: &mut WaitingBytes,
    writer: &mut Watched<W>,
) -> Result<(), Verdict>
    ensures { OnOk result ((texts : List (List ℕ)) → HasOpen statements.now texts [] → WritesSome (W.contents (inner_of writer.old)) (W.contents (inner_of writer.new)) (bytes_of waiting.old) (text_forth heading.now has_rows texts) (bytes_of waiting.new)) }
{
    waiting.put(heading, writer)?;
    write_if(has_rows, b"BEGIN;\n", waiting, writer)?;
    waiting.put(statements.bytes(), writer)?;
    write_if(has_rows, b"COMMIT;\n", waiting, writer)?;
    Ok(())
}

/// Writes the statements that take transactions back, after the bytes that wait: the session, and the last transaction first. Nothing if
/// there are none.
///
/// - `Write`: the writer failed.
pub fn write_undo<W: Write>(
    kept: &mut NewestFirst,
    waiting: &mut WaitingBytes,
    writer: &mut Watched<W>,
) -> Result<(), Verdict>
    ensures { OnOk result ((texts : List (List ℕ)) → HasTexts kept.old texts → Appends (W.contents (inner_of writer.old)) (W.contents (inner_of writer.new)) (bytes_of waiting.old ++ undo_text texts)) }
{
    write_if(!kept.is_empty(), SESSION, waiting, writer)?;
    kept.write_all(waiting, writer)?;
    waiting.write_all(writer)?;
    Ok(())
}
