//! The command `report`.

ghost use Rattle.wire_buf.specs.Watched.{inner_of, has_failed};
ghost use Rattle.crc32.specs.Checksums.{crc32_of};
ghost use Rattle.feed_transactions.specs.Rules.{rules};
ghost use Rattle.program_feed.specs.Outputs.{writer_of, has_write_failed, has_flush_failed};
ghost use Rattle.program_feed.specs.Commands.{WritesReport};

use crate::endings::Ending;
use crate::outputs::Flushed;
use crc32::crc32;
use feed_transactions::report;
use std::alloc::Global;
use std::io::{Read, Write};
use wire_buf::Watched;

/// Writes the report of a binary log, and flushes the writer.
pub fn write_report<R: Read, W: Write>(
    alloc: Global,
    reader: &mut Watched<R>,
    writer: W,
) -> (Ending, Flushed<W>)
    ensures { WritesReport (rules crc32_of) (record {
      input = R.remaining (inner_of reader.old);
      unread = R.remaining (inner_of reader.new);
      before = W.contents writer;
      written = W.contents (writer_of result.1);
      read_failed = has_failed reader.new;
      write_failed = has_write_failed result.1;
      flush_failed = has_flush_failed result.1;
    }) result.0 }
{
    let mut watched = Watched::new(writer);
    let verdict = report(alloc, reader, &crc32, &mut watched);
    let flushed = Flushed::new(watched);
    (Ending::of_verdict(flushed.verdict(verdict)), flushed)
}
