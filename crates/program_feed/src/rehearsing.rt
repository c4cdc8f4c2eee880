//! The command `rehearse`.

ghost use Rattle.wire_buf.specs.Watched.{inner_of, has_failed};
ghost use Rattle.crc32.specs.Checksums.{crc32_of};
ghost use Rattle.feed_transactions.specs.Rules.{rules};
ghost use Rattle.program_feed.specs.Outputs.{writer_of, has_write_failed, has_flush_failed};
ghost use Rattle.program_feed.specs.Commands.{WritesRehearsal};

use crate::endings::Ending;
use crate::inputs::whole;
use crate::outputs::Flushed;
use crc32::crc32;
use feed_replication::rehearse;
use std::alloc::Global;
use std::io::{Read, Write};
use wire_buf::Watched;

/// Reads a binary log to its end, writes what a follower prints whose answers stop after so many bytes each, and flushes the writer.
pub fn write_rehearsal<R: Read, W: Write>(
    alloc: Global,
    counts: &[usize],
    reader: &mut Watched<R>,
    writer: W,
) -> (Ending, Flushed<W>)
    ensures { WritesRehearsal (rules crc32_of) counts.now (record {
      input = R.remaining (inner_of reader.old);
      unread = R.remaining (inner_of reader.new);
      before = W.contents writer;
      written = W.contents (writer_of result.1);
      read_failed = has_failed reader.new;
      write_failed = has_write_failed result.1;
      flush_failed = has_flush_failed result.1;
    }) result.0 }
{
    let binlog = match whole(alloc, reader) {
        Ok(binlog) => binlog,
        Err(fault) => return (Ending::of_verdict(fault), Flushed::unused(writer)),
    };
    let mut watched = Watched::new(writer);
    let verdict = rehearse(alloc, &binlog, counts, &crc32, &mut watched);
    let flushed = Flushed::new(watched);
    (Ending::of_verdict(flushed.verdict(verdict)), flushed)
}
