//! The commands `serve` and `serve-semi`.

ghost use Rattle.std.specs.Prelude.{Result, ℕ};
ghost use Rattle.wire_buf.specs.Watched.{inner_of, has_failed};
ghost use Rattle.crc32.specs.Checksums.{crc32_of};
ghost use Rattle.feed_transactions.specs.Rules.{rules};
ghost use Rattle.feed_replication.specs.RequestFields.{IsRequested};
ghost use Rattle.feed_replication.specs.Sending.{Serves, IsServedFailure};
ghost use Rattle.feed_replication.specs.Streams.{program_limit};
ghost use Rattle.feed_replication.specs.declared.served.Refusal.{Refusal};
ghost use Rattle.program_feed.specs.Outputs.{writer_of, has_write_failed, has_flush_failed};
ghost use Rattle.program_feed.specs.Commands.{WritesAnswer, format_for};

use crate::endings::Ending;
use crate::inputs::whole;
use crate::outputs::Flushed;
use crc32::crc32;
use feed_replication::{Served, serve, serve_semi};
use std::alloc::Global;
use std::io::{Read, Write};
use wire_buf::Watched;

/// The maximum length of a payload in bytes.
pub const PACKET_LIMIT: usize = 1_073_741_824;

/// The kind of replica that an answer is for.
#[derive(Clone, Copy, Debug, PartialEq, Eq)]
pub enum Replica {
    /// Acknowledges nothing.
    Plain,
    /// Acknowledges what it receives.
    SemiSync,
}

/// Writes the answer to a request for the binary log `name`, whose bytes the reader gives.
fn answer<R: Read, W: Write>(
    alloc: Global,
    replica: Replica,
    request: &[u8],
    name: &[u8],
    reader: &mut Watched<R>,
    writer: &mut Watched<W>,
) -> Served
    ensures serves { (asked : Result ℕ Refusal) → IsRequested request.now name.now asked → Serves (rules crc32_of) (format_for replica) program_limit asked (record {
      input = R.remaining (inner_of reader.old);
      unread = R.remaining (inner_of reader.new);
      before = W.contents (inner_of writer.old);
      written = W.contents (inner_of writer.new);
    }) result }
    ensures blamed { IsServedFailure result (has_failed reader.new) (has_failed writer.new) }
{
    match replica {
        Replica::Plain => serve(alloc, request, name, PACKET_LIMIT, reader, &crc32, writer),
        Replica::SemiSync => serve_semi(alloc, request, name, PACKET_LIMIT, reader, &crc32, writer),
    }
}

/// Reads a request to its end, writes the answer to it, and flushes the writer. The binary log is called `name`, and the reader
/// gives its bytes.
pub fn write_answer<I: Read, R: Read, W: Write>(
    alloc: Global,
    replica: Replica,
    name: &[u8],
    input: &mut Watched<I>,
    reader: &mut Watched<R>,
    writer: W,
) -> (Ending, Flushed<W>)
    ensures { WritesAnswer (rules crc32_of) (format_for replica) name.now (I.remaining (inner_of input.old)) (has_failed input.new) (record {
      input = R.remaining (inner_of reader.old);
      unread = R.remaining (inner_of reader.new);
      before = W.contents writer;
      written = W.contents (writer_of result.1);
      read_failed = has_failed reader.new;
      write_failed = has_write_failed result.1;
      flush_failed = has_flush_failed result.1;
    }) result.0 }
{
    let request = match whole(alloc, input) {
        Ok(request) => request,
        Err(fault) => return (Ending::of_verdict(fault), Flushed::unused(writer)),
    };
    let mut watched = Watched::new(writer);
    let served = answer(alloc, replica, &request, name, reader, &mut watched);
    let flushed = Flushed::new(watched);
    (Ending::of_served(flushed.served(served)), flushed)
}
