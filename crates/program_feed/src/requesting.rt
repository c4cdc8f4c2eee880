//! The command `request`.

ghost use Rattle.wire_buf.specs.Watched.{inner_of, has_failed};
ghost use Rattle.program_feed.specs.Outputs.{writer_of, has_write_failed, has_flush_failed};
ghost use Rattle.program_feed.specs.Commands.{WritesBytes, WritesRequest};

use crate::endings::Ending;
use crate::outputs::Flushed;
use feed_checks::Verdict;
use feed_replication::request;
use feed_transactions::put_all;
use std::alloc::Global;
use std::io::Write;
use wire_buf::Watched;

/// Writes all of the bytes: `End`, or `Write` if the writer failed after a prefix of them.
fn put<W: Write>(writer: &mut Watched<W>, bytes: &[u8]) -> Verdict
    ensures { WritesBytes bytes.now (W.contents (inner_of writer.old)) (W.contents (inner_of writer.new)) (has_failed writer.new) result }
{
    match put_all(writer, bytes) {
        Ok(()) => Verdict::End,
        Err(fault) => fault,
    }
}

/// Writes a request for the binary log `name` from a position on, for a replica with the id `server`, and flushes the writer.
pub fn write_request<W: Write>(
    alloc: Global,
    position: u32,
    server: u32,
    name: &[u8],
    writer: W,
) -> (Ending, Flushed<W>)
    ensures { WritesRequest position server name.now (W.contents writer) (W.contents (writer_of result.1)) (has_write_failed result.1) (has_flush_failed result.1) result.0 }
{
    let packet = match request(alloc, position, server, name) {
        Ok(packet) => packet,
        Err(error) => return (Ending::of_request_error(error), Flushed::unused(writer)),
    };
    let mut watched = Watched::new(writer);
    let verdict = put(&mut watched, &packet);
    let flushed = Flushed::new(watched);
    (Ending::of_verdict(flushed.verdict(verdict)), flushed)
}
