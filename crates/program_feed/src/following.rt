//! The command `follow`.

ghost use Rattle.std.specs.Prelude.{◌≡◌, List, ℕ, [], true};
ghost use Rattle.wire_buf.specs.Watched.{inner_of, has_failed};
ghost use Rattle.crc32.specs.Checksums.{crc32_of};
ghost use Rattle.feed_checks.specs.Sums.{IsChecksumFunction};
ghost use Rattle.feed_checks.specs.declared.verdict.Verdict.TheVariants as verdicts;
ghost use Rattle.feed_transactions.specs.Rules.{rules};
ghost use Rattle.feed_replication.specs.Following.{checksum_of, Starts};
ghost use Rattle.feed_replication.specs.Requests.{dump_request};
ghost use Rattle.feed_replication.specs.Streams.{program_limit};
ghost use Rattle.feed_replication.specs.declared.format.PayloadFormat.TheVariants.{Plain};
ghost use Rattle.program_feed.specs.Outputs.{writer_of, has_write_failed, has_flush_failed};
ghost use Rattle.program_feed.specs.FollowedPackets.{FollowsPackets, IsFollowFailure, WritesFollowed};

use crate::endings::Ending;
use crate::outputs::Flushed;
use crate::serving::PACKET_LIMIT;
use crc32::crc32;
use feed_checks::Verdict;
use feed_replication::Follower;
use std::alloc::Global;
use std::io::{Read, Write};
use wire_buf::Watched;

/// The buffer size for reading packets, in bytes.
const PIECE_LEN: usize = 65_536;

/// The position of the first event, after the magic number.
const FIRST_POSITION: u32 = 4;

/// Passes what a reader gives to a follower that was just started. The writer is flushed after each piece.
fn follow_pieces<F: Fn(&[u8]) -> u32, R: Read, W: Write>(
    follower: &mut Follower<F>,
    reader: &mut Watched<R>,
    writer: W,
) -> (Verdict, Flushed<W>)
    requires callable { F.IsAlwaysCallable (checksum_of follower.old) }
    requires starts { Starts Plain 4 1 [] program_limit (checksum_of follower.old) follower.old (dump_request 4 1 []) }
    ensures follows { (sum : List ℕ → ℕ) → IsChecksumFunction F.Fn (checksum_of follower.old) sum → FollowsPackets (rules sum) (record {
      input = R.remaining (inner_of reader.old);
      unread = R.remaining (inner_of reader.new);
      before = W.contents writer;
      written = W.contents (writer_of result.1);
      read_failed = has_failed reader.new;
      write_failed = has_write_failed result.1;
      flush_failed = has_flush_failed result.1;
    }) result.0 }
    ensures blamed { IsFollowFailure result.0 (record {
      input = R.remaining (inner_of reader.old);
      unread = R.remaining (inner_of reader.new);
      before = W.contents writer;
      written = W.contents (writer_of result.1);
      read_failed = has_failed reader.new;
      write_failed = has_write_failed result.1;
      flush_failed = has_flush_failed result.1;
    }) }
    ensures flush { has_flush_failed result.1 ≡ true → result.0 ≡ verdicts.Write }
{
    let mut piece = [0u8; PIECE_LEN];
    let mut flushed = Flushed::unused(writer);
    loop {
        let taken = match reader.pull_uninterrupted(&mut piece) {
            Ok(0) => return (follower.finish(), flushed),
            Ok(taken) => taken,
            Err(_) => return (Verdict::Read, flushed),
        };
        let mut watched = Watched::new(flushed.into_writer());
        let outcome = follower.feed(&piece[..taken], &mut watched);
        flushed = Flushed::new(watched);
        if flushed.is_unflushed() {
            return (Verdict::Write, flushed);
        }
        match outcome {
            Some(verdict) => return (verdict, flushed),
            None => {}
        }
    }
}

/// Reads packets, and writes each transaction as soon as it is committed.
pub fn write_followed<R: Read, W: Write>(
    alloc: Global,
    reader: &mut Watched<R>,
    writer: W,
) -> (Ending, Flushed<W>)
    ensures { WritesFollowed (rules crc32_of) (record {
      input = R.remaining (inner_of reader.old);
      unread = R.remaining (inner_of reader.new);
      before = W.contents writer;
      written = W.contents (writer_of result.1);
      read_failed = has_failed reader.new;
      write_failed = has_write_failed result.1;
      flush_failed = has_flush_failed result.1;
    }) result.0 }
{
    match Follower::start(alloc, FIRST_POSITION, 1, b"", PACKET_LIMIT, crc32) {
        Ok((mut follower, _request)) => {
            let (verdict, flushed) = follow_pieces(&mut follower, reader, writer);
            (Ending::of_verdict(verdict), flushed)
        }
        Err(_) => (Ending::of_verdict(Verdict::Memory), Flushed::unused(writer)),
    }
}
