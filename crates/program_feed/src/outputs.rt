//! Writers that were flushed.

ghost use Rattle.std.specs.Prelude.{◌≡◌, false};
ghost use Rattle.std.specs.Io.KnownBytes.{Keeps};
ghost use Rattle.wire_buf.specs.Watched.{inner_of, has_failed};

use feed_checks::Verdict;
use feed_replication::Served;
use std::io::Write;
use wire_buf::Watched;

/// A writer after a flush, and whether a write or the flush failed.
#[derive(Drop)]
pub struct Flushed<W> {
    writer: W,
    write_failed: bool,
    flush_failed: bool,
}

impl<W: Write> Flushed<W> {
    ghost use Rattle.program_feed.specs.Outputs.{writer_of, has_write_failed, has_flush_failed, verdict_after, served_after};

    /// Flushes a writer.
    pub fn new(watched: Watched<W>) -> Flushed<W>
        ensures kept { Keeps (W.contents (inner_of watched)) (W.contents (writer_of result)) }
        ensures write_failed { has_write_failed result ≡ has_failed watched }
    {
        let write_failed = watched.failed();
        let mut writer = watched.into_inner();
        let flush_failed = writer.flush().is_err();
        Flushed {
            writer,
            write_failed,
            flush_failed,
        }
    }

    /// A writer to which nothing was written.
    pub fn unused(writer: W) -> Flushed<W>
        ensures writer { writer_of result ≡ writer }
        ensures write { has_write_failed result ≡ false }
        ensures flush { has_flush_failed result ≡ false }
    {
        Flushed {
            writer,
            write_failed: false,
            flush_failed: false,
        }
    }

    /// The verdict after the flush: `Write` if that failed.
    pub fn verdict(&self, verdict: Verdict) -> Verdict
        ensures { result ≡ verdict_after (has_flush_failed self.now) verdict }
    {
        if self.flush_failed {
            return Verdict::Write;
        }
        verdict
    }

    /// The result of a request after the flush: `Write` if that failed.
    pub fn served(&self, served: Served) -> Served
        ensures { result ≡ served_after (has_flush_failed self.now) served }
    {
        if self.flush_failed {
            return Served::Fault(Verdict::Write);
        }
        served
    }

    /// Whether the flush failed.
    pub fn is_unflushed(&self) -> bool
        ensures { result ≡ has_flush_failed self.now }
    {
        self.flush_failed
    }

    /// Returns the writer for more bytes.
    pub fn into_writer(self) -> W
        ensures { result ≡ writer_of self }
    {
        let Flushed {
            writer,
            write_failed: _,
            flush_failed: _,
        } = self;
        writer
    }
}
