//! Readers and writers that remember whether they failed.

ghost use Rattle.std.specs.Prelude.{◌≡◌, ◌≢◌, ◌<◌, ◌≤◌, ◌+◌, ◌⊎◌, OnOk, OnErr, IfErr, true, false};
ghost use Rattle.std.specs.Io.KnownBytes.{ReadConsumes, WriteAppends};
ghost use Rattle.std.specs.IoError.{error_kind};
ghost use Rattle.std.specs.Io.{ReadsAtMost, WritesAtMost};
ghost use Rattle.wire_buf.specs.Watched.{inner_of, reads_of, has_failed, TakesSome};

use crate::reading::MAX_READS;
use crate::writing::MAX_WRITES;
use std::io::{self, ErrorKind, Read, Write};

/// A reader or a writer that counts its reads and remembers whether one of its calls failed.
#[derive(Drop)]
pub struct Watched<T> {
    inner: T,
    reads: u64,
    failed: bool,
}

impl<T> Watched<T> {
    /// Wraps a reader or a writer, which hasn't failed yet.
    pub fn new(inner: T) -> Watched<T>
        ensures inner { inner_of result ≡ inner }
        ensures reads { reads_of result ≡ 0 }
        ensures failed { has_failed result ≡ false }
    {
        Watched {
            inner,
            reads: 0,
            failed: false,
        }
    }

    /// Returns whether a read or a write failed.
    pub fn failed(&self) -> bool
        ensures { result ≡ has_failed self.now }
    {
        self.failed
    }

    /// Returns the reader or the writer.
    pub fn into_inner(self) -> T
        ensures { result ≡ inner_of self }
    {
        let Watched {
            inner,
            reads: _,
            failed: _,
        } = self;
        inner
    }
}

impl<R: Read> Watched<R> {
    /// Reads once, and returns the number of bytes read.
    ///
    /// The read is counted; after 2^63 - 1 reads it reads nothing and fails. It returns the read's error if the read fails. An
    /// interrupted read isn't a failure: [`Watched::pull_uninterrupted`] tries it again.
    #[inline(always)]
    pub fn pull(&mut self, buf: &mut [u8]) -> io::Result<usize>
        ensures bound { ReadsAtMost result buf.new }
        ensures bytes { ReadConsumes (R.remaining (inner_of self.old)) (R.remaining (inner_of self.new)) result buf.new }
        ensures counted { reads_of self.old < MAX_READS → reads_of self.new ≡ reads_of self.old + 1 }
        ensures limited { OnOk result (reads_of self.old < MAX_READS) }
        ensures spent { MAX_READS ≤ reads_of self.old → (inner_of self.new ≡ inner_of self.old) × (reads_of self.new ≡ reads_of self.old) }
        ensures ended { MAX_READS ≤ reads_of self.old → IfErr result (λ e. error_kind e ≢ ErrorKind.Interrupted) }
        ensures err { IfErr result (λ e. ((error_kind e ≢ ErrorKind.Interrupted) × (has_failed self.new ≡ true)) ⊎ ((error_kind e ≡ ErrorKind.Interrupted) × (has_failed self.new ≡ has_failed self.old))) }
        ensures ok { OnOk result (has_failed self.new ≡ has_failed self.old) }
    {
        if self.reads >= MAX_READS {
            self.failed = true;
            return Err(io::Error::from(ErrorKind::Other));
        }
        self.reads += 1;
        match self.inner.read(buf) {
            Ok(taken) => Ok(taken),
            Err(error) => {
                if error.kind() != ErrorKind::Interrupted {
                    self.failed = true;
                }
                Err(error)
            }
        }
    }

    /// Pulls, and again each time that the read is interrupted. Returns the number of bytes read.
    ///
    /// Each read is counted; after 2^63 - 1 of them it fails. It fails if a read fails, with the read's error.
    pub fn pull_uninterrupted(&mut self, buf: &mut [u8]) -> io::Result<usize>
        ensures bound { ReadsAtMost result buf.new }
        ensures bytes { ReadConsumes (R.remaining (inner_of self.old)) (R.remaining (inner_of self.new)) result buf.new }
        ensures counted { reads_of self.old < MAX_READS → (reads_of self.old < reads_of self.new) × (reads_of self.new ≤ MAX_READS) }
        ensures limited { OnOk result (reads_of self.old < MAX_READS) }
        ensures spent { MAX_READS ≤ reads_of self.old → (inner_of self.new ≡ inner_of self.old) × (reads_of self.new ≡ reads_of self.old) }
        ensures err { OnErr result (has_failed self.new ≡ true) }
        ensures ok { OnOk result (has_failed self.new ≡ has_failed self.old) }
        ensures retried { IfErr result (λ e. error_kind e ≢ ErrorKind.Interrupted) }
    {
        'reads: loop {
            match self.pull(buf) {
                Ok(taken) => return Ok(taken),
                Err(error) => {
                    if error.kind() != ErrorKind::Interrupted {
                        return Err(error);
                    }
                }
            }
        }
    }
}

impl<W: Write> Watched<W> {
    /// Writes once, and returns the number of bytes written. A write that takes no byte although there are some is a failure.
    ///
    /// It returns the write's error if the write fails. An interrupted write isn't a failure: [`Watched::push_uninterrupted`]
    /// tries it again.
    #[inline(always)]
    pub fn push(&mut self, bytes: &[u8]) -> io::Result<usize>
        ensures bound { WritesAtMost result bytes.now }
        ensures bytes { WriteAppends (W.contents (inner_of self.old)) (W.contents (inner_of self.new)) result bytes.now }
        ensures some { TakesSome result bytes.now }
        ensures reads { reads_of self.new ≡ reads_of self.old }
        ensures err { IfErr result (λ e. ((error_kind e ≢ ErrorKind.Interrupted) × (has_failed self.new ≡ true)) ⊎ ((error_kind e ≡ ErrorKind.Interrupted) × (has_failed self.new ≡ has_failed self.old))) }
        ensures ok { OnOk result (has_failed self.new ≡ has_failed self.old) }
    {
        match self.inner.write(bytes) {
            Ok(taken) => {
                if taken == 0 && !bytes.is_empty() {
                    self.failed = true;
                    return Err(io::Error::from(ErrorKind::WriteZero));
                }
                Ok(taken)
            }
            Err(error) => {
                if error.kind() != ErrorKind::Interrupted {
                    self.failed = true;
                }
                Err(error)
            }
        }
    }

    /// Pushes, and again each time that the write is interrupted, up to 2^63 - 1 times. Returns the number of bytes written. A
    /// write that fails, or that takes no byte although there are some, is a failure.
    pub fn push_uninterrupted(&mut self, bytes: &[u8]) -> io::Result<usize>
        ensures bound { WritesAtMost result bytes.now }
        ensures bytes { WriteAppends (W.contents (inner_of self.old)) (W.contents (inner_of self.new)) result bytes.now }
        ensures some { TakesSome result bytes.now }
        ensures reads { reads_of self.new ≡ reads_of self.old }
        ensures err { OnErr result (has_failed self.new ≡ true) }
        ensures ok { OnOk result (has_failed self.new ≡ has_failed self.old) }
        ensures retried { IfErr result (λ e. error_kind e ≢ ErrorKind.Interrupted) }
    {
        'writes: for _write in 0..MAX_WRITES {
            match self.push(bytes) {
                Ok(taken) => return Ok(taken),
                Err(error) => {
                    if error.kind() != ErrorKind::Interrupted {
                        return Err(error);
                    }
                }
            }
        }
        self.failed = true;
        Err(io::Error::from(ErrorKind::Other))
    }
}
