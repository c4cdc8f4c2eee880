//! The output: text in large pieces.

ghost use Rattle.std.specs.Prelude.{None};

use std::io::{self, ErrorKind, Write};

/// How writing ended.
#[derive(Clone, Copy)]
pub enum Written {
    All,
    /// Whoever read the output has gone.
    Closed,
    Failed,
}

/// Why a command prints no more.
#[derive(Clone, Copy)]
pub enum Failure {
    /// Whoever read the output has gone.
    Closed,
    /// Writing failed.
    Unwritten,
    /// Out of memory.
    Memory,
}

/// Writes bytes on standard output.
pub fn write(rt: &HostRuntime, bytes: &[u8]) -> Written {
    if bytes.is_empty() {
        return Written::All;
    }
    match io::writer(rt).write_all(bytes) {
        Ok(()) => Written::All,
        Err(error) if error.kind() == ErrorKind::BrokenPipe => Written::Closed,
        Err(_) => Written::Failed,
    }
}

/// Standard output, which remembers whether its reader has gone.
#[derive(Drop)]
pub struct Output<'r> {
    rt: &'r HostRuntime,
    is_closed: bool,
}

impl<'r> Output<'r> {
    /// Standard output, whose reader is there.
    pub fn new(rt: &'r HostRuntime) -> Output<'r> {
        Output {
            rt,
            is_closed: false,
        }
    }

    /// Whether its reader has gone.
    pub fn is_closed(&self) -> bool {
        self.is_closed
    }
}

impl Write for Output<'_> {
    ghost contents = { λ w. None };

    fn write(&mut self, buf: &[u8]) -> io::Result<usize> {
        match io::writer(self.rt).write(buf) {
            Ok(len) => Ok(len),
            Err(error) => {
                self.is_closed = error.kind() == ErrorKind::BrokenPipe;
                Err(error)
            }
        }
    }

    fn flush(&mut self) -> io::Result<()> {
        io::writer(self.rt).flush()
    }
}
