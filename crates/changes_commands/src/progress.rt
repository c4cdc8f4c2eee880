//! How far a long log was read, for people.

use crate::text::Text;
use std::alloc::Global;
use std::fs::File;
use std::io::{IsTerminal, Write};

/// After how many bytes of a log it is said again.
const STEP: u32 = 0x100_0000;

/// Says how far a log was read, on standard error, if that is a terminal and standard output isn't.
#[derive(Drop)]
pub struct Progress<'p> {
    alloc: Global,
    path: &'p str,
    terminal: Option<File>,
    /// The position from which it is said again.
    next: u32,
}

/// Opens a standard stream, if it is a terminal.
fn terminal(rt: &HostRuntime, path: &str) -> Option<File> {
    match File::options().write(true).open(rt, path) {
        Ok(file) if file.is_terminal() => Some(file),
        _ => None,
    }
}

impl<'p> Progress<'p> {
    /// Of the log at this path.
    pub fn new(rt: &HostRuntime, path: &'p str) -> Progress<'p> {
        let terminal = match terminal(rt, "/dev/stdout") {
            Some(_) => None,
            None => terminal(rt, "/dev/stderr"),
        };
        Progress {
            alloc: rt.alloc(),
            path,
            terminal,
            next: STEP,
        }
    }

    /// Writes on the terminal, in place of what it says. Failures don't matter.
    fn say(&mut self, text: &[u8]) {
        if let Some(file) = &mut self.terminal {
            let _ = file.write_all(b"\r\x1b[K");
            let _ = file.write_all(text);
        }
    }

    /// The log was read up to this position.
    #[inline(always)]
    pub fn at(&mut self, position: u32) {
        if position >= self.next {
            self.next = position.saturating_add(STEP);
            self.say_position(position);
        }
    }

    /// Says up to which position the log was read.
    fn say_position(&mut self, position: u32) {
        let mut text = Text::new(self.alloc);
        text.words(self.path);
        text.words(": ");
        text.unsigned(u64::from(position / 1_000_000));
        text.words(" MB");
        self.say(text.bytes());
    }

    /// Nothing more is read.
    pub fn end(&mut self) {
        if self.next > STEP {
            self.say(b"");
        }
    }
}
