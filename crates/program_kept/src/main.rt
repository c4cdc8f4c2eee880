//! The program `binlog-kept`: finds the complete transactions of truncated output, and the position to resume from.
//!
//! Standard input is a text of the feed, which may be truncated anywhere; it is read in pieces. Standard output is the length in
//! bytes of the complete transactions, a space, the position after the last of them, or the first event's if there is none, and a
//! line feed. With `--json` standard input, or the file that is named after it, has JSON lines of `binlog-changes json`, and a space
//! and the name of its log follow the position. On an error standard error has `Usage`, `Open`, `Read`, `Memory`, `Write` or `Line`,
//! and the status is 1. `--help` and `--version` print what the program says of itself.
#![tactic(auto)]

mod finding;
mod finding_json;
mod help;
mod writing;

use finding::{Failure, write_kept};
use finding_json::write_kept_json;
use help::{HELP, VERSION};
use std::env;
use std::fs::File;
use std::io::{self, ErrorKind, Write};
use std::process::ExitCode;
use wire_buf::Watched;
use writing::put_all;

/// The words after the program's name. `Usage`: one isn't text. `Memory`: out of memory.
fn words_of(rt: &HostRuntime) -> Result<Vec<String>, Failure> {
    let words = match env::args(rt) {
        Ok(words) => words,
        Err(error) if error.kind() == ErrorKind::OutOfMemory => return Err(Failure::Memory),
        Err(_) => return Err(Failure::Usage),
    };
    words
        .skip(1)
        .collect::<Vec<String>>(rt.alloc())
        .map_err(|_| Failure::Memory)
}

/// Writes the line for standard input, or for a file, to standard output. `Usage`: the words are none that the program takes. `Open`:
/// the file can't be opened.
fn run(rt: &HostRuntime) -> Result<(), Failure> {
    let words = words_of(rt)?;
    let mut output = Watched::new(io::writer(rt));
    match words.as_slice() {
        [] => write_kept(rt.alloc(), &mut Watched::new(rt.reader()), &mut output),
        [option] if option.as_str() == "--json" => {
            write_kept_json(rt.alloc(), &mut Watched::new(rt.reader()), &mut output)
        }
        [option] if option.as_str() == "--help" => put_all(&mut output, HELP.as_bytes()),
        [option] if option.as_str() == "--version" => put_all(&mut output, VERSION.as_bytes()),
        [option, path] if option.as_str() == "--json" => match File::open(rt, path) {
            Ok(file) => write_kept_json(rt.alloc(), &mut Watched::new(file), &mut output),
            Err(_) => Err(Failure::Open),
        },
        _ => Err(Failure::Usage),
    }?;
    match output.into_inner().flush() {
        Ok(()) => Ok(()),
        Err(_) => Err(Failure::Write),
    }
}

fn main(rt: HostRuntime) -> ExitCode {
    match run(&rt) {
        Ok(()) => ExitCode::SUCCESS,
        Err(failure) => {
            let _ = eprintln!(&rt; "{}", failure.name());
            ExitCode::FAILURE
        }
    }
}
