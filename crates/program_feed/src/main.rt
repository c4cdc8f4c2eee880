//! The program `binlog-feed`: the committed transactions of a binary log as text, from a file or over a connection.
//!
//! Each command is a function over any reader and any writer, whose contract says what is written, with which status and which word
//! for standard error it ends. This file reads the words, opens the files, and prints the word.
#![tactic(auto)]

mod endings;
mod following;
mod inputs;
mod outputs;
mod rehearsing;
mod reporting;
mod requesting;
mod serving;

use endings::Ending;
use following::write_followed;
use rehearsing::write_rehearsal;
use reporting::write_report;
use requesting::write_request;
use serving::{Replica, write_answer};
use std::alloc::Global;
use std::env;
use std::fs::File;
use std::io::{self, BufWriter, ErrorKind, Read};
use std::process::ExitCode;
use std::rt::{Env, Files};
use wire_buf::Watched;

/// The buffer size for writing standard output, in bytes.
const BUFFER_LEN: usize = 262_144;

/// The ending for other words than those of a command.
const USAGE: Ending = Ending::Failure("Usage");

/// The ending if memory for the words or for a buffer can't be had.
const MEMORY: Ending = Ending::Failure("Memory");

/// A binary log of one transaction that inserts one row.
const ONE_INSERT: [u8; 142] = [
    0xfe, 0x62, 0x69, 0x6e, 0x00, 0x00, 0x00, 0x00, 0x02, 0x01, 0x00, 0x00, 0x00, 0x26, 0x00, 0x00,
    0x00, 0x2a, 0x00, 0x00, 0x00, 0x00, 0x00, 0x01, 0x00, 0x00, 0x00, 0x00, 0x00, 0x00, 0x00, 0x00,
    0x00, 0x00, 0x00, 0x00, 0x00, 0x42, 0x45, 0x47, 0x49, 0x4e, 0x00, 0x00, 0x00, 0x00, 0x13, 0x01,
    0x00, 0x00, 0x00, 0x25, 0x00, 0x00, 0x00, 0x4f, 0x00, 0x00, 0x00, 0x00, 0x00, 0x07, 0x00, 0x00,
    0x00, 0x00, 0x00, 0x01, 0x00, 0x01, 0x64, 0x00, 0x01, 0x74, 0x00, 0x01, 0x03, 0x00, 0x01, 0x00,
    0x00, 0x00, 0x00, 0x1e, 0x01, 0x00, 0x00, 0x00, 0x24, 0x00, 0x00, 0x00, 0x73, 0x00, 0x00, 0x00,
    0x00, 0x00, 0x07, 0x00, 0x00, 0x00, 0x00, 0x00, 0x01, 0x00, 0x02, 0x00, 0x01, 0x01, 0x00, 0x05,
    0x00, 0x00, 0x00, 0x00, 0x00, 0x00, 0x00, 0x10, 0x01, 0x00, 0x00, 0x00, 0x1b, 0x00, 0x00, 0x00,
    0x8e, 0x00, 0x00, 0x00, 0x00, 0x00, 0x0b, 0x00, 0x00, 0x00, 0x00, 0x00, 0x00, 0x00,
];

/// Prints the word of an ending on standard error, and returns the status.
fn exit(rt: &impl Eprint, ending: Ending) -> ExitCode {
    match ending {
        Ending::Success => ExitCode::SUCCESS,
        Ending::Failure(word) => {
            let _ = eprintln!(rt; "{word}");
            ExitCode::FAILURE
        }
    }
}

/// Opens a file for reading. The error's word is `Memory` or `Open`.
fn open<P: Files>(rt: &P, path: &str) -> Result<Watched<P::File>, Ending> {
    match File::open(rt, path) {
        Ok(file) => Ok(Watched::new(file)),
        Err(error) if error.kind() == ErrorKind::OutOfMemory => Err(MEMORY),
        Err(_) => Err(Ending::Failure("Open")),
    }
}

/// Reports the bytes of a reader to standard output.
fn report<P: Print, R: Read + Drop>(rt: &P, alloc: Global, mut reader: Watched<R>) -> Ending {
    let (ending, _) = write_report(alloc, &mut reader, io::writer(rt));
    ending
}

/// Serves a file under a name. Standard input is the request.
fn serve(
    rt: &HostRuntime,
    alloc: Global,
    replica: Replica,
    path: &str,
    name: &str,
) -> Result<Ending, Ending> {
    let mut reader = open(rt, path)?;
    let mut input = Watched::new(rt.reader());
    let (ending, _) = write_answer(
        alloc,
        replica,
        name.as_bytes(),
        &mut input,
        &mut reader,
        io::writer(rt),
    );
    Ok(ending)
}

/// Rehearses a file.
fn rehearse(
    rt: &HostRuntime,
    alloc: Global,
    path: &str,
    counts: &[String],
) -> Result<Ending, Ending> {
    let counts = counts_of(alloc, counts)?;
    let mut reader = open(rt, path)?;
    let Ok(out) = BufWriter::with_capacity(alloc, BUFFER_LEN, io::writer(rt)) else {
        return Err(MEMORY);
    };
    let (ending, _) = write_rehearsal(alloc, &counts, &mut reader, out);
    Ok(ending)
}

/// Writes a request to standard output.
fn request<P: Print>(
    rt: &P,
    alloc: Global,
    position: &str,
    server: &str,
    name: &str,
) -> Result<Ending, Ending> {
    let (Some(position), Some(server)) = (number(position), number(server)) else {
        return Err(USAGE);
    };
    let (ending, _) = write_request(alloc, position, server, name.as_bytes(), io::writer(rt));
    Ok(ending)
}

/// Follows the packets of standard input.
fn follow(rt: &HostRuntime, alloc: Global) -> Result<Ending, Ending> {
    let Ok(out) = BufWriter::with_capacity(alloc, BUFFER_LEN, io::writer(rt)) else {
        return Err(MEMORY);
    };
    let (ending, _) = write_followed(alloc, &mut Watched::new(rt.reader()), out);
    Ok(ending)
}

/// Whether a word has only decimal digits.
fn is_digits(word: &str) -> bool {
    word.bytes().all(|byte| byte.is_ascii_digit())
}

/// Reads a word of one or more decimal digits, at most 4,294,967,295.
fn number(word: &str) -> Option<u32> {
    if !is_digits(word) {
        return None;
    }
    word.parse().ok()
}

/// Reads words of one or more decimal digits, at most 18,446,744,073,709,551,615 each. The error's word is `Usage` or `Memory`.
fn counts_of(alloc: Global, words: &[String]) -> Result<Vec<usize>, Ending> {
    let mut counts = Vec::new(alloc);
    for word in words {
        let word = word.as_str();
        if !is_digits(word) {
            return Err(USAGE);
        }
        let Ok(count) = word.parse::<usize>() else {
            return Err(USAGE);
        };
        if counts.push(count).is_err() {
            return Err(MEMORY);
        }
    }
    Ok(counts)
}

/// Runs the command that the words name.
fn run(rt: &HostRuntime, words: &[String]) -> Result<Ending, Ending> {
    let alloc = rt.alloc();
    let Some((command, words)) = words.split_first() else {
        return Ok(report(rt, alloc, Watched::new(&ONE_INSERT[..])));
    };
    match (command.as_str(), words) {
        ("report", [path]) => Ok(report(rt, alloc, open(rt, path.as_str())?)),
        ("request", [position, server, name]) => request(
            rt,
            alloc,
            position.as_str(),
            server.as_str(),
            name.as_str(),
        ),
        ("serve", [path, name]) => {
            serve(rt, alloc, Replica::Plain, path.as_str(), name.as_str())
        }
        ("serve-semi", [path, name]) => {
            serve(rt, alloc, Replica::SemiSync, path.as_str(), name.as_str())
        }
        ("follow", []) => follow(rt, alloc),
        ("rehearse", [path, counts @ ..]) => rehearse(rt, alloc, path.as_str(), counts),
        _ => Err(USAGE),
    }
}

/// The words after the program's name. The error's word is `Memory` or `Usage`.
fn words_of(rt: &HostRuntime) -> Result<Vec<String>, Ending> {
    let words = match env::args(rt) {
        Ok(words) => words,
        Err(error) if error.kind() == ErrorKind::OutOfMemory => return Err(MEMORY),
        Err(_) => return Err(USAGE),
    };
    words
        .skip(1)
        .collect::<Vec<String>>(rt.alloc())
        .map_err(|_| MEMORY)
}

fn main(rt: HostRuntime) -> ExitCode {
    let outcome = match words_of(&rt) {
        Ok(words) => run(&rt, &words),
        Err(ending) => Err(ending),
    };
    match outcome {
        Ok(ending) => exit(&rt, ending),
        Err(ending) => exit(&rt, ending),
    }
}
