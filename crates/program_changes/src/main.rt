//! The program `binlog-changes`: committed changes as JSON lines, whether logs are whole, and their events.
//!
//! The status is 0 if all logs are whole, 1 if one isn't, 2 for a wrong command line, and 3 if reading or writing failed or
//! memory ran out. It ends quietly if the reader of its output closes it.
#![tactic(auto)]

mod changes;
mod checking;
mod follow;
mod follow_formats;
mod follow_messages;
mod formats;
mod outcomes;
mod parts;
mod printer;
mod reached;
mod run;
mod schema;
mod sql;
mod stats;

use changes_commands::{Refused, parse};
use std::env;
use std::io::ErrorKind;
use std::process::ExitCode;
use std::rt::Env;

/// Says why the command line can't be used.
fn refuse(rt: &HostRuntime, refused: Refused) -> ExitCode {
    match refused {
        Refused::Words(error) => {
            let _ = error.print(rt);
            ExitCode::from(error.exit_code() as u8)
        }
        Refused::Value(option) => {
            let example = Refused::example(option);
            let _ = eprintln!(rt; "binlog-changes: --{option} wants a value such as {example}");
            ExitCode::from(2)
        }
        Refused::OwnLines(option) => {
            let _ = eprintln!(rt; "binlog-changes: --{option} has no meaning with --format");
            ExitCode::from(2)
        }
        Refused::NoCommand => {
            let _ = eprintln!(rt;
                "binlog-changes: the commands are json, sql, undo, stats, check, events, follow and plain"
            );
            ExitCode::from(2)
        }
        Refused::Memory => {
            let _ = eprintln!(rt; "binlog-changes: out of memory");
            ExitCode::from(3)
        }
    }
}

fn main(rt: HostRuntime) -> ExitCode {
    let words = match env::args(&rt) {
        Ok(words) => words,
        Err(error) if error.kind() == ErrorKind::OutOfMemory => return refuse(&rt, Refused::Memory),
        Err(_) => {
            let _ = eprintln!(&rt; "binlog-changes: the arguments can't be read");
            return ExitCode::from(2);
        }
    };
    let Ok(words) = words.collect::<Vec<String>>(rt.alloc()) else {
        return refuse(&rt, Refused::Memory);
    };
    match parse(&rt, &words) {
        Ok(options) => run::run(&rt, options),
        Err(refused) => refuse(&rt, refused),
    }
}
