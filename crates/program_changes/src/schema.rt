//! The option `--schema`: tables from outside, from where on they are these, and what is said of those that don't fit the logs.

ghost use Rattle.std.specs.Prelude.{◌≡◌, not};
ghost use Rattle.program_changes.specs.SchemaPlaces.{BeginsIn, IsBefore};

use changes_commands::{Log, LogOrder, Names, Options, SchemaBeginning, SchemaFile, order_of};
use changes_walks::{FAILED, FilteredNames, SourceStates, USAGE, filter_of};
use std::fs;
use std::io::ErrorKind;
use std::string::String;
use table_schemas::{
    Difference, Misfit, Schema, SchemaFaultKind, SchemaStart, Schemas, read_schema,
};

/// The bytes of a file. The error is the status after one that can't be read.
fn bytes_of(rt: &HostRuntime, path: &str) -> Result<Vec<u8>, u8> {
    match fs::read(rt, path) {
        Ok(text) => Ok(text),
        Err(error) => {
            let why = match error.kind() {
                ErrorKind::NotFound => "there is no such file",
                ErrorKind::OutOfMemory => "out of memory",
                _ => "it can't be read",
            };
            let _ = eprintln!(rt; "binlog-changes: {path}: {why}");
            Err(FAILED)
        }
    }
}

/// The schema in a file. The error is the status after one that can't be read.
fn schema_in(rt: &HostRuntime, path: &str) -> Result<Schema, u8> {
    let text = bytes_of(rt, path)?;
    let mut schema = Schema::new(rt.alloc());
    match read_schema(rt.alloc(), &text, &mut schema) {
        Ok(()) => Ok(schema),
        Err(fault) => {
            let _ = eprintln!(rt; "binlog-changes: {path}: {fault}");
            Err(match fault.kind {
                SchemaFaultKind::Memory => FAILED,
                _ => USAGE,
            })
        }
    }
}

/// Whether it is known that a schema begins before another.
#[tactic(auto, unfolding(crate::specs::SchemaPlaces::IsBefore))]
fn is_before(beginning: SchemaBeginning<'_>, other: SchemaBeginning<'_>) -> bool
    ensures { IsBefore beginning.entry other.entry result }
{
    match (beginning, other) {
        (SchemaBeginning::First, SchemaBeginning::Time(_) | SchemaBeginning::Position(..)) => true,
        (SchemaBeginning::Time(time), SchemaBeginning::Time(other)) => time < other,
        (SchemaBeginning::Position(log, position), SchemaBeginning::Position(other_log, other)) =>
            match order_of(log, other_log) {
                LogOrder::Before => true,
                LogOrder::Same => position < other,
                LogOrder::After | LogOrder::Unknown => false,
            },
        _ => false,
    }
}

/// Whether a schema doesn't begin before an earlier one; if it does, says so.
fn is_after(rt: &impl Eprint, file: SchemaFile<'_>, earlier: SchemaFile<'_>) -> bool
    ensures { IsBefore file.entry.beginning earlier.entry.beginning (not result) }
{
    if !is_before(file.beginning, earlier.beginning) {
        return true;
    }
    let (path, before) = (file.path, earlier.path);
    let _ = eprintln!(rt;
        "binlog-changes: --schema: {path} begins before {before}: schemas have to be given in their order"
    );
    false
}

/// Whether no schema begins before one that was given before it; if one does, says so.
fn are_in_order(rt: &impl Eprint, files: &[SchemaFile<'_>]) -> bool {
    for index in 0..files.len() {
        for before in 0..index {
            if !is_after(rt, files[index], files[before]) {
                return false;
            }
        }
    }
    true
}

/// Whether the names of the logs say where a schema begins: in one of them, or before or after one; if they don't, says so.
fn is_among(rt: &impl Eprint, file: SchemaFile<'_>, logs: &[&str]) -> bool {
    let SchemaBeginning::Position(log, _) = file.beginning else {
        return true;
    };
    for path in logs {
        if order_of(*path, log) != LogOrder::Unknown {
            return true;
        }
    }
    let path = file.path;
    let _ = eprintln!(rt;
        "binlog-changes: --schema: {path} begins in {log}, which by its name is none of the logs, and not before or after one"
    );
    false
}

/// Whether the files of schemas can be used with the logs; if one can't, says why.
fn are_usable(rt: &impl Eprint, options: &Options<'_>) -> bool {
    for file in &options.schemas {
        if !is_among(rt, *file, &options.files) {
            return false;
        }
    }
    are_in_order(rt, &options.schemas)
}

/// Reads the schemas that options name, each from where it begins in a log of another name. The error is the status after one that can't be
/// used or read.
pub(crate) fn schemas_of(rt: &HostRuntime, options: &Options<'_>) -> Result<Schemas, u8> {
    let mut schemas = Schemas::new(rt.alloc());
    if !are_usable(rt, options) {
        return Err(USAGE);
    }
    for file in options.schemas.iter().rev() {
        let schema = schema_in(rt, file.path)?;
        if schemas.add(start_in(file.beginning, ""), schema).is_err() {
            let path = file.path;
            let _ = eprintln!(rt; "binlog-changes: {path}: out of memory");
            return Err(FAILED);
        }
    }
    Ok(schemas)
}

/// Where a schema begins in a log with this name: in a log after that of its position it has its tables from the first event on, and in
/// another it has none.
#[tactic(auto, unfolding(crate::specs::SchemaPlaces::BeginsIn))]
fn start_in(beginning: SchemaBeginning<'_>, name: &str) -> SchemaStart
    ensures { BeginsIn beginning.entry name.now result }
{
    match beginning {
        SchemaBeginning::First => SchemaStart::FIRST,
        SchemaBeginning::Time(time) => SchemaStart { time, position: 0 },
        SchemaBeginning::Position(log, position) => match order_of(name, log) {
            LogOrder::Same => SchemaStart::after(position),
            LogOrder::After => SchemaStart::FIRST,
            LogOrder::Before | LogOrder::Unknown => SchemaStart::NEVER,
        },
    }
}

/// Lets each schema begin where it does in a log.
pub(crate) fn begin_schemas(options: &Options<'_>, log: Log<'_>, sources: &mut SourceStates) {
    for (index, file) in options.schemas.iter().rev().enumerate() {
        sources.begin_schema(index, start_in(file.beginning, log.name()));
    }
}

/// Says how a table of the schema in this file differs from the log's.
fn say_misfit(rt: &impl Eprint, path: &str, misfit: &Misfit) {
    let (Ok(database), Ok(table)) = (
        std::str::from_utf8(&misfit.database),
        std::str::from_utf8(&misfit.table),
    ) else {
        return;
    };
    match misfit.difference {
        Difference::OtherCount(count) => {
            let columns = misfit.columns;
            let _ = eprintln!(rt;
                "binlog-changes: {path}: the schema isn't used for {database}.{table}: number of columns there: {columns}, in the log: {count}"
            );
        }
        Difference::OtherType(column) => {
            let column = column.saturating_add(1);
            let _ = eprintln!(rt;
                "binlog-changes: {path}: the schema isn't used for {database}.{table}: column {column} has another type in the log"
            );
        }
    }
}

/// Says of each table that options select and that doesn't fit the logs what differs.
pub(crate) fn say_misfits(rt: &HostRuntime, options: &Options<'_>, schemas: &Schemas) {
    let names = FilteredNames(filter_of(options));
    for misfit in schemas.misfits() {
        if names.takes_table(&misfit.database, &misfit.table)
            && let Some(file) = options.schemas.iter().rev().nth(misfit.schema)
        {
            say_misfit(rt, file.path, misfit);
        }
    }
}
