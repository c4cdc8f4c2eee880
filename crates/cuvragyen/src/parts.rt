//! Opening and closing: what a log borrows, and the log.

ghost use Rattle.std.specs.Prelude.{◌≡◌, [], None, Some, length};
ghost use Rattle.cuvragyen.specs.Exports.{HasNew, HasState, HasTables, OpensBy};

use crate::handle::Handle;
use crate::numbers::{BAD_SCHEMA, CLOSED, MEMORY, OK, number_of_fault};
use library_log::{OpenFault, Part, ReadLog, SharedState};
use std::alloc::Global;
use std::mem::replace;

/// Reads the options of a log that is to be opened, and its schema, if it has any bytes. If the schema can't be read, says in which line.
#[unsafe(no_mangle)]
pub extern "C" fn cuvragyen_state_open(
    alloc: Global,
    state: &mut Handle,
    options: &'static [u8],
    schema: &[u8],
    line: &mut u64,
) -> u32
    ensures opened { result ≡ 0 → HasState state.new.value }
    ensures kept { (result ≡ 0 → ⊥) → state.new.value ≡ state.old.value }
    ensures none { length schema.now ≡ 0 → result ≡ 0 → HasTables state.new.value [] }
    ensures line { (result ≡ 6 → ⊥) → line.new ≡ line.old }
{
    let made = match SharedState::new(alloc, options, schema) {
        Ok(made) => made,
        Err(OpenFault::Schema(fault)) => {
            *line = fault.line;
            return BAD_SCHEMA;
        }
        Err(OpenFault::Options(fault)) => return number_of_fault(fault),
    };
    let Some(made) = Box::new(alloc, Part::State(made)).ok() else {
        return MEMORY;
    };
    drop(replace(state, Handle::open(made)));
    OK
}

/// Opens a log that borrows a state for good, and leaves the state's handle closed.
#[unsafe(no_mangle)]
pub extern "C" fn cuvragyen_log_open(alloc: Global, log: &mut Handle, state: &mut Handle) -> u32
    ensures opened { result ≡ 0 → HasNew log.new.value }
    ensures schema { result ≡ 0 → OpensBy state.old.value log.new.value }
    ensures kept { (result ≡ 0 → ⊥) → log.new.value ≡ log.old.value }
    ensures state { state.new.value ≡ None }
{
    let Some(part) = replace(state, Handle::closed(alloc)).into_part() else {
        return CLOSED;
    };
    let Part::State(state) = Box::leak(part) else {
        return CLOSED;
    };
    let Ok(made) = ReadLog::new(alloc, state) else {
        return MEMORY;
    };
    let Some(made) = Box::new(alloc, Part::Log(made)).ok() else {
        return MEMORY;
    };
    drop(replace(log, Handle::open(made)));
    OK
}

/// Closes a handle, and frees what it has.
#[unsafe(no_mangle)]
pub extern "C" fn cuvragyen_part_close(alloc: Global, part: &mut Handle)
    ensures { part.new.value ≡ None }
{
    drop(replace(part, Handle::closed(alloc)));
}
