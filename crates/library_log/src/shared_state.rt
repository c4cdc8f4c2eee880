//! What a log borrows while it is open: what its options say, and what its sources of events keep.

ghost use Rattle.std.specs.Prelude.{◌≡◌, [], IfOk, length};
ghost use Rattle.table_schemas.specs.CompletedMaps.{tables_of};

use crate::options::{LogOptions, OptionsFault};
use crate::source_state::SourceState;
use std::alloc::Global;
use table_schemas::{Schema, SchemaFault, SchemaFaultKind, SchemaStart, Schemas, read_schema};

/// Why a log can't be opened.
#[derive(Clone, Copy, Debug, PartialEq, Eq)]
pub enum OpenFault {
    /// Its options can't be taken, or out of memory.
    Options(OptionsFault),
    /// Its schema can't be read, and why: a line, and what is wrong with it.
    Schema(SchemaFault),
}

/// What a log borrows while it is open: its options, and what its sources of events keep.
#[derive(Drop)]
pub struct SharedState {
    pub(crate) options: LogOptions<'static>,
    pub(crate) sources: SourceState,
}

impl OpenFault {
    /// Out of memory.
    const MEMORY: OpenFault = OpenFault::Options(OptionsFault::Memory);

    /// Why a schema's text can't be read, or out of memory.
    fn of(fault: SchemaFault) -> OpenFault {
        match fault.kind {
            SchemaFaultKind::Memory => OpenFault::MEMORY,
            _ => OpenFault::Schema(fault),
        }
    }
}

/// The schemas of a text, which begin before all events; none for no bytes.
fn schemas_of(alloc: Global, text: &[u8]) -> Result<Schemas, OpenFault>
    ensures { length text.now ≡ 0 → IfOk result (λ schemas. tables_of schemas ≡ []) }
{
    let mut schemas = Schemas::new(alloc);
    if text.is_empty() {
        return Ok(schemas);
    }
    let mut schema = Schema::new(alloc);
    if let Err(fault) = read_schema(alloc, text, &mut schema) {
        return Err(OpenFault::of(fault));
    }
    match schemas.add(SchemaStart::FIRST, schema) {
        Ok(()) => Ok(schemas),
        Err(_) => Err(OpenFault::MEMORY),
    }
}

impl SharedState {
    ghost use Rattle.library_log.specs.ReadLogs.{tables_for};

    /// The state of a log that isn't open yet, by the text of its options, and by that of a schema that completes its table maps; none for
    /// no bytes.
    ///
    /// - `Options`: the errors of [`LogOptions::of`], and out of memory.
    /// - `Schema`: the schema can't be read.
    pub fn new(
        alloc: Global,
        options: &'static [u8],
        schema: &[u8],
    ) -> Result<SharedState, OpenFault>
        ensures { length schema.now ≡ 0 → IfOk result (λ s. tables_for s ≡ []) }
    {
        let options = match LogOptions::of(alloc, options) {
            Ok(options) => options,
            Err(fault) => return Err(OpenFault::Options(fault)),
        };
        let schemas = schemas_of(alloc, schema)?;
        let sources = SourceState::new(alloc, options.max_transaction as usize, schemas);
        Ok(SharedState { options, sources })
    }
}
