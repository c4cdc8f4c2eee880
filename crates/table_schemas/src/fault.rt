//! Why a file isn't a schema.

ghost use Rattle.std.specs.Prelude.{◌≡◌};

use std::alloc::{AllocError, AllocFailed};
use thiserror::Error;

/// What is wrong with a line of a schema's file.
#[derive(Clone, Copy, Debug, PartialEq, Eq, Error)]
pub enum SchemaFaultKind {
    /// It is the first line, and doesn't name the columns of a schema.
    #[error("it doesn't name the columns database, table, position, column, type, collation, key_position and key_prefix, and is no JSON object")]
    Header,
    /// It hasn't eight cells.
    #[error("it hasn't eight cells with tabs between them")]
    Cells,
    /// A backslash isn't followed by t, n, 0 or a backslash.
    #[error("a backslash is followed by another letter than t, n, 0 or a backslash")]
    Escape,
    /// It isn't a JSON object with these members.
    #[error("it isn't a JSON object with the members database, table, position, column and type")]
    Json,
    /// A position, a collation or a place in a key isn't a number, or too large.
    #[error("a position, a collation, or a column's place or prefix in the key, isn't a number, or is too large")]
    Number,
    /// The name of a database or a table is empty or longer than 255 bytes.
    #[error("the name of the database or the table is empty, or longer than 255 bytes")]
    Name,
    /// The type of a column can't be read.
    #[error("the type can't be read")]
    Type,
    /// The columns of a table aren't in their order.
    #[error("the columns of the table aren't in their order, each once")]
    Position,
    /// The columns of a primary key haven't the places 1, 2 and so on.
    #[error("the places in the primary key of the table before it aren't 1, 2 and so on, each once")]
    Key,
    /// The columns of a table aren't one after the other.
    #[error("the table before it was there already")]
    Twice,
    /// There is no table.
    #[error("there is no table")]
    Empty,
    /// Out of memory.
    #[error("out of memory")]
    Memory,
}

impl From<AllocError> for SchemaFaultKind {
    ghost use Rattle.table_schemas.specs.declared.fault.SchemaFaultKind.TheVariants.{Memory};

    ghost from_gives = { λ _ e. e ≡ Memory };

    fn from(_: AllocError) -> SchemaFaultKind {
        SchemaFaultKind::Memory
    }
}

impl<T: Drop> From<AllocFailed<T>> for SchemaFaultKind {
    ghost use Rattle.table_schemas.specs.declared.fault.SchemaFaultKind.TheVariants.{Memory};

    ghost from_gives = { λ _ e. e ≡ Memory };

    fn from(_: AllocFailed<T>) -> SchemaFaultKind {
        SchemaFaultKind::Memory
    }
}

/// What is wrong with a schema's file, and with which line.
#[derive(Clone, Copy, Debug, PartialEq, Eq, Error)]
#[error("line {line}: {kind}")]
pub struct SchemaFault {
    /// The number of the line, from 1 on.
    pub line: u64,
    pub kind: SchemaFaultKind,
}
