//! Why a change has no statement.

ghost use Rattle.std.specs.Prelude.{◌≡◌};

use std::alloc::{AllocError, AllocFailed};
use thiserror::Error;

/// Why a change has no statement that makes it, or takes it back, exactly.
#[derive(Clone, Copy, Debug, PartialEq, Eq, Error)]
pub enum NoStatement {
    #[error("out of memory")]
    Memory,
    #[error("a row can't be read")]
    Row,
    #[error("the log doesn't name the columns of the table: the server names them with binlog_row_metadata=FULL, and --schema has them from a file")]
    Names,
    #[error("the table's columns changed in between")]
    OtherColumns,
    #[error("the log doesn't have all columns of the row: the server logs them with binlog_row_image=FULL")]
    Columns,
    #[error("a JSON document was updated in part: the server logs whole documents without binlog_row_value_options=PARTIAL_JSON")]
    PartialUpdate,
    #[error("a JSON document has a decimal, a time or bytes, which JSON text doesn't have")]
    Document,
    #[error("a float isn't a number")]
    Float,
    #[error("a statement can't be taken back")]
    Statement,
}

impl From<AllocError> for NoStatement {
    ghost use Rattle.changes_statements.specs.declared.no_statement.NoStatement.TheVariants.{Memory};

    ghost from_gives = { λ _ r. r ≡ Memory };

    fn from(_error: AllocError) -> NoStatement {
        NoStatement::Memory
    }
}

impl<T: Drop> From<AllocFailed<T>> for NoStatement {
    ghost use Rattle.changes_statements.specs.declared.no_statement.NoStatement.TheVariants.{Memory};

    ghost from_gives = { λ _ r. r ≡ Memory };

    fn from(_error: AllocFailed<T>) -> NoStatement {
        NoStatement::Memory
    }
}
