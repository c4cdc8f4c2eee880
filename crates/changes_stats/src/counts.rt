//! How many rows there are, and how many transactions.

ghost use Rattle.std.specs.Prelude.{◌≡◌};
ghost use Rattle.changes_stats.specs.RowSums.{all_rows, of_event, plus, with_transaction};

use rows_event_body::RowImages;

/// How many rows were inserted, deleted and updated, and the bytes of their events. Each stays at 2^64 - 1 once it is there.
#[derive(Clone, Copy)]
pub struct RowCounts {
    pub inserted: u64,
    pub deleted: u64,
    pub updated: u64,
    pub bytes: u64,
}

impl RowCounts {
    /// No rows.
    pub const NONE: RowCounts = RowCounts {
        inserted: 0,
        deleted: 0,
        updated: 0,
        bytes: 0,
    };

    /// Returns the number of all rows.
    pub fn rows(self) -> u64
        ensures { result ≡ all_rows self }
    {
        self.inserted
            .saturating_add(self.deleted)
            .saturating_add(self.updated)
    }

    /// Returns these rows and other ones.
    pub fn plus(self, other: RowCounts) -> RowCounts
        ensures { result ≡ plus self other }
    {
        RowCounts {
            inserted: self.inserted.saturating_add(other.inserted),
            deleted: self.deleted.saturating_add(other.deleted),
            updated: self.updated.saturating_add(other.updated),
            bytes: self.bytes.saturating_add(other.bytes),
        }
    }

    /// Returns the counts of the rows of an event with these images, and of so many bytes.
    pub(crate) fn of_event(images: RowImages, rows: u64, bytes: u64) -> RowCounts
        ensures { result ≡ of_event images rows bytes }
    {
        let none = RowCounts {
            bytes,
            ..RowCounts::NONE
        };
        match images {
            RowImages::After => RowCounts {
                inserted: rows,
                ..none
            },
            RowImages::Before => RowCounts {
                deleted: rows,
                ..none
            },
            RowImages::BeforeAndAfter | RowImages::BeforeAndPartialAfter => RowCounts {
                updated: rows,
                ..none
            },
        }
    }
}

/// How many transactions, statements and rows there are. Each stays at 2^64 - 1 once it is there.
#[derive(Clone, Copy)]
pub struct Counts {
    pub transactions: u64,
    pub statements: u64,
    pub rows: RowCounts,
    /// The bytes from the beginning of each transaction to its end.
    pub bytes: u64,
}

impl Counts {
    /// No transactions.
    pub const NONE: Counts = Counts {
        transactions: 0,
        statements: 0,
        rows: RowCounts::NONE,
        bytes: 0,
    };

    /// Returns these counts and one more transaction, with its rows, its statements and its bytes.
    pub(crate) fn with_transaction(self, rows: RowCounts, statements: u64, bytes: u64) -> Counts
        ensures { result ≡ with_transaction self rows statements bytes }
    {
        Counts {
            transactions: self.transactions.saturating_add(1),
            statements: self.statements.saturating_add(statements),
            rows: self.rows.plus(rows),
            bytes: self.bytes.saturating_add(bytes),
        }
    }
}
