//! The events in place of others: those of compressed transactions, those that stand for MariaDB's own, and those of XA transactions.
//!
//! - Compressed transactions: `payload` reads the fields of a TRANSACTION_PAYLOAD_EVENT, and `replacements` decompresses it; an event that
//!   is damaged, such as one that states a wrong length, is given as it is.
//! - MariaDB's own: for GTIDs and lists of them, annotations, checkpoints, and compressed statements and rows. `mariadb_type` has their
//!   types, `mariadb_made` writes the events that stand for them, and decides by a GTID's flags whether a BEGIN does, `compressed` finds
//!   and reads compressed data, and `mariadb_translator` has the events in place of each. `plain` has those of the same size and at the
//!   same positions, for readers that know MySQL's alone.
//! - XA transactions: those of one that is prepared are kept, and given where it is committed. `xa_role` says what an event is to them,
//!   `xa_xid` reads the XID in an XA_PREPARE_LOG_EVENT, and `xa_transactions` keeps the events of those in `prepared`.
//!
//! `replacements` has the events in place of one event, `stamped` gives them the form of the log's own ones, and [`ReplacedEvents`] and
//! [`XaEvents`] are the sources of events that give these. [`PlainEvents`] is the short way of the events that each source gives as they
//! are.
#![tactic(auto)]

mod compressed;
mod laws;
mod mariadb_fault;
mod mariadb_made;
mod mariadb_translator;
mod mariadb_type;
mod payload;
mod plain;
mod plain_events;
mod plain_fault;
mod prepared;
mod replaced_events;
mod replacements;
mod stamped;
mod xa_commits;
mod xa_events;
mod xa_fault;
mod xa_role;
mod xa_transactions;
mod xa_xid;

pub use laws::xa_transactions_are_whole_events;
pub use mariadb_fault::MariadbFault;
pub use mariadb_made::put_statement;
pub use mariadb_translator::MariadbTranslator;
pub use mariadb_type::{MariadbType, is_mariadb_number};
pub use plain::plain_event;
pub use plain_events::PlainEvents;
pub use plain_fault::PlainFault;
pub use replaced_events::{ReplacedEvents, checksums_after};
pub use replacements::{ReplacementFault, Replacements, checked};
pub use stamped::{event_len, put_stamped};
pub use xa_events::XaEvents;
pub use xa_fault::XaFault;
pub use xa_role::statement_of;
pub use xa_transactions::XaTransactions;
pub use xa_xid::{PreparedXid, read_prepared, xid_text};
