//! Where a change comes from: GTIDs and names as JSON, and which members lines have on request.
#![tactic(auto)]

mod added_members;
mod gtids;
mod mariadb_gtid;
mod tagged_gtid;
mod utf8;

pub use added_members::AddedMembers;
pub use gtids::{put_gtid, put_numbered_gtid};
pub use tagged_gtid::tagged_commit_time;
pub use utf8::put_utf8;
