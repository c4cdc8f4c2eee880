//! Text in MySQL's character sets as UTF-8: which a collation's number means, and what its bytes are.
//!
//! [`CharacterSet::of`] finds the character set of a collation's number, as table maps have it; [`CharacterSet::decode`] appends bytes
//! in it as UTF-8. Of the character sets with several bytes a character those of Unicode are known. `Texts` in `specs/` defines what
//! text is in each.
#![tactic(auto)]

mod character_set;
mod collations;
pub mod laws;
mod tables;

pub use character_set::CharacterSet;
