//! Laws of the JSON lines: each line is JSON by RFC 8259, no object has a member twice, and equal lines come from equal changes.
#![tactic(auto)]

pub mod laws;
