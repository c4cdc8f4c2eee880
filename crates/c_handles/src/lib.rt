//! What crosses to C: a box as its pointer, and where bytes are.
#![tactic(auto)]

mod held;
mod view;

pub use held::Held;
pub use view::{View, view_of};
