//! The smallest symbolic memory: it has no actions, and a state holds one term at most, its note.
#![tactic(auto)]

mod concrete;
mod noted;

pub use concrete::NoActions;
pub use noted::Noted;
