//! Which specifications may be said to be verified: those that have no cause against them and use only such ones.
#![tactic(auto)]

mod entries;
mod settling;

pub use entries::{Entries, Entry, Standing};
pub use settling::settle_dependencies;
