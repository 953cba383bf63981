//! Symbolic records.
#![tactic(auto)]

mod disposing;
mod distinct;
mod laws;
mod listed;
mod making;
mod memory;
mod places;
mod properties;
mod states;
mod table;

pub use laws::{dispose_is_right, lookup_is_right, mutate_is_right, new_is_right};
pub use states::RecordSym;
