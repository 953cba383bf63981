//! Symbolic states with facts, adding the items of an assertion to them, and new variables for names that have no term.
#![tactic(auto)]

mod adding;
mod arguments;
mod naming;
mod naming_laws;
mod producing;
mod production;
mod sorts;
mod standing;
mod states;
mod stores;

pub use naming::{Named, with_variables};
pub use naming_laws::{adding_invents_nothing, adding_reads_names};
pub use producing::produce_items;
pub use standing::names_in;
pub use states::{PredChunk, PredChunks, SymState, SymStates};
pub use stores::beside;
