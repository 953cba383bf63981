//! Reads programs of the object language.
#![tactic(auto)]

mod expressions;
mod functions;
mod laws;
mod simple;
mod statements;
mod texts;

pub use laws::texts_compile_to_well_made_programs;
pub use texts::{read, read_trees};
