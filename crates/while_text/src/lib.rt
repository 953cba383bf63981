//! Reads While programs.
#![tactic(auto)]

mod assignments;
mod blocks;
mod functions;
mod laws;
mod pieces;
mod texts;
mod worded;

pub use laws::texts_compile_to_well_made_programs;
pub use texts::read;
