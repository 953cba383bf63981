//! Terms, atoms and proofs of the solver as reports have them: with names where those have variables.
#![tactic(auto)]

mod atoms;
mod proofs;
mod terms;

pub use atoms::{named_atom, named_atoms};
pub use proofs::named_proof;
pub use terms::named_term;
