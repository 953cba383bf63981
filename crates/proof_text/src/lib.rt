//! Proofs of unsatisfiability are read from the front of bytes, as they are printed with names for their variables.
#![tactic(auto)]

mod laws;
mod leaves;
mod proofs;

pub use laws::{only_writable_proofs, proofs_again};
pub use proofs::proof_at;
