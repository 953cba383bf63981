//! Terms, atoms and proofs, appended to a text in the form in which reports write them.
#![tactic(auto)]

mod atoms;
mod laws;
mod proofs;
mod terms;

pub use atoms::push_atom;
pub use laws::terms_print_as_expressions;
pub use proofs::push_proof;
pub use terms::{Names, push_term};
