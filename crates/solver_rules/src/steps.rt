//! The next step on a list of atoms.
use pure_terms::{Term, Valuation, Var};
use solver_proof::Proof;

/// What can be done with a list of atoms.
#[derive(Drop)]
pub enum Step {
    /// This valuation meets it.
    Model(Valuation),
    /// This proof closes it.
    Closed(Proof),
    /// The term is true or false.
    Split(Term),
    /// The variable has one of the kinds.
    Cases(Var),
    /// The variable of which the atom at this place says a kind has one of the kind's values.
    Values(usize),
    /// Some elements of the list terms of which the atom at this place is a disequality differ.
    Differ(usize),
}
