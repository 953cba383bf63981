//! What a solver answers.
use pure_terms::{Reason, Valuation};
use solver_proof::Proof;

/// What a solver says of a list of atoms. Contracts see it as its pure data, by `solution_view`.
#[derive(Debug, Drop)]
pub enum Solution {
    /// This proper valuation makes every atom true.
    Sat(Valuation),
    /// This proof, which `accepts` takes, shows that no proper valuation makes every atom true.
    Unsat(Proof),
    /// The list isn't in the fragment, and the solver found neither.
    Unknown(Reason),
}
