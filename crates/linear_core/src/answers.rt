//! What is answered on rows.
use pure_terms::Valuation;
use solver_proof::Factors;

/// What is known of a list of rows. Contracts see it as its pure data, by `linear_view`.
#[derive(Drop)]
pub enum Linear {
    /// This valuation meets each row.
    Integer(Valuation),
    /// These factors of some of the rows, times which they add to a positive constant without variables.
    Combination(Factors),
    /// The place of a row that isn't a difference of at most two variables, or whose constant is too far from 0.
    Beyond(usize),
}
