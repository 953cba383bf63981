//! Specifications whose preconditions nothing meets: their pure items contradict each other, as a proof shows.
#![tactic(auto)]

mod atoms;
mod laws;
mod names;
mod terms;
mod vacuity;
mod variables;

pub use laws::vacuous_specifications_have_no_run;
pub use vacuity::vacuous;
