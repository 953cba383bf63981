//! The next step on a list of atoms of the fragment: a valuation that meets it, a proof that closes it, or what to split it by.
#![tactic(auto)]

mod choosing;
mod loose;
mod models;
mod numbers;
mod ordering;
mod plain;
mod ranges;
mod steps;
mod trying;

pub use plain::are_plain;
pub use steps::next_step;
