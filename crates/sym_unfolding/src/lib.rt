//! Unfolding a predicate in a state of terms: a case of it in place of a fact.
#![tactic(auto)]

mod adding;
mod searching;
mod taking;
mod unfolding;

pub use adding::{UnfoldedCase, UnfoldedCases, add_items};
pub use unfolding::{Unfolding, unfold};
