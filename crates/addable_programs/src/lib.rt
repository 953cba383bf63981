//! The assertions of a program can be added to states of terms.
#![tactic(auto)]

mod laws;

pub use laws::programs_are_addable;
