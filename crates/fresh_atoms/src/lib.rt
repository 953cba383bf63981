//! Atoms over new symbols: what they say of a start. Fresh variables are the uninterpreted symbols of Gillian, Part I (PLDI 2020).
#![tactic(auto)]

mod laws;

pub use laws::fresh_atoms_are_constant;
