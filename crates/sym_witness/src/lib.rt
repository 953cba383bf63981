//! Valuations as witnesses: their symbols numbered, those of fresh variables from a counter on, and all others below it.
#![tactic(auto)]

mod numbering;
mod renaming;
mod symbols;

pub use numbering::{Witness, number_symbols};
