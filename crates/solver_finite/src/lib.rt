//! Quick answers for lists of which the truth values and the whole numbers with few values decide: values for these, or a proof that goes
//! over them, are searched for and then tested. Where the search doesn't serve nothing is said.
#![tactic(auto)]

mod answering;
mod assembling;
mod closing;
mod filling;
mod lists;
mod paths;
mod problems;
mod ranges;
mod rules;
mod searching;
mod shapes;
mod states;
mod trees;

pub use answering::search_values;
pub use assembling::DEEPEST_PROOF;
