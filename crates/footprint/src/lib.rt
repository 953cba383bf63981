//! Matching of assertions on symbolic states: what an assertion takes out of a state, and under which conditions.
#![tactic(auto)]

mod answering;
mod choosing;
mod consuming;
mod ending;
mod folding;
mod items;
mod leaves;
mod matching;
mod pruning;
mod states;
mod uses;
mod whole;

pub use consuming::consume_all;
pub use folding::fold;
pub use leaves::{Match, Matches, Matching};
pub use whole::consume_whole;
