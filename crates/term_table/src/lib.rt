//! Terms as numbers in a table: equal terms have one number, and the parts of a term are numbers too.
#![tactic(auto)]

mod nodes;
mod putting;
mod rebuilding;
mod tables;
mod term_ids;

pub use tables::TermTable;
pub use term_ids::TermId;

#[cfg(test)]
mod tests;
