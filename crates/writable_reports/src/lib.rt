//! Whether a report is one that some text has: then it is read back from its lines, and from its JSON text.
#![tactic(auto)]

mod answers;
mod expressions;
mod names;
mod numbers;
mod parts;
mod proofs;
mod reports;
mod specifications;
mod values;

pub use reports::is_writable;
