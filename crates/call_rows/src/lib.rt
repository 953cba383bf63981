//! The row of calls: a procedure without a specification runs its body, and any other one is called by its specification.
#![tactic(auto)]

mod arguments;
mod calling;
mod leaving;
mod matches;
mod posts;

pub use calling::call_row;
