//! The statements that every source language has, over the expressions of a language and its own simple statements: their trees, what they
//! mean, the commands that they are compiled to, and that the two have the same ends. A language says of an expression what it comes to
//! as a condition and as a value, and of both what their commands are.
#![tactic(auto)]

mod control;
mod counting;
mod language;
mod programs;
mod sizes;
mod statements;
mod throwing;
mod tree;

pub use language::{Front, Language};
pub use programs::{compiled_parts, parts_of};
pub use tree::{Block, PlacedStatement, Statement};
