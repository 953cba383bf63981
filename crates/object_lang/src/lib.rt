//! The object language: its trees, what they mean, and which of their names are functions.
#![tactic(auto)]

mod assigning;
mod laws;
mod resolving;
mod tree;

pub use laws::ends_stay;
pub use resolving::resolved;
pub use tree::{
    Block, Expressions, Function, Functions, PlacedStatement, SimpleStatement, Statement,
};
