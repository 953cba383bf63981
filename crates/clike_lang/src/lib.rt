//! The C-like language: its trees, and what they mean.
#![tactic(auto)]

mod laws;
mod tree;

pub use laws::ends_stay;
pub use tree::{
    Block, Expressions, Function, Functions, PlacedStatement, SimpleStatement, Statement,
};
