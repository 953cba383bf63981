//! Expressions of the object language: its operators, what they mean, and the commands that do them.
#![tactic(auto)]

mod library;
mod pieces;
mod rows;
mod trees;

pub use library::{get_name, get_procedure};
pub use rows::ObjectOperators;
pub use trees::{Expression, Joint, Prefix};
