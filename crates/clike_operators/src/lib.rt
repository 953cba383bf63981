//! Expressions of the C-like language: its operators, what they mean, and the commands that do them.
#![tactic(auto)]

mod pieces;
mod rows;
mod trees;

pub use pieces::{Beyond, address_expression, cell_code, false_code, range_code};
pub use rows::Clike;
pub use trees::{Expression, Joint, Prefix};
