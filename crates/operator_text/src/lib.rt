//! The texts of expressions whose operators all join to the left, by their strengths: which lexemes spell an expression, and reading it,
//! over what the lexemes of a language are.
#![tactic(auto)]

mod expressions;
mod few;
mod language;
mod lists;
mod pieces;
mod strengths;

pub use expressions::expression_at;
pub use few::nesting_fault;
pub use language::OperatorLanguage;
pub use lists::arguments_at;
pub use pieces::{argument_at, expression_from, pair_at, value_at, whole_at};
pub use strengths::{After, TIGHT};
