//! Expressions of source languages whose operators are done one after the other, from left to right: their trees, what they mean and the
//! commands that do them, over what a language says of its operators.
#![tactic(auto)]

mod compiling;
mod language;
mod lists;
mod trees;

pub use compiling::{operand_code, operand_uses};
pub use language::{Operand, Operators};
pub use lists::{Operands, operands_code, operands_uses};
pub use trees::{Connective, Expression, Operator};
