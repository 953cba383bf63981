//! Expressions are read from the front of bytes, as they are printed.
#![tactic(auto)]

mod expressions;
mod laws;
mod leads;
mod leaves;
mod operators;

pub use expressions::expression_at;
pub use laws::{expressions_again, only_writable_expressions};
pub use leaves::marked_name_at;
