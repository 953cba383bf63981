//! Programs and their parts, appended to a text in the form in which GIL texts spell them.
#![tactic(auto)]

mod assertions;
mod commands;
mod expressions;
mod programs;

pub use assertions::{push_assertion, push_block, push_item, push_param, push_use, push_variables};
pub use commands::push_command;
pub use expressions::{before_operands, between_operands, push_expr, push_exprs, unary_name};
pub use programs::{push_pred, push_proc, push_spec};
