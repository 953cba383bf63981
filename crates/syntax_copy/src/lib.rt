//! Copies of expressions, assertions, specifications and predicates.
#![tactic(auto)]

mod assertions;
mod expressions;
mod items;

pub use assertions::{copy_assertion, copy_params, copy_use};
pub use expressions::{copy_of_expression, copy_of_expressions, copy_texts};
pub use items::{copy_preds, copy_specs};
