//! Terms, atoms and uses of core predicates as items of assertions, with a name for each variable.
#![tactic(auto)]

mod laws;
mod naming;

pub use laws::{named_forms_are_right, names_are_of_variables, tables_are_named};
pub use naming::{assertion_of, expression_of, names_of_table, numbered_name};
