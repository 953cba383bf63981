//! Reported causes: the cause that a check met as a report names it, and what that says of the checked runs of the specification.
#![tactic(auto)]

mod causes;
mod questions;
mod values;
mod variables;

pub use causes::cause_of;
pub use questions::place_of;
pub use variables::variable_names;
