//! The parts of answers are read from the front of bytes, as they are printed.
#![tactic(auto)]

mod bindings;
mod causes;
mod conditions;
mod numbers;
mod places;
mod questions;
mod sorts;

pub use bindings::bindings_at;
pub use causes::cause_at;
pub use places::place_at;
pub use questions::question_at;
