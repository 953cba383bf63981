//! The lines of a report from its JSON value. The parts of its objects are texts in them: a text itself, the digits of a
//! number, and lists of these in brackets.
#![tactic(auto)]

mod laws;
mod lines;
mod parts;
mod values;

pub use laws::kept_data;
pub use lines::lines_of;
pub use values::value_of;
