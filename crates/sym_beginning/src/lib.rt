//! The paths on which runs of a specification begin: its precondition is added to nothing, over variables for its parameters and
//! for the variables that the precondition names.
#![tactic(auto)]

mod beginning;
mod entering;

pub use beginning::{Beginnings, Started, Starts, begin_specification};
