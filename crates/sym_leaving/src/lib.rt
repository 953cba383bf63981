//! The end of a call on a path: what it returns or throws is a term that some state of the path gives a value.
#![tactic(auto)]

mod leaving;
mod throwing;

pub use leaving::{leave_with, run_in, take};
pub use throwing::{Thrown, throw_with};
