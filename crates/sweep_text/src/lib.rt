//! The text of the program that a sweep tests.
#![tactic(auto)]

mod laws;
mod lines;
mod text;

pub use laws::each_number_is_asserted_once;
pub use text::sweep_text;
