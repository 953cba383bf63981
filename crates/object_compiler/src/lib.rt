//! The compiler of the object language: programs become GIL programs with the same ends.
#![tactic(auto)]

mod compiling;
mod language;
mod making;
mod operands;
mod simple;
mod source;

pub use compiling::compile;
pub use source::Source;
