//! The compiler of While: programs become GIL programs with the same ends.
#![tactic(auto)]

mod compiling;
mod examples;
mod making;
mod programs;
mod records;
mod simple;
mod source;
mod statements;
mod temporaries;

pub use compiling::compile;
pub use examples::{a_return_stands_last, statements_have_their_commands};
pub use source::Source;
