//! The words of the command line, and what they ask for.
#![tactic(auto)]

mod asked;
mod inputs;
mod laws;
mod line;
mod options;
mod scan;
mod tasks;

pub use asked::{WordsFault, read_words};
pub use laws::words_ask_for_one_thing;
pub use tasks::{Bound, Language, Request, Size, Task};
