//! Production of core predicates on lists of chunks, once for all memories.
#![tactic(auto)]

mod fitting;
mod fixing;
mod producing;

pub use fixing::fixes_of_key;
pub use producing::produce_chunks;
