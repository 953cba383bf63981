//! Consumption of core predicates from lists of chunks, once for all memories.
#![tactic(auto)]

mod consuming;

pub use consuming::{consume_chunks, key_of_ins};
