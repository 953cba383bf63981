//! Production, consumption and listing of core predicates on lists of chunks, once for all memories.
#![tactic(auto)]

mod listing;

pub use listing::{fix_of_key, list_chunks};
