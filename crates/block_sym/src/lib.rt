//! Symbolic blocks.
#![tactic(auto)]

mod addresses;
mod cells;
mod freeing;
mod laws;
mod listed;
mod making;
mod memory;
mod states;
mod table;
mod whole;

pub use laws::{alloc_is_right, free_is_right, load_is_right, store_is_right};
pub use states::BlockSym;
