//! The memory of blocks of cells: its actions as a table on heaps, and the code that answers by it.
#![tactic(auto)]

mod actions;
mod arguments;
mod cells;
mod laws;
mod memory;
mod rows;
mod table;

pub use actions::BlockAction;
pub use laws::blocks_miss_what_they_lack;
pub use memory::BlockHeap;
pub use rows::{rows_of_alloc, rows_of_free, rows_of_load, rows_of_store, rows_of_wrong_calls};
