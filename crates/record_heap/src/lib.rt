//! The memory of records: its actions as a table on heaps, and the code that answers by it.
#![tactic(auto)]

mod actions;
mod laws;
mod listed;
mod memory;
mod rows;
mod table;

pub use actions::RecordAction;
pub use laws::records_miss_what_they_lack;
pub use memory::RecordHeap;
pub use rows::{rows_of_dispose, rows_of_lookup, rows_of_mutate, rows_of_new, rows_of_wrong_calls};
