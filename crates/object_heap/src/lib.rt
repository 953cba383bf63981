//! The memory of objects with prototypes: its actions as a table on heaps, and the code that answers by it.
#![tactic(auto)]

mod actions;
mod arguments;
mod laws;
mod memory;
mod names;
mod rows;
mod table;

pub use actions::ObjectAction;
pub use laws::objects_miss_what_they_lack;
pub use memory::ObjectHeap;
pub use rows::{
    rows_of_delete, rows_of_get, rows_of_has, rows_of_new, rows_of_prototypes, rows_of_set,
    rows_of_wrong_calls,
};
