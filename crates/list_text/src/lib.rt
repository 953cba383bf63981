//! Lists in brackets are read from the front of bytes, as they are printed.
#![tactic(auto)]

mod lists;
mod reader;

pub use lists::{list_at, more_at};
pub use reader::Reader;
