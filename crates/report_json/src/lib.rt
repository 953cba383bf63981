//! Reports that are read back from their JSON text, or from either of their forms.
#![tactic(auto)]

mod depth;
mod reading;

pub use depth::DEEPEST_REPORT;
pub use reading::{read_either, read_json};
