//! The top call: from words and source bytes to a status and the bytes of a report.
#![tactic(auto)]

mod checking;
mod clike_language;
mod entries;
mod gil;
mod in_memory;
mod inferring;
mod judging;
mod languages;
mod limits;
mod modes;
mod object_language;
mod outputs;
mod refusals;
mod rendering;
mod running;
mod solving;
mod status;
mod sweeping;
mod testing;
mod top;
mod while_language;
mod working;

pub use in_memory::gillian_in_memory;
pub use status::Status;
pub use top::gillian;
