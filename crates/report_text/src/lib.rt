//! Reports that are read back from their lines.
#![tactic(auto)]

mod answers;
mod heads;
mod laws;
mod lines;
mod reading;
mod specifications;

pub use laws::printing_tells_reports;
pub use reading::read_report;
