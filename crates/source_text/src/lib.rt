//! What is read in the same way of the texts of every source language: names, what only proofs look at, the items of a text, and why a
//! text is refused.
#![tactic(auto)]

mod items;
mod language;
mod laws;
mod logic;
mod naming;
mod places;
mod reading;
mod texts;

pub use language::SourceLanguage;
pub use laws::one_text_has_one_reading;
pub use logic::{invariant_at, logic_at};
pub use places::next_place;
pub use texts::{read_located, stopped_for_memory};
