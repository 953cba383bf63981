//! Texts of atoms: variables with their sorts and atoms over them, read exactly.
#![tactic(auto)]

mod atoms;
mod laws;
mod naming;
mod reading;
mod resolving;
mod sources;
mod terms;
mod texts;

pub use laws::{one_text_has_one_reading, one_text_spells_one_list};
pub use resolving::{AtomText, Names};
pub use texts::read_atoms;
