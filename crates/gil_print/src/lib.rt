//! GIL programs are printed, and what is printed of a program that has a text spells that program.
#![tactic(auto)]

mod laws;
mod printing;

pub use laws::{printed_again, printed_texts_spell, printing_tells_programs};
pub use printing::print_prog;
