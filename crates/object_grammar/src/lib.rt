//! The grammar of texts of the object language: which lexemes spell which program.
#![tactic(auto)]

mod laws;

pub use laws::{one_text_has_one_reading, texts_name_what_sources_name};
