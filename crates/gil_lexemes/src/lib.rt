//! Lexemes: what the tokens of a text stand for, and a cursor that goes over them.
#![tactic(auto)]

mod cursor;
mod standing;
mod stops;

pub use cursor::Cursor;
pub use standing::Lexeme;
pub use stops::Stop;
