//! What a file of cases holds: calls of the program with what each must answer, as TOML spells them.
#![tactic(auto)]

mod cases;
mod many;

pub use cases::{
    Beginning, Case, Cases, Fill, Numbered, Output, Piece, Repeat, Rules, SourceFault, SourceText,
};
pub use many::{Borders, Failing, Prefixes, Span};
