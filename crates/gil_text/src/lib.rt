//! GIL texts: the programs that they spell are read, exactly.
#![tactic(auto)]

mod annotations;
mod assertions;
mod blocks;
mod commands;
mod expressions;
mod located;
mod nesting;
mod places;
mod programs;
mod reading;
mod refused;
mod texts;
mod vocabulary;

pub use annotations::{Annotation, annotation_at, read_assertions};
pub use assertions::{expression_at, expressions_at};
pub use commands::{logic_at, names_at};
pub use located::{Located, Places, TextItem};
pub use nesting::nesting_fault;
pub use places::place_at;
pub use programs::{pred_at, spec_at};
pub use reading::byte_before;
pub use refused::{Refused, RefusedKind};
pub use texts::{place_of, read_prog, tokens_of};
pub use vocabulary::{input_of_word, word_of};
