//! The tokens of a text: what its bytes spell, and where each token lies.
#![tactic(auto)]

mod blanks;
mod bytes;
mod faults;
mod forms;
mod laws;
mod lexing;
mod literals;
mod names;
mod numbers;
mod signs;
mod token_list;
mod words;

pub use faults::{LexFault, LexKind};
pub use forms::{Form, Token};
pub use laws::{fault_or_reading, fault_or_token, one_fault, one_literal, one_number, one_reading};
pub use lexing::lex;
pub use literals::text_of;
pub use names::is_name;
pub use numbers::number_of;
pub use signs::Sign;
pub use token_list::Tokens;
pub use words::Word;
