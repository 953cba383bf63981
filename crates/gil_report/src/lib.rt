//! Reports: a head line, which says what was asked, and a line for each answer, as text and as JSON. Terms, conditions and
//! proofs have names where those of the solver have variables.
#![tactic(auto)]

mod answer_lines;
mod answer_values;
mod answers;
mod head_lines;
mod heads;
mod lists;
mod pieces;
mod print;
mod printed_proofs;
mod proofs;
mod reports;
mod specifications;
mod values;

pub use answers::{
    Answer, Answers, Binding, Bindings, Cause, Condition, Conditions, Lack, Question, Witness,
};
pub use heads::{EntryMode, Head};
pub use print::Print;
pub use proofs::{NamedProof, NamedProofs};
pub use reports::{Report, json, text};
