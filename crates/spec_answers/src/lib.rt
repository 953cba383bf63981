//! The answers of a check: what was found out of each specification by itself, and which of them hold together.
#![tactic(auto)]

mod answering;
mod answers;

pub use answering::answer_specifications;
pub use answers::{Examinations, Examined, Finding, SpecAnswer, SpecAnswers, Verdict};
