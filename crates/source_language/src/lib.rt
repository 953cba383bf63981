//! What is the same for every source language: the trees that all have, what statements, calls and programs come to, when a source program
//! and its compiled program have the same ends, which sources are compiled, and the pieces that compiled procedures are made of. The
//! commands of choices, loops, assertions and assumptions are those of languages whose conditions are booleans.
#![tactic(auto)]

mod control;
mod expressions;
mod limits;
mod logic;
mod pieces;
mod temporaries;
mod trees;

pub use control::{assert_code, assume_code, body_label, if_code, then_label, while_code};
pub use expressions::{null, procedure_literal, temporary_variable, text_literal, truth, variable};
pub use limits::{TooMany, first_long};
pub use logic::{invariant_code, logic_code};
pub use pieces::{append, code_len, jump, one, put, sum, text};
pub use temporaries::{caught, first_temporaries, nulls, own_names, temporary};
pub use trees::{Function, Invariant, Logic, SourceParts};
