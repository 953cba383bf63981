//! Quick answers for lists of atoms: values, or a proof by a chain of equalities, that are guessed and then tested. Where a guess
//! fails nothing is said.
#![tactic(auto)]

mod comparing;
mod facts;
mod graphs;
mod guessing;
mod joining;
mod numbering;
mod proper;
mod proposing;
mod repairing;
mod terms;
mod testing;
mod values;

pub use guessing::{Guess, guess_at};
pub use testing::is_model;
