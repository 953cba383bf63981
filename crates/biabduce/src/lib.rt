//! Inference of specifications from the code, by bi-abduction (Calcagno, Distefano, O'Hearn, Yang, POPL 2009).
#![tactic(auto)]

mod ends;
mod finding;
mod inferences;
mod inferring;
mod queries;

pub use inferring::{Inferred, infer};
