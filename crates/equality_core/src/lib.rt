//! Equalities of terms: the classes of equal terms, or a proof that the equalities can't all be true.
#![tactic(auto)]

mod clashes;
mod classes;
mod classifying;
mod closing;
mod copying;
mod distinct;
mod forms;
mod letters;
mod linking;
mod nodes;
mod opening;
mod parts;
mod rooting;
mod sides;
mod solving;
mod values;

pub use classes::{Classes, Wanted};
pub use classifying::{Classified, classify};
pub use distinct::distinct_values;
pub use forms::{Solved, SolvedForm};
pub use solving::equal;
pub use values::Kinds;
