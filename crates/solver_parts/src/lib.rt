//! Answers for a list of atoms from values that another list had: these values, where they still serve or do when they are moved; and
//! else the part of the list that they break, which is solved by itself. Each answer is tested on the whole list, so that none rests on
//! how it was found.
#![tactic(auto)]

mod classes;
mod fitting;
mod moving;
mod parts;
mod patching;
mod proofs;
mod renaming;

pub use fitting::{fitted, near_values};
pub use parts::{Part, broken_part};
