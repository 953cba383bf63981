//! The row of `invariant`: what a checked path comes to at a loop, and again, where what is left is compared with what was left before.
#![tactic(auto)]

mod adding;
mod again;
mod comparing;
mod differing;
mod entering;
mod fitting;
mod listed;
mod passing;
mod remainders;
mod visiting;

pub use differing::{Difference, compare};
pub use remainders::is_as_before;
pub use visiting::invariant_row;
