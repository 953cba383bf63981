//! Exploration of the checked paths of a specification.
#![tactic(auto)]

mod beginning;
mod exploration;
mod finding;
mod stepping;

pub use exploration::{Explored, explore_specification};
