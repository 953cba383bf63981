//! The check of a program's specifications: each is refuted to have a start, or explored, and then answered beside the others.
#![tactic(auto)]

mod checking;
mod examining;

pub use checking::check;
