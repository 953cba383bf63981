//! Specifications are read from the front of bytes, as they are printed.
#![tactic(auto)]

mod assertions;
mod expressions;
mod items;
mod params;
mod specifications;
mod until;

pub use specifications::specification_at;
