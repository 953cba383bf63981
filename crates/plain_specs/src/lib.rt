//! Specifications of which a check always decides: what they are, and what their checked runs are.
#![tactic(auto)]

mod laws;

pub use laws::contained_specifications_are_decided;
