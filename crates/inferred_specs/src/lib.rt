//! What inference promises of the specifications that it finds from the code, and of all of them together.
#![tactic(auto)]

mod laws;

pub use laws::runs_alone_tell;
