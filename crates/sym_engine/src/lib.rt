//! Symbolic execution: candidates for the next paths of a step, and what a decider leaves of them.
#![tactic(auto)]

mod acting;
mod calling;
mod candidates;
mod frames;
mod guarded;
mod settling;
mod silent;
mod throwing;
mod valued;

pub use acting::act_candidates;
pub use calling::call_candidates;
pub use candidates::{Candidate, Candidates};
pub use guarded::guard_candidates;
pub use settling::settle;
pub use silent::{draw, pass, take_symbol, vanish};
pub use throwing::throw_candidates;
pub use valued::{assign_candidates, fail_candidates, return_candidates};
