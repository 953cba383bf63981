//! A step of a path of symbolic execution, over any memory and any decider, and exploration: steps until each path has an end.
#![tactic(auto)]

mod exploration;
mod exploration_laws;
mod finding;
mod following;
mod laws;
mod stepping;

pub use exploration::{Exploration, explore};
pub use exploration_laws::{
    ends_are_of_runs, trails_hold_along, trails_keep, trails_may_end_before, trails_replay,
    trails_stay_narrow, trails_stay_plain,
};
pub use laws::starts_may_step;
pub use stepping::step;
