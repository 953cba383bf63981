//! Checked paths: what a path of the checker stands for, what a step of one must do, and the checked runs that follow its trail.
#![tactic(auto)]

mod checking;
mod following;
mod laws;
mod nexts;
mod trails;

pub use checking::{
    AllPassed, Checking, Entered, Passed, PassedByFrames, copy_all, copy_facts, passed_for,
    push_copies,
};
pub use following::{follow, follow_all, step_machine};
pub use laws::{accounted_runs_have_no_fault, answers_cover, standing_is_above};
pub use nexts::{Cause, FaultKind, Next, Nexts, Shown, Stepped};
pub use trails::{causes_are_of_runs, runs_follow_trails, trails_can_be_met};
