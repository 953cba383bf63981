//! Paths of symbolic execution: what they stand for, what a step of one must do, its candidates, and asking a decider of conditions.
#![tactic(auto)]

mod asking;
mod candidates;
mod copying;
mod ends;
mod frames;
mod laws;
mod path;
mod plain;

pub use asking::{Satisfiability, ask, first_outside, is_inside, needs_form};
pub use candidates::{
    actions_keep_the_laws, calls_keep_the_laws, copies_keep_the_laws, guards_keep_the_laws,
    returns_keep_the_laws, throws_keep_the_laws,
};
pub use ends::{PathEnd, copy_place};
pub use frames::{Frame, Frames, running};
pub use laws::{
    beginnings_stand, bindings_keep_stores, calls_lead, candidates_settle,
    later_variables_are_proper, paths_may_grow, paths_stand_at_commands, some_commands_ask_nothing,
    valued_candidates_keep_the_laws, variables_follow_in_turn,
};
pub use path::{Ended, Path, Paths};
pub use plain::plain_expressions_ask_nothing;
