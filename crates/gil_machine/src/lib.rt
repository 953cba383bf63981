//! What a GIL program does: states, steps, runs and their ends. The definitions stand in `specs/`; the functions here
//! have no code, and their contracts are what is proved of the definitions.
#![tactic(auto)]

mod actions;
mod commands;
mod control;
mod depth;
mod endings;
mod evaluation;
mod examples;
mod faults;
mod laws;
mod resolved;
mod resolving;
mod running;
mod slots;
mod store;

pub use depth::DEEPEST_VALUE;
pub use examples::{
    a_bound_cuts, a_call_returns, a_draw_needs_its_input, a_fault_fails, a_throw_is_handled,
    an_action_may_miss, choices_stand_in_order, division_truncates, each_command_is_a_step,
    failures_have_their_places, no_failure_is_handled, numbers_have_128_bits, one_input_fails,
    some_inputs_return, symbols_are_new,
};
pub use laws::{
    bounds_cut, bugs_stay, calls_go_on_above, clean_has_no_bug, clean_is_clean_below,
    drawn_inputs_decide, earlier_draws_are_ignored, ends_are_proper, held_runs_are_runs,
    misses_fail, numbers_are_first, runs_stay_over, starts_are_placed, starts_are_proper,
    states_stay_placed, states_stay_proper, steps_are_local, tests_start_properly,
    the_counter_is_new,
};
pub use running::{End, run, run_entry};
