//! Assertions and what they mean: the modes in which they are read, the heaps that meet them, user predicates by rank, and
//! adding and matching on plain values. From Gillian, Part II (CAV 2021).
#![tactic(auto)]

mod checking;
mod laws;
mod names;
mod reading;
mod rows;
mod scopes;

pub use checking::{ModeFault, ModeItem, ModeKind, modes};
pub use laws::{
    adding_is_complete, core_heaps_are_matched, folding_splits, heaps_split_among_items,
    larger_ranks_keep, matching_gives_names, matching_invents_nothing, matching_splits,
    meeting_invents_nothing, returns_are_matched,
};
pub use rows::{
    cases_are_tried_once, items_are_read_in_order, the_first_case_is_taken, the_first_fact_is_taken,
};
