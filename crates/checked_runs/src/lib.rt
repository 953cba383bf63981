//! Checked runs on plain values: what it means that a specification holds, the runs by which one is verified, that what they
//! verify holds whatever else the heap holds, and rows that show what each of their steps leads to and which mistakes they find.
//! Verification is that of Gillian, Part II (CAV 2021); frames are those of O'Hearn, Reynolds, Yang, CSL 2001.
#![tactic(auto)]

mod laws;
mod programs;
mod rows;

pub use laws::verified_specifications_hold;
pub use programs::{
    draws_and_folds_are_followed, mistakes_of_assertions_are_found, mistakes_of_calls_are_found,
    mistakes_of_heaps_are_found, mistakes_of_invariants_are_found,
    programs_without_a_mistake_have_no_fault, unfolds_are_followed, what_is_verified_holds,
};
pub use rows::{
    calls_ask_for_the_precondition, folds_and_asserts_are_matched, invariants_are_asked,
    only_what_is_told_may_be_left, what_is_not_told_may_be_anything,
};
