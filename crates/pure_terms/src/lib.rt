//! Terms, atoms, valuations, the decidable fragment, and what decides lists of atoms.
#![tactic(auto)]

mod atoms;
mod deciders;
mod direct;
mod equality;
mod examples;
mod folding;
mod fragment;
mod kinds;
mod laws;
mod literals;
mod naming;
mod queries;
mod terms;
mod truth;
mod variables;

pub use atoms::{Atom, Atoms};
pub use deciders::{Decider, Decision, Reason};
pub use equality::equality_is_identity;
pub use examples::{
    limits_of_the_fragment, some_atoms_have_forms, some_kinds_are_known, some_lists_have_solutions,
    some_terms_are_simple, some_terms_fold, some_valuations_are_proper,
    undefined_terms_are_neither, values_are_those_of_the_table,
};
pub use folding::{fold_binary, fold_unary};
pub use fragment::in_fragment;
pub use laws::{
    folding_replaces, fragment_atoms_are_true_or_false, known_kinds_are_right,
    simple_terms_are_known, symbols_may_be_renamed, tables_may_grow, terms_invent_no_symbol,
    the_fragment_goes_atom_by_atom, variables_decide,
};
pub use literals::Literal;
pub use queries::{Choices, Query};
pub use terms::{Term, Terms};
pub use truth::{HoldsFault, holds, value_of};
pub use variables::{Sort, Valuation, Var, VarTable};
