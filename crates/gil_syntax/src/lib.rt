//! GIL programs: their syntax, when parts are valid and well made, and the first fault of parts that are not.
#![tactic(auto)]

mod arities;
mod assertions;
mod bodies;
mod by_name;
mod checking;
mod commands;
mod duplicates;
mod examples;
mod expressions;
mod invalid;
mod items;
mod laws;
mod limits;
mod named;
mod parts;
mod program;
mod seeking;
mod simple;
mod uncounted;
mod unknown;
mod validity;
mod well_made;

pub use assertions::{Assertion, Assertions, Item, Param, Params, PredUse, SpecSort};
pub use commands::{Body, Command, NumberedCommand, Texts};
pub use examples::{
    a_program_is_valid, bodies_end, errors_are_assertions, faults_are_at_items,
    handlers_have_places, names_stand_for_something, names_stand_once, parameters_fit,
    programs_have_limits, some_programs_are_simple, some_programs_are_well_made,
    some_values_are_narrow, some_values_are_simple, the_first_fault_counts,
    the_newest_value_counts,
};
pub use expressions::{Expr, Exprs};
pub use invalid::Invalid;
pub use laws::{
    evaluation_invents_no_symbol, names_decide, one_fault_is_named, one_name_has_one_value,
    valid_or_named,
};
pub use parts::{Parts, PredDef, PredDefs, Proc, Procs, Spec, Specs};
pub use program::Prog;
pub use simple::is_simple;
pub use uncounted::check_but_length;
pub use validity::InvalidKind;
pub use well_made::is_well_made;
