//! While: its trees, and what they mean.
#![tactic(auto)]

mod examples;
mod laws;
mod tree;

pub use examples::{
    a_field_stands_once, calls_return, loops_turn, statements_fail_at_their_places,
    the_first_field_fails,
};
pub use laws::ends_stay;
pub use tree::{Block, Field, Fields, Function, Functions, PlacedStatement, Statement};
