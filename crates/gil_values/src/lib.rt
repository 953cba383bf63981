//! The values of GIL: kinds, texts, places, values and lists of values, and how each is printed.
#![tactic(auto)]

mod apply;
mod equality;
mod kinds;
mod laws;
mod operators;
mod pieces;
mod places;
mod texts;
mod tree;
mod values;

pub use apply::{OpFault, apply1, apply2};
pub use equality::equality_is_identity;
pub use kinds::Kind;
pub use laws::{
    answers_are_exact, append_joins, arithmetic_computes, booleans_compute, code_numbers,
    division_truncates, equal_tells, kind_tells, kinds_come_first, len_counts, less_orders,
    nth_counts, numerals_tell, printing_tells_numbers, zero_divides_nothing,
};
pub use operators::{BinOp, UnOp};
pub use pieces::{kind_name, push_integer, push_literal, push_number, push_place, push_separator};
pub use places::Place;
pub use texts::Text;
pub use tree::{Value, Values};
pub use values::{push_value, push_values};
