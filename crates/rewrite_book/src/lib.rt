//! A book of rules, each stored beside the facts of its answers, and simplifying by it.
#![tactic(auto)]

mod book;
mod booleans;
mod lists;
mod normals;
mod numbers;
mod operands;
mod rules;
mod shipped_rules;
mod simplifying;

pub use book::RuleBook;
pub use rules::{Head, Rule, Simplifier};
pub use shipped_rules::ShippedRule;
pub use simplifying::simplify;
