//! Symbolic testing: bugs that replay, and clean answers for all inputs within a bound.
#![tactic(auto)]

mod canonical;
mod judging;
mod testing;
mod verdicts;

pub use testing::test;
pub use verdicts::Verdict;
