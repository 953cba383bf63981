//! The solver: it searches over splits for a valuation that satisfies a list of atoms, or puts together a proof that there is none.
#![tactic(auto)]

mod branches;
mod deciding;
mod lists;
mod outside;
mod searching;
mod solutions;
mod solvers;
mod solving;
mod subjects;
mod taking;
mod testing;

pub use searching::DEEPEST_SEARCH;
pub use solutions::Solution;
pub use solvers::PathSolver;
pub use solving::solve;
