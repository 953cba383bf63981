//! What expressions come to where names have terms: the faults that there may be, and the result, each with its conditions.
#![tactic(auto)]

mod cases;
mod checks;
mod evaluation;
mod extent;
mod faults;
mod guards;
mod operators;
mod requiring;
mod store;

pub use cases::{Cases, FaultCase, FaultCases, GoodCase};
pub use evaluation::{evaluate, evaluate_all};
pub use extent::{DEEPEST_TERM, MOST_TERM_NODES};
pub use faults::Fault;
pub use guards::{Sides, guard_sides};
pub use store::{Binding, SymStore};
