//! Proofs that no proper valuation makes every atom of a list true, and what checks them.
#![tactic(auto)]

mod chains;
mod checking;
mod comparing;
mod facts;
mod laws;
mod lists;
mod proofs;
mod refuters;
mod rows;
mod sums;

pub use chains::{are_different_literals, are_other_kinds, is_fresh_over};
pub use checking::accepts;
pub use laws::closed_lists_have_no_solution;
pub use proofs::{ChainEnd, Factor, Factors, Places, Proof, Proofs};
pub use refuters::Refuter;
