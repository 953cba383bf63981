//! Matching of values on terms: what an expression, a pure item or a predicate's parameters match, and under which conditions.
//! Memories and facts aren't looked at.
#![tactic(auto)]

mod cases;
mod items;
mod names;
mod outs;
mod splits;
mod tests;
mod values;

pub use cases::{case_store, scope_of, terms_of};
pub use items::match_pure;
pub use outs::known_outs;
pub use splits::{KnownOuts, KnownSplit, Split, StoreSplit, Test};
pub use tests::{elements_equal, fits_sorts, outs_agree};
pub use values::match_terms;
