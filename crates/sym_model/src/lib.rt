//! Symbolic memories: their interface and laws, lists of symbolic chunks, and conditions of branches as alternatives.
#![tactic(auto)]

mod branches;
mod chunks;
mod combining;
mod comparing;
mod condition_laws;
mod keys;
mod laws;
mod memory;
mod path_conditions;
mod uses;

pub use branches::{Branch, Branches, SymResult};
pub use chunks::{Chunk, SymFrag};
pub use combining::{
    Alternatives, always, asked, both, copy_conditions, extend, never, settle, with_form,
};
pub use comparing::{Comparison, compare, kind_is, kind_is_not, terms_differ, terms_equal};
pub use condition_laws::{alternatives_combine, comparisons_tell, kinds_tell};
pub use keys::{SymKey, SymSub};
pub use laws::{
    chunks_have_a_meaning, nothing_asked_gives_no_condition, serving_valuations_may_act,
    unions_change,
};
pub use memory::{ListedMemory, SymMemory};
pub use path_conditions::PathCond;
pub use uses::{CoreUse, CoreUses, Fix, Fixes, Sorts};
