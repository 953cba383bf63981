//! Variables of sort any of which a list of atoms says a kind, taken as variables of the sort with this kind: the list that this
//! makes has the same solutions, and more of its atoms are of the fragment.
#![tactic(auto)]

mod laws;
mod saying;
mod sorting;
mod tables;
mod terms;

pub use laws::sorted_lists_have_the_same_solutions;
pub use sorting::{SortedList, sorted_list};
