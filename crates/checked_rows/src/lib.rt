//! The rows of the checker's own commands: what a checked path comes to at each.
#![tactic(auto)]

mod asserting;
mod ending;
mod folding;
mod matching;
mod names;
mod nexts;
mod reading;
mod states;
mod unfolding;

pub use asserting::assert_row;
pub use ending::{copy_params, end_row, finish, result_name, scope_of};
pub use folding::fold_row;
pub use matching::match_there;
pub use names::{logicals_in, names_in};
pub use nexts::{Doubt, doubted, doubted_next, nothing};
pub use reading::doubt_there;
pub use states::{path_with, state_of};
pub use unfolding::{go_on_in, unfold_row};
