//! What the symbolic memories share: the words in which their tables of branches are written, and what holds of them.
#![tactic(auto)]

mod arguments;
mod cases;
mod finding;
mod forms;
mod keys;
mod laws;
mod names;
mod ordering;
mod places;
mod walking;

pub use arguments::{checked, is_property, no_property, of_property, unknown_action, wrong_number};
pub use cases::{
    Case, Cases, choose, has_sure_case, is_sure, with_branches, with_case, with_failure,
    with_failure_case, with_last_branches, with_made_case,
};
pub use finding::{Access, with_found};
pub use forms::form_needed;
pub use keys::{key_here, subkeys_differ, subkeys_equal};
pub use laws::{cases_are_chosen, chunks_are_told_by_place, keys_are_told, numbers_are_ordered};
pub use names::{distinct_names, equal_to_none, equal_to_one, listed, name_sub, unheld, unlisted};
pub use ordering::{at_most, inside, less, outside};
pub use places::{ChunkTest, all_by_place, any_at, elsewhere_or, places_of};
pub use walking::{
    OtherSub, SameSub, Walk, Way, Ways, all_other_subs, any_key, copy_alternatives, missed_key,
    walk_on, with_all_taken, with_gone, with_way, without_chunk,
};
