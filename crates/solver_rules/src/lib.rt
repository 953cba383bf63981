//! Rules on lists of atoms of the fragment, with the classes of their terms: each closes the list, says what to split it by, or has
//! nothing to add; and what holds where none has.
#![tactic(auto)]

mod applying;
mod atoms;
mod kinding;
mod kinds;
mod laws;
mod listing;
mod nodes;
mod numbering;
mod offsets;
mod pairs;
mod rules;
mod running;
mod steps;

pub use atoms::is_undecided;
pub use kinds::{KindsFound, kinds_of};
pub use laws::{
    combinations_close, loose_disequalities_may_be_met, models_satisfy, settled_lists_may_be_valued,
};
pub use listing::{RowList, rows_of};
pub use nodes::Node;
pub use numbering::order_at;
pub use pairs::{Pair, disequality_of, flat_disequality};
pub use rules::Rule;
pub use running::run;
pub use steps::Step;
