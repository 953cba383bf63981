//! Symbolic objects.
#![tactic(auto)]

mod deleting;
mod laws;
mod listed;
mod memory;
mod places;
mod properties;
mod prototypes;
mod setting;
mod states;
mod table;

pub use laws::{
    delete_is_right, get_is_right, getproto_is_right, has_is_right, new_is_right, set_is_right,
    setproto_is_right,
};
pub use states::ObjectSym;
