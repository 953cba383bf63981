//! The specification of a path that has ended: the uses of its beginning and its conditions are the precondition, and what it left is the
//! postcondition. Bi-abduction is that of Calcagno, Distefano, O'Hearn, Yang, POPL 2009.
#![tactic(auto)]

mod conditions;
mod specifying;
mod wording;

pub use specifying::{Found, Founds, Told, specify};
