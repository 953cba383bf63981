//! Where inference begins: with values of which nothing is known, and heaps that fix the keys which earlier paths missed. Bi-abduction is
//! that of Calcagno, Distefano, O'Hearn, Yang, POPL 2009.
#![tactic(auto)]

mod again;
mod beginnings;
mod opening;

pub use again::{Again, begin_again, stands_among};
pub use beginnings::{Beginning, Beginnings};
pub use opening::{Opened, begin};
