//! Rows of differences over whole numbers: numbers that meet them, or a combination of rows that none can meet.
#![tactic(auto)]

mod answers;
mod confirming;
mod cycles;
mod deciding;
mod differences;
mod proposing;
mod relaxing;
mod rows;
mod settling;
mod tables;
mod valuations;
mod walks;

pub use answers::Linear;
pub use deciding::linear;
pub use rows::{Coefficient, Coefficients, Relation, Row, Rows};
pub use tables::are_over;
