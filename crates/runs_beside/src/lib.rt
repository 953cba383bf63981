//! Runs beside a rest of the heap: up to the first key that is missed they are the same, and leave the rest as it is.
//! Locality is that of Calcagno, O'Hearn, Yang, LICS 2007; missed keys are those of bi-abduction, Calcagno, Distefano, O'Hearn,
//! Yang, POPL 2009.
#![tactic(auto)]

mod laws;

pub use laws::{
    runs_are_local, runs_without_a_failure_are_local, runs_without_a_miss_are_local,
    states_are_local,
};
