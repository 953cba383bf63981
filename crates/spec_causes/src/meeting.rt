//! Causes with the terms of the values at entry.
use checked_paths::{Cause, Entered};

/// Why a specification isn't verified, and the terms of its parameters and of the variables that its precondition names: their values
/// under a valuation are those with which a run begins.
#[derive(Debug, Drop)]
pub struct Met {
    pub cause: Cause,
    pub entered: Entered,
}
