//! What holds of every path: laws of the definitions, which no code is needed for.
ghost use Rattle.sym_step.specs.Stepping.{StartsMayStep};

use sym_model::SymMemory;

/// A path that stands for the start of a procedure without parameters may make a step.
pub fn starts_may_step<M: SymMemory>()
    ensures { StartsMayStep M.stands M.terms }
{}
