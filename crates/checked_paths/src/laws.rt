//! What holds of every checked path: laws of the definitions, which no code is needed for.
ghost use Rattle.checked_paths.specs.Accounting.{AccountedRunsHaveNoFault, StandsAbove};
ghost use Rattle.checked_paths.specs.Following.{AnswersCover};

use sym_model::SymMemory;

/// What a checked path stands for is above all symbols.
pub fn standing_is_above<M: SymMemory>()
    ensures { StandsAbove M.stands }
{}

/// An answered path that stands for what the machine does covers what the checked state leads to.
pub fn answers_cover<M: SymMemory>()
    ensures { AnswersCover M.Local.memory M.Local.actions M.stands M.terms }
{}

/// Where nothing is left of the paths that come of the starts, no checked run has a fault.
pub fn accounted_runs_have_no_fault<M: SymMemory>()
    ensures { AccountedRunsHaveNoFault M.Local.memory M.Local.actions M.stands }
{}
