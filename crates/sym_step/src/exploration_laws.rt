//! What holds of every path with a trail: laws of the definitions, which no code is needed for.
ghost use Rattle.gil_syntax.specs.Pure.{PureParts};
ghost use Rattle.sym_step.specs.ExplorationLaws.{EndsAreOfRuns, TrailsHoldAlong, TrailsKeep, TrailsMayEndBefore, TrailsReplay};
ghost use Rattle.sym_step.specs.Narrow.{TrailsStayNarrow};
ghost use Rattle.sym_step.specs.Plain.{TrailsStayPlain};

use sym_model::SymMemory;

/// What a path stands for as an end of a run is the end of that run.
pub fn ends_are_of_runs()
    ensures { EndsAreOfRuns }
{}

/// A run whose valuation meets the conditions of a path makes its steps and its choices.
pub fn trails_replay<M: SymMemory>()
    ensures { (p : PureParts) → TrailsReplay p M.Local.actions M.stands M.terms M.asked }
{}

/// A run that makes the choices of a path, and meets what it assumes, meets its conditions.
pub fn trails_hold_along<M: SymMemory>()
    ensures { (p : PureParts) → TrailsHoldAlong p M.Local.actions M.stands M.terms M.asked }
{}

/// A run beside a path is one beside the path before.
pub fn trails_may_end_before<M: SymMemory>()
    ensures { (p : PureParts) → TrailsMayEndBefore p M.Local.actions M.stands M.terms M.asked }
{}

/// Steps, tables, the sources of conditions, and that some valuation meets them, as a trail keeps them.
pub fn trails_keep<M: SymMemory>()
    ensures { (p : PureParts) → TrailsKeep p M.Local.actions M.stands M.terms M.asked }
{}

/// A path that began plain stays plain where the commands on its way have simple forms, and isn't unknown within 10,000 steps.
pub fn trails_stay_plain<M: SymMemory>()
    ensures { (p : PureParts) → TrailsStayPlain p M.Local.actions M.stands M.terms M.asked M.plain }
{}

/// A path that began narrow stays narrow where the commands on its way have narrow forms, and isn't unknown.
pub fn trails_stay_narrow<M: SymMemory>()
    ensures { (p : PureParts) → TrailsStayNarrow p M.Local.actions M.stands M.terms M.asked }
{}
