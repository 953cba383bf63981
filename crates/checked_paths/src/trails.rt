//! What holds of every trail of checked paths: laws of the definitions, which no code is needed for.
ghost use Rattle.checked_paths.specs.Trails.{CausesAreOfRuns, RunsFollowTrails, TrailsCanBeMet};

use sym_model::SymMemory;

/// Where a path's start stands for a checked state, and a valuation goes on from the start's and meets the path's conditions, a checked run
/// from that state makes the steps and the choices of the path, and the path stands for what it comes to.
pub fn runs_follow_trails<M: SymMemory>()
    ensures { RunsFollowTrails M.Local.memory M.Local.actions M.stands M.terms }
{}

/// Under the same, with the conditions that are shown, such a run comes to a right cause.
pub fn causes_are_of_runs<M: SymMemory>()
    ensures { CausesAreOfRuns M.Local.memory M.Local.actions M.stands M.terms }
{}

/// The conditions of a path, and those that a right cause shows, can be met where those of its start can.
pub fn trails_can_be_met<M: SymMemory>()
    ensures { TrailsCanBeMet M.Local.memory M.Local.actions M.stands M.terms }
{}
