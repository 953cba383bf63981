//! What a run does beside a rest of the heap: laws of the definitions, which no code is needed for.
ghost use Rattle.runs_beside.specs.Laws.{StatesAreLocal, RunsAreLocal, RunsWithoutAMissAreLocal, RunsWithoutAFailureAreLocal};

/// A state that a run comes to is come to beside the rest too, and stands beside it there.
pub fn states_are_local()
    ensures { StatesAreLocal }
{}

/// Within its bound a run comes to a key that it misses, beside the rest too, or it has the same end beside the rest.
pub fn runs_are_local()
    ensures { RunsAreLocal }
{}

/// A run that misses no key has the same end beside the rest.
pub fn runs_without_a_miss_are_local()
    ensures { RunsWithoutAMissAreLocal }
{}

/// So has one that doesn't fail, as a key that is missed is a failure.
pub fn runs_without_a_failure_are_local()
    ensures { RunsWithoutAFailureAreLocal }
{}
