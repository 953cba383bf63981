//! What holds of every run: laws of the definitions, which no code is needed for.
ghost use Rattle.gil_machine.specs.Laws.{
  StaysOver,
  StaysOverAsTold,
  IsCutAsTold,
  EndsProperAsTold,
  StepsAboveFrames,
  ReachesAboveFrames,
  EndsAboveFrames,
  StepsAreSameLater,
  RunsAreSameLater,
  IsCutAtItsBound,
  DependsOnDrawnInputs,
  StaysProper,
  StartsProper,
  EndsProper,
  CounterIsNew,
  MayActWhereReached,
  TestsStartProper,
  BugsStay,
  CleanIsCleanBelow,
  CleanHasNoBug,
  StaysPlaced,
  StartsPlaced,
  StepsAreLocal,
  MissesFail,
  HeldValuesAreValues,
  HeldRunsAreRuns,
  NumbersAreFirst,
};

/// A run that is over is over with any larger bound, with the same end.
pub fn runs_stay_over()
    ensures raw { StaysOver }
    ensures told { StaysOverAsTold }
{}

/// A run is cut exactly where as many steps as its bound were done without an end.
pub fn bounds_cut()
    ensures raw { IsCutAtItsBound }
    ensures told { IsCutAsTold }
{}

/// The end of a run depends only on the inputs that it drew.
pub fn drawn_inputs_decide()
    ensures { DependsOnDrawnInputs }
{}

/// A proper state goes on to a proper state, or ends in a proper end.
pub fn states_stay_proper()
    ensures { StaysProper }
{}

/// A proper start begins in a proper state.
pub fn starts_are_proper()
    ensures { StartsProper }
{}

/// The run from a proper state has a proper end.
pub fn ends_are_proper()
    ensures raw { EndsProper }
    ensures told { EndsProperAsTold }
{}

/// A test of a procedure without parameters begins in a proper start.
pub fn tests_start_properly()
    ensures { TestsStartProper }
{}

/// A bug within a bound is one within any larger bound.
pub fn bugs_stay()
    ensures { BugsStay }
{}

/// What is clean within a bound is clean within any smaller one.
pub fn clean_is_clean_below()
    ensures { CleanIsCleanBelow }
{}

/// What is clean has no bug.
pub fn clean_has_no_bug()
    ensures { CleanHasNoBug }
{}

/// In a valid program no step leaves the commands of a body but by an end or a return.
pub fn states_stay_placed()
    ensures { StaysPlaced }
{}

/// A procedure of a valid program begins at a command.
pub fn starts_are_placed()
    ensures { StartsPlaced }
{}

/// The counter's symbol is new in a proper state, so that an action may be asked with it.
pub fn the_counter_is_new()
    ensures state { CounterIsNew }
    ensures action { MayActWhereReached }
{}

/// A step that misses no key is the same beside any compatible rest of the heap, which it keeps.
pub fn steps_are_local()
    ensures { StepsAreLocal }
{}

/// Calls on a machine with more callers below do the same, until the last of them returns or throws.
pub fn calls_go_on_above()
    ensures steps { StepsAboveFrames }
    ensures states { ReachesAboveFrames }
    ensures ends { EndsAboveFrames }
{}

/// States that differ in their number of draws alone do the same where their next inputs agree.
pub fn earlier_draws_are_ignored()
    ensures steps { StepsAreSameLater }
    ensures runs { RunsAreSameLater }
{}

/// A key that is missed is what the machine fails with.
pub fn misses_fail()
    ensures { MissesFail }
{}

/// A run whose numbers can be held in 128 bits is the run that stands.
pub fn held_runs_are_runs()
    ensures values { HeldValuesAreValues }
    ensures runs { HeldRunsAreRuns }
{}

/// A run comes to a number that can't be held exactly where the first such result is computed, before it has ended and
/// within its bound.
pub fn numbers_are_first()
    ensures { NumbersAreFirst }
{}
