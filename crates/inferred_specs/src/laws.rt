//! What holds of the runs of a specification: laws of the definitions, which no code is needed for.
ghost use Rattle.inferred_specs.specs.Laws.{RunsAloneTell};

/// Runs without a frame tell of those beside any frame.
pub fn runs_alone_tell()
    ensures { RunsAloneTell }
{}
