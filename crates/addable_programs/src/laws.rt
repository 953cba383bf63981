//! What holds of the assertions of programs: laws of the definitions, which no code is needed for.
ghost use Rattle.addable_programs.specs.Addable.{ProgramsAreAddable};

/// The assertions of a valid program without faults of modes can be added, and a text may spell the literals of its logic commands.
pub fn programs_are_addable()
    ensures { ProgramsAreAddable }
{}
