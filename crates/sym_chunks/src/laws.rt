//! What the words say: laws of the definitions, which no code is needed for.
ghost use Rattle.sym_chunks.specs.Laws.{NumbersAreOrdered, KeysAreTold, ChunksAreToldByPlace, CasesAreChosen};

/// Two numbers are ordered exactly where the conditions hold that are asked for it.
pub fn numbers_are_ordered()
    ensures { NumbersAreOrdered }
{}

/// A chunk's key is the one that is asked for exactly where the conditions hold.
pub fn keys_are_told()
    ensures { KeysAreTold }
{}

/// A condition on each chunk of a location holds exactly where it holds of each chunk that lies there.
pub fn chunks_are_told_by_place()
    ensures { ChunksAreToldByPlace }
{}

/// The branches that are chosen are those of cases that come, and there is one where a case comes.
pub fn cases_are_chosen()
    ensures { CasesAreChosen }
{}
