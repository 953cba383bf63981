//! What atoms over fresh variables tell: a law of the definitions, which no code is needed for.
ghost use Rattle.fresh_atoms.specs.Laws.{FreshAtomsAreConstant};

/// Where fresh variables stand behind variables of sort any and list alone, an atom of the fragment that names one says
/// nothing of the others: it is true under all proper valuations, or under none.
pub fn fresh_atoms_are_constant()
    ensures { FreshAtomsAreConstant }
{}
