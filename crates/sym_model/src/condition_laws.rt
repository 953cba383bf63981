//! What alternatives say: laws of the definitions, which no code is needed for.
ghost use Rattle.sym_model.specs.ConditionLaws.{AlternativesCombine, KindsAreAsked, SameIsEqual};

/// Terms that have values are equal exactly where the conditions hold that a comparison gives.
pub fn comparisons_tell()
    ensures { SameIsEqual }
{}

/// The value of a term is of a kind exactly where the conditions hold that are asked for it.
pub fn kinds_tell()
    ensures { KindsAreAsked }
{}

/// What is made of alternatives holds where they do.
pub fn alternatives_combine<T: Drop>()
    ensures { AlternativesCombine T }
{}
