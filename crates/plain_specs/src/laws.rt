//! What holds of contained specifications: laws of the definitions, which no code is needed for.
ghost use Rattle.plain_specs.specs.Laws.{ContainedSpecificationsAreDecided};

/// Where the runs of a contained specification end within a bound and as it tells, from each heap that meets its precondition, none of its
/// checked runs has a fault, uses another specification, or is under way after as many steps as the bound.
pub fn contained_specifications_are_decided()
    ensures { ContainedSpecificationsAreDecided }
{}
